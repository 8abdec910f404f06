//! The run of a machine, and the listing of its code.

ghost use Rattle.std.specs.Prelude.{◌≡◌, IfOk, IsSome};
ghost use Rattle.spec_ir.specs.Views.{specification};
ghost use Rattle.semantics_values.specs.Views.{state};
ghost use Rattle.semantics_laws.specs.Accepted.{IsAccepted};
ghost use Rattle.code_image.specs.Listing.{listing};
ghost use Rattle.concrete_emulator.specs.Ends.{IsStateOf};
ghost use Rattle.program_common.specs.Outcome.{text};
ghost use Rattle.program_common.specs.Outcomes.{answer_of as seen};
ghost use Rattle.program_machine.specs.Running.{IsRunOf, answer_of};

use code_image::{Decoder, Image, listing_text};
use concrete_emulator::emulate;
use program_common::Answer;
use semantics_values::State;
use spec_checker::Spec;
use state_text::{Stop, stopped_text};
use std::alloc::{AllocError, Global};

/// Why the run of a machine ended, and its last state.
pub fn run_machine(
    alloc: Global,
    spec: &Spec,
    image: &Image,
    start: State,
    turns: u32,
    bound: u32,
) -> Result<Answer, AllocError>
    requires accepted { IsAccepted (specification spec.now) }
    requires machine { IsSome (specification spec.now).machine }
    requires typed { IsStateOf (specification spec.now) (state start) }
    ensures { IfOk result (λ answer. IsRunOf (specification spec.now) image.now turns bound (state start) (seen answer)) }
{
    let decoder = Decoder::new(alloc, spec)?;
    let end = emulate(alloc, spec, &decoder, image, start, u64::from(bound), turns)?;
    let text = stopped_text(alloc, spec, end.stop, end.done, &end.state)?;
    Ok(answer_of(end.stop, text))
}

/// The answer of a machine that stopped so.
fn answer_of(stop: Stop, text: Vec<u8>) -> Answer
    ensures { seen result ≡ answer_of stop text.items }
{
    match stop {
        Stop::Bound | Stop::Left => Answer::Text(text),
        Stop::Undecodable { .. } => Answer::Undecodable(text),
        Stop::Turns { .. } => Answer::CallsEnded(text),
    }
}

/// The listing of code.
pub fn listing(alloc: Global, spec: &Spec, image: &Image) -> Result<Answer, AllocError>
    ensures { IfOk result (λ answer. seen answer ≡ text (listing (specification spec.now) image.now)) }
{
    let decoder = Decoder::new(alloc, spec)?;
    Ok(Answer::Text(listing_text(alloc, spec, &decoder, image)?))
}
