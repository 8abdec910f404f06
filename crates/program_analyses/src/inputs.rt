//! What `stress` makes in place of inputs.

ghost use Rattle.std.specs.Prelude.{◌≡◌, ◌∷◌, [], ◌<◌, ◌≤◌, ◌^◌, IfOk, IsSome, length, map};
ghost use Rattle.support_command_line.specs.Views.{stress_of};
ghost use Rattle.code_image.specs.Views.{segment_of};
ghost use Rattle.code_image.specs.declared.order.Order.TheVariants.{Big};
ghost use Rattle.spec_ir.specs.Views.{specification};
ghost use Rattle.spec_ir.specs.declared.spec.SpecUse.TheVariants as uses;
ghost use Rattle.domain_laws.specs.States.{state_type};
ghost use Rattle.concrete_emulator.specs.Ends.{IsStateOf};
ghost use Rattle.semantics_laws.specs.Accepted.{IsAccepted};
ghost use Rattle.program_common.specs.Outcomes.{Gives};
ghost use Rattle.program_common.specs.Shipped.{power_pc_text};
ghost use Rattle.program_common.specs.Sources.{Specifies, source_cap};
ghost use Rattle.program_machine.specs.Code.{Images};
ghost use Rattle.program_machine.specs.Entry.{StartsFrom, entry_cap};
ghost use Rattle.state_text.specs.Reading.{entry_of as entry};
ghost use Rattle.semantics_values.specs.Views.{state};
ghost use Rattle.program_machine.specs.AnalysisEntry.{Enters, IsEntry};
ghost use Rattle.program_machine.specs.Views as view;
ghost use Rattle.program_stress_code.specs.Entry as defined;
ghost use Rattle.program_analyses.specs.Made.{MadeOf, made_code};

use code_image::{Image, Order, Segment};
use program_common::{Halt, specification_of};
use program_machine::AnalysisInputs;
use program_stress_code::{CODE_BASE, code_bytes, entry_text, start_text};
use semantics_values::{Entry, State};
use spec_checker::{Spec, SpecUse};
use state_text::{one_state, read_entry};
use std::alloc::{AllocError, Global};
use support_command_line::StressRequest;

/// The source of the specification of PowerPC.
#[tactic(auto, unfolding(program_common::specs::Shipped::power_pc_text))]
fn source() -> &'static str
    ensures text { result.now ≡ power_pc_text }
    ensures cap { length result.now ≤ source_cap }
{
    program_spec_powerpc::text()
}

/// The specification of PowerPC.
fn machine<'a>(alloc: Global) -> Result<Spec, Halt<'a>>
    ensures gives { Gives (Specifies uses.Machine power_pc_text) specification result }
    ensures accepted { IfOk result (λ spec. IsAccepted (specification spec)) }
    ensures machine { IfOk result (λ spec. IsSome (specification spec).machine) }
    ensures few { IfOk result (λ spec. length (state_type (specification spec)).fields < 2 ^ 32) }
{
    specification_of(alloc, source().as_bytes(), SpecUse::Machine)
}

/// The code that a request makes: one segment.
fn segments(alloc: Global, request: StressRequest) -> Result<Vec<Segment>, AllocError>
    ensures code { IfOk result (λ segments. map segment_of segments.items ≡ made_code (stress_of request) ∷ []) }
    ensures one { IfOk result (λ segments. length segments.items ≡ 1) }
{
    let bytes = code_bytes(alloc, request.number, request.count)?;
    let mut segments = Vec::new(alloc);
    segments.push(Segment {
        base: CODE_BASE,
        bytes,
    })?;
    Ok(segments)
}

/// Its image.
fn image<'a>(alloc: Global, request: StressRequest) -> Result<Image, Halt<'a>>
    ensures { Gives (Images Big (made_code (stress_of request) ∷ [])) (λ image. image) result }
{
    let segments = segments(alloc, request)?;
    Ok(Image::new(alloc, Order::Big, &segments)?)
}

/// The entry from which it is analysed.
fn stress_entry<'a>(alloc: Global, spec: &Spec) -> Result<Entry, Halt<'a>>
    ensures gives { Gives (Enters (specification spec.now) defined.entry_text) entry result }
    ensures entry { IfOk result (λ e. IsEntry (specification spec.now) (entry e)) }
{
    Ok(read_entry(alloc, spec, entry_text().as_bytes())?)
}

/// What a request makes: the machine, its code and an entry.
pub(crate) fn stress_inputs<'a>(
    alloc: Global,
    request: StressRequest,
) -> Result<AnalysisInputs, Halt<'a>>
    ensures gives { Gives (MadeOf (stress_of request)) view.analysis_inputs_of result }
    ensures accepted { IfOk result (λ p. IsAccepted (specification p.spec)) }
    ensures machine { IfOk result (λ p. IsSome (specification p.spec).machine) }
    ensures few { IfOk result (λ p. length (state_type (specification p.spec)).fields < 2 ^ 32) }
    ensures entry { IfOk result (λ p. IsEntry (specification p.spec) (entry p.entry)) }
{
    let spec = machine(alloc)?;
    let image = image(alloc, request)?;
    let entry = stress_entry(alloc, &spec)?;
    Ok(AnalysisInputs { spec, image, entry })
}

/// The state from which the code runs.
pub(crate) fn stress_start<'a>(alloc: Global, spec: &Spec) -> Result<State, Halt<'a>>
    ensures { Gives (StartsFrom (specification spec.now) defined.start_text) state result }
{
    let entry = read_entry(alloc, spec, start_text().as_bytes())?;
    Ok(one_state(alloc, spec, &entry)?)
}
