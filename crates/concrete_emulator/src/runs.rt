//! Runs of a machine.

ghost use Rattle.std.specs.Prelude.{◌≡◌, ℕ, Some, IfOk, IsSome};
ghost use Rattle.spec_ir.specs.Views.{specification};
ghost use Rattle.semantics_values.specs.Types.{environment_of};
ghost use Rattle.semantics_values.specs.Views.{state};
ghost use Rattle.semantics_laws.specs.Accepted.{IsAccepted};
ghost use Rattle.semantics_laws.specs.KeptTypes.{IsTypedState};
ghost use Rattle.code_image.specs.Decoders.{IsDecoderOf};
ghost use Rattle.code_image.specs.Image.{code_at};
ghost use Rattle.concrete_emulator.specs.Emulators.{IsReady, end_of, spec_of};
ghost use Rattle.concrete_emulator.specs.Instructions.{AreInstructions, entries};
ghost use Rattle.concrete_emulator.specs.Ends.{IsEmulated, IsEnd, IsRun, IsStateOf};

use crate::abstract_states::{last, value_of_state};
use crate::emulator::Emulator;
use crate::instructions::Instructions;
use crate::step::{MachineStep, step};
use code_image::{Decoder, Image};
use eval_code_lowering::lower;
use semantics_values::State;
use spec_ir::Spec;
use state_text::Stop;
use std::alloc::{AllocError, Global};

/// The end of a run: its last state, how many steps were done, and why there was no further one.
#[derive(Debug, Drop)]
pub struct EmulatedRun {
    pub state: State,
    pub done: u64,
    pub stop: Stop,
}

/// The end of a run, or that it ended at a deep step after so many steps.
#[derive(Debug, Drop)]
pub(crate) enum Run {
    Ended(EmulatedRun),
    OutOfFuel(u64),
}

/// Runs a machine from a state, for at most `bound` steps, where each activation of a step has so many turns.
pub fn emulate(
    alloc: Global,
    spec: &Spec,
    decoder: &Decoder,
    image: &Image,
    start: State,
    bound: u64,
    turns: u32,
) -> Result<EmulatedRun, AllocError>
    requires accepted { IsAccepted (specification spec.now) }
    requires machine { IsSome spec.now.machine }
    requires decoder { IsDecoderOf (specification spec.now).rows decoder.now }
    requires typed { IsStateOf (specification spec.now) (state start) }
    ensures { IfOk result (λ e. IsEmulated (specification spec.now) (code_at image.now) turns bound (state start) e) }
{
    let Some(machine) = spec.machine else {
        unreachable!();
    };
    let cir = lower(alloc, spec)?;
    let emulator = Emulator {
        spec,
        cir: &cir,
        machine,
        decoder,
        image,
        turns,
    };
    let mut instructions = Instructions::new(alloc);
    match run_steps(alloc, &emulator, &mut instructions, &start, bound)? {
        Run::Ended(end) => Ok(end),
        Run::OutOfFuel(done) => {
            match run_steps(alloc, &emulator, &mut instructions, &start, done)? {
                Run::Ended(before) => Ok(stopped_by_turns(before)),
                Run::OutOfFuel(_) => unreachable!(),
            }
        }
    }
}

/// The end of a run at a step that is deep, from that of the run up to it.
fn stopped_by_turns(before: EmulatedRun) -> EmulatedRun
    ensures { result ≡ record { state = before.state; done = before.done; stop = Stop.Turns before.state.pc } }
{
    let at = before.state.pc;
    EmulatedRun {
        state: before.state,
        done: before.done,
        stop: Stop::Turns { at },
    }
}

/// Does at most `bound` steps from a state. Where one is deep, the state before it is gone.
fn run_steps(
    alloc: Global,
    emulator: &Emulator,
    instructions: &mut Instructions,
    start: &State,
    bound: u64,
) -> Result<Run, AllocError>
    requires ready { IsReady emulator.now }
    requires known { AreInstructions emulator.now (entries instructions.old) }
    requires typed { IsTypedState (environment_of (spec_of emulator.now)) emulator.now.machine.state (state start.now) }
    ensures known { AreInstructions emulator.now (entries instructions.new) }
    ensures end { IfOk result (λ r. IsRun (end_of emulator.now bound (state start.now)) r) }
{
    let mut s = value_of_state(alloc, emulator.spec, emulator.machine, start)?;
    for done in 0..bound {
        match step(alloc, emulator, instructions, s)? {
            MachineStep::To(next) => s = next,
            MachineStep::Left(same) => {
                let state = last(alloc, &same)?;
                return Ok(end_run(state, done, Stop::Left));
            }
            MachineStep::Undecodable(same, word) => {
                let state = last(alloc, &same)?;
                let at = state.pc;
                return Ok(end_run(state, done, Stop::Undecodable { at, word }));
            }
            MachineStep::OutOfFuel => return Ok(Run::OutOfFuel(done)),
        }
    }
    let state = last(alloc, &s)?;
    Ok(end_run(state, bound, Stop::Bound))
}

fn end_run(state: State, done: u64, stop: Stop) -> Run
    ensures { result ≡ Run.Ended (record { state = state; done = done; stop = stop }) }
{
    Run::Ended(EmulatedRun { state, done, stop })
}
