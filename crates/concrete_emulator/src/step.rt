//! One step of a machine.

ghost use Rattle.std.specs.Prelude.{◌≡◌, Some, IfOk};
ghost use Rattle.semantics_values.specs.States as states;
ghost use Rattle.abstract_value.specs.View.{abs};
ghost use Rattle.concrete_emulator.specs.Emulators.{IsReady, spec_of, step_of};
ghost use Rattle.concrete_emulator.specs.Instructions.{AreInstructions, IsInstructionAt, entries};
ghost use Rattle.concrete_emulator.specs.States.{Shows, ShowsState, counter_in};
ghost use Rattle.concrete_emulator.specs.Values.{IsStepped};

use crate::abstract_states::counter;
use crate::emulator::Emulator;
use crate::instructions::{Fetched, Instructions};
use abstract_value::AbstractValue;
use base_concrete::Concrete;
use concrete_calls::{CallResult, evaluate_call};
use std::alloc::{AllocError, Global};

/// What a step comes to: the next state; the same state, where there is no code word, or one that is no instruction; or that
/// a function had no turn left.
#[derive(Drop)]
pub(crate) enum MachineStep {
    To(AbstractValue<Concrete>),
    Left(AbstractValue<Concrete>),
    Undecodable(AbstractValue<Concrete>, u32),
    OutOfFuel,
}

/// One step from a state.
pub(crate) fn step(
    alloc: Global,
    emulator: &Emulator,
    instructions: &mut Instructions,
    s: AbstractValue<Concrete>,
) -> Result<MachineStep, AllocError>
    requires ready { IsReady emulator.now }
    requires known { AreInstructions emulator.now (entries instructions.old) }
    requires state { ShowsState (spec_of emulator.now) emulator.now.machine.state (abs s) }
    ensures known { AreInstructions emulator.now (entries instructions.new) }
    ensures stepped { (t : states.State) → Shows (spec_of emulator.now) emulator.now.machine.state t (abs s)
        → IfOk result (λ r. IsStepped (spec_of emulator.now) emulator.now.machine.state t r (step_of emulator.now t)) }
{
    let Some(at) = counter(&s) else {
        unreachable!();
    };
    match instructions.fetch(alloc, emulator, at)? {
        Fetched::NoCode => Ok(MachineStep::Left(s)),
        Fetched::NoInstruction(word) => Ok(MachineStep::Undecodable(s, word)),
        Fetched::Instruction(instruction) => execute(alloc, emulator, instruction, s, at),
    }
}

/// The effect of the instruction at an address on a state, whose counter is `at`.
fn execute(
    alloc: Global,
    emulator: &Emulator,
    instruction: AbstractValue<Concrete>,
    s: AbstractValue<Concrete>,
    at: u32,
) -> Result<MachineStep, AllocError>
    requires ready { IsReady emulator.now }
    requires instruction { IsInstructionAt emulator.now at (abs instruction) }
    requires state { ShowsState (spec_of emulator.now) emulator.now.machine.state (abs s) }
    requires at { counter_in (abs s) ≡ Some at }
    ensures { (t : states.State) → Shows (spec_of emulator.now) emulator.now.machine.state t (abs s)
        → IfOk result (λ r. IsStepped (spec_of emulator.now) emulator.now.machine.state t r (step_of emulator.now t)) }
{
    let mut args = Vec::with_capacity(alloc, 2)?;
    args.push(instruction)?;
    args.push(s)?;
    match evaluate_call(
        alloc,
        emulator.spec,
        emulator.cir,
        emulator.machine.interp,
        args,
        at,
        emulator.turns,
    )? {
        CallResult::OutOfFuel => Ok(MachineStep::OutOfFuel),
        CallResult::Done(next) => Ok(MachineStep::To(next)),
    }
}
