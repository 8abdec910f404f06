//! The entry of a command, and the state from which a machine starts.

ghost use Rattle.std.specs.Prelude.{◌≡◌, ◌∷◌, [], ◌≤◌, IfOk, IsTrue, length};
ghost use Rattle.spec_ir.specs.Views.{specification};
ghost use Rattle.semantics_values.specs.Views.{state};
ghost use Rattle.support_io.specs.InputState.{InputsKept};
ghost use Rattle.state_text.specs.Reading.{entry_of as entry};
ghost use Rattle.program_common.specs.Faultless.{NoOtherFault};
ghost use Rattle.program_common.specs.Outcomes.{Gives};
ghost use Rattle.program_common.specs.Reading.{Gave, IsTakenFrom};
ghost use Rattle.program_machine.specs.Entry.{StartOf, entry_cap};
ghost use Rattle.program_machine.specs.AnalysisEntry.{Enters, EntryOf, IsEntry};

use crate::caps::ENTRY_CAP;
use program_common::{Halt, read_input};
use semantics_values::{Entry, State};
use spec_checker::Spec;
use state_text::{one_state, read_entry};
use std::alloc::Global;
use support_io::Inputs;

/// The entry that the input of a name holds.
pub fn entry_of<'a, I: Inputs>(
    alloc: Global,
    inputs: &mut I,
    spec: &Spec,
    name: &'a str,
) -> Result<Entry, Halt<'a>>
    ensures kept { InputsKept (I.state inputs.old) (I.state inputs.new) }
    ensures gives { Gives (EntryOf (Gave (I.state inputs.old) (I.state inputs.new)) (specification spec.now) name.entry.now)
        entry result }
    ensures no_other_fault { NoOtherFault (I.state inputs.old) (I.state inputs.new) result }
    ensures taken { IsTrue (I.state inputs.old).tells → IsTrue (I.state inputs.new).is_open
        → IsTakenFrom ((name.entry.now, entry_cap) ∷ []) (I.state inputs.old) (I.state inputs.new) }
    ensures entry { IfOk result (λ e. IsEntry (specification spec.now) (entry e)) }
{
    let text = read_input(alloc, inputs, name, ENTRY_CAP)?;
    read_entry_text(alloc, spec, &text)
}

/// The entry that a text is.
fn read_entry_text<'a>(alloc: Global, spec: &Spec, text: &[u8]) -> Result<Entry, Halt<'a>>
    requires { length text.now ≤ entry_cap }
    ensures { Gives (Enters (specification spec.now) text.now) entry result }
{
    Ok(read_entry(alloc, spec, text)?)
}

/// The one state of the entry that the input of a name holds.
pub fn start_of<'a, I: Inputs>(
    alloc: Global,
    inputs: &mut I,
    spec: &Spec,
    name: &'a str,
) -> Result<State, Halt<'a>>
    ensures kept { InputsKept (I.state inputs.old) (I.state inputs.new) }
    ensures gives { Gives (StartOf (Gave (I.state inputs.old) (I.state inputs.new)) (specification spec.now) name.entry.now)
        state result }
    ensures no_other_fault { NoOtherFault (I.state inputs.old) (I.state inputs.new) result }
    ensures taken { IsTrue (I.state inputs.old).tells → IsTrue (I.state inputs.new).is_open
        → IsTakenFrom ((name.entry.now, entry_cap) ∷ []) (I.state inputs.old) (I.state inputs.new) }
{
    let entry = entry_of(alloc, inputs, spec, name)?;
    Ok(one_state(alloc, spec, &entry)?)
}
