//! A machine with its code and an entry, and a cell of its states.

ghost use Rattle.std.specs.Prelude.{◌<◌, ◌≤◌, ◌^◌, IfOk, IsSome, length};
ghost use Rattle.support_command_line.specs.Views.{code_of, spec_of};
ghost use Rattle.spec_ir.specs.Views.{specification};
ghost use Rattle.domain_laws.specs.States.{state_type};
ghost use Rattle.semantics_laws.specs.Accepted.{IsAccepted};
ghost use Rattle.program_common.specs.Outcomes.{Gives};
ghost use Rattle.program_common.specs.Reading.{Gave, ReadsOnly};
ghost use Rattle.state_text.specs.Reading.{entry_of as entry};
ghost use Rattle.program_machine.specs.AnalysisEntry.{IsEntry};
ghost use Rattle.program_machine.specs.Inputs.{SoughtOf, posed_inputs};
ghost use Rattle.program_machine.specs.Views as view;

use crate::analysis_inputs::{AnalysisInputs, posed_with};
use crate::cell::cell_of;
use crate::machine_of;
use program_common::Halt;
use std::alloc::Global;
use support_command_line::{Code, SpecName};
use support_io::Inputs;
use text_slices::SliceCell;

/// What a slice is of: the specification of a machine, its code and an entry, and a cell of its states.
pub struct SliceInputs {
    pub posed: AnalysisInputs,
    pub asked: SliceCell,
}

/// Written out, so that it stands once, and not once more in each crate where such inputs are let go.
impl Drop for SliceInputs {
    fn drop(self) {
        let SliceInputs {
            posed: _posed,
            asked: _asked,
        } = self;
    }
}

/// The machine of this name and the cell of its states that a text is, and then the code and the entry of these names.
pub fn slice_inputs_of<'a, I: Inputs>(
    alloc: Global,
    inputs: &mut I,
    name: SpecName<'a>,
    cell: &'a str,
    code: &Code<'a>,
    entry_name: &'a str,
) -> Result<SliceInputs, Halt<'a>>
    requires few { length code.now.parts.items ≤ 16 }
    ensures reads { ReadsOnly I.state (posed_inputs (spec_of name.entry) (code_of code.now) entry_name.entry.now) inputs.old inputs.new result }
    ensures gives { Gives (SoughtOf (Gave (I.state inputs.old) (I.state inputs.new)) (spec_of name.entry) cell.entry.now (code_of code.now)
        entry_name.entry.now)
        view.slice_inputs_of result }
    ensures accepted { IfOk result (λ s. IsAccepted (specification s.posed.spec)) }
    ensures machine { IfOk result (λ s. IsSome (specification s.posed.spec).machine) }
    ensures few { IfOk result (λ s. length (state_type (specification s.posed.spec)).fields < 2 ^ 32) }
    ensures entry { IfOk result (λ s. IsEntry (specification s.posed.spec) (entry s.posed.entry)) }
{
    let spec = machine_of(alloc, inputs, name)?;
    let asked = cell_of(&spec, cell)?;
    let posed = posed_with(alloc, inputs, spec, code, entry_name)?;
    Ok(SliceInputs { posed, asked })
}
