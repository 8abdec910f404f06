//! A machine with its code and an entry.

ghost use Rattle.std.specs.Prelude.{◌≡◌, ◌<◌, ◌≤◌, ◌^◌, ◌++◌, ◌∷◌, [], IfOk, IsSome, length};
ghost use Rattle.support_command_line.specs.Views.{code_of, spec_of};
ghost use Rattle.spec_ir.specs.Views.{specification};
ghost use Rattle.domain_laws.specs.States.{state_type};
ghost use Rattle.semantics_laws.specs.Accepted.{IsAccepted};
ghost use Rattle.program_common.specs.Outcomes.{Gives};
ghost use Rattle.program_common.specs.Reading.{Gave, ReadsOnly};
ghost use Rattle.state_text.specs.Reading.{entry_of as entry};
ghost use Rattle.program_machine.specs.Code.{part_inputs};
ghost use Rattle.program_machine.specs.Entry.{entry_cap};
ghost use Rattle.program_machine.specs.AnalysisEntry.{IsEntry};
ghost use Rattle.program_machine.specs.Inputs.{PosedOf, PosedWith, posed_inputs};
ghost use Rattle.program_machine.specs.Views as view;

use crate::code_inputs::{CodeInputs, code_inputs_of};
use crate::entry::entry_of;
use crate::image_of;
use code_image::Image;
use program_common::Halt;
use semantics_values::Entry;
use spec_checker::Spec;
use std::alloc::Global;
use support_command_line::{Code, SpecName};
use support_io::Inputs;

/// The specification of a machine, its code, and an entry.
pub struct AnalysisInputs {
    pub spec: Spec,
    pub image: Image,
    pub entry: Entry,
}

/// Written out, so that it stands once, and not once more in each crate where such inputs are let go.
impl Drop for AnalysisInputs {
    fn drop(self) {
        let AnalysisInputs {
            spec: _spec,
            image: _image,
            entry: _entry,
        } = self;
    }
}

/// The machine, the code and the entry of these names.
pub fn analysis_inputs_of<'a, I: Inputs>(
    alloc: Global,
    inputs: &mut I,
    name: SpecName<'a>,
    code: &Code<'a>,
    entry_name: &'a str,
) -> Result<AnalysisInputs, Halt<'a>>
    requires few { length code.now.parts.items ≤ 16 }
    ensures reads { ReadsOnly I.state (posed_inputs (spec_of name.entry) (code_of code.now) entry_name.entry.now) inputs.old inputs.new result }
    ensures gives { Gives (PosedOf (Gave (I.state inputs.old) (I.state inputs.new)) (spec_of name.entry) (code_of code.now) entry_name.entry.now)
        view.analysis_inputs_of result }
    ensures accepted { IfOk result (λ p. IsAccepted (specification p.spec)) }
    ensures machine { IfOk result (λ p. IsSome (specification p.spec).machine) }
    ensures few { IfOk result (λ p. length (state_type (specification p.spec)).fields < 2 ^ 32) }
    ensures entry { IfOk result (λ p. IsEntry (specification p.spec) (entry p.entry)) }
{
    let CodeInputs { spec, image } = code_inputs_of(alloc, inputs, name, code)?;
    let entry = entry_of(alloc, inputs, &spec, entry_name)?;
    Ok(AnalysisInputs { spec, image, entry })
}

/// The code and the entry of these names, with the specification of a machine.
pub(crate) fn posed_with<'a, I: Inputs>(
    alloc: Global,
    inputs: &mut I,
    spec: Spec,
    code: &Code<'a>,
    entry_name: &'a str,
) -> Result<AnalysisInputs, Halt<'a>>
    requires few { length code.now.parts.items ≤ 16 }
    ensures reads { ReadsOnly I.state (part_inputs (code_of code.now).parts ++ (entry_name.entry.now, entry_cap) ∷ []) inputs.old inputs.new result }
    ensures gives { Gives (PosedWith (Gave (I.state inputs.old) (I.state inputs.new)) (specification spec) (code_of code.now) entry_name.entry.now)
        view.analysis_inputs_of result }
    ensures same { IfOk result (λ p. p.spec ≡ spec) }
    ensures entry { IfOk result (λ p. IsEntry (specification p.spec) (entry p.entry)) }
{
    let image = image_of(alloc, inputs, code)?;
    let entry = entry_of(alloc, inputs, &spec, entry_name)?;
    Ok(AnalysisInputs { spec, image, entry })
}
