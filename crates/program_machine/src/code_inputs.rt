//! A machine with its code.

ghost use Rattle.std.specs.Prelude.{◌<◌, ◌≤◌, ◌^◌, IfOk, IsSome, length};
ghost use Rattle.support_command_line.specs.Views.{code_of, spec_of};
ghost use Rattle.spec_ir.specs.Views.{specification};
ghost use Rattle.domain_laws.specs.States.{state_type};
ghost use Rattle.semantics_laws.specs.Accepted.{IsAccepted};
ghost use Rattle.program_common.specs.Outcomes.{Gives};
ghost use Rattle.program_common.specs.Reading.{Gave, ReadsOnly};
ghost use Rattle.program_machine.specs.Inputs.{CodedOf, coded_inputs};
ghost use Rattle.program_machine.specs.Views as view;

use crate::{image_of, machine_of};
use code_image::Image;
use program_common::Halt;
use spec_checker::Spec;
use std::alloc::Global;
use support_command_line::{Code, SpecName};
use support_io::Inputs;

/// The specification of a machine, and its code.
#[derive(Drop)]
pub struct CodeInputs {
    pub spec: Spec,
    pub image: Image,
}

/// The machine and the code of these names.
pub fn code_inputs_of<'a, I: Inputs>(
    alloc: Global,
    inputs: &mut I,
    name: SpecName<'a>,
    code: &Code<'a>,
) -> Result<CodeInputs, Halt<'a>>
    requires few { length code.now.parts.items ≤ 16 }
    ensures reads { ReadsOnly I.state (coded_inputs (spec_of name.entry) (code_of code.now)) inputs.old inputs.new result }
    ensures gives { Gives (CodedOf (Gave (I.state inputs.old) (I.state inputs.new)) (spec_of name.entry) (code_of code.now))
        view.code_inputs_of result }
    ensures accepted { IfOk result (λ c. IsAccepted (specification c.spec)) }
    ensures machine { IfOk result (λ c. IsSome (specification c.spec).machine) }
    ensures few { IfOk result (λ c. length (state_type (specification c.spec)).fields < 2 ^ 32) }
{
    let spec = machine_of(alloc, inputs, name)?;
    let image = image_of(alloc, inputs, code)?;
    Ok(CodeInputs { spec, image })
}
