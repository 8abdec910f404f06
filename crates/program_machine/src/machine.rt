//! The specification of a machine.

ghost use Rattle.std.specs.Prelude.{IfOk, IsSome};
ghost use Rattle.support_command_line.specs.Views.{spec_of};
ghost use Rattle.spec_ir.specs.Views.{specification};
ghost use Rattle.semantics_laws.specs.Accepted.{IsAccepted};
ghost use Rattle.program_common.specs.Outcomes.{Gives};
ghost use Rattle.program_common.specs.Reading.{Gave, ReadsOnly};
ghost use Rattle.program_common.specs.Sources.{source_inputs};
ghost use Rattle.program_machine.specs.Machines.{MachineOf};

use program_common::{Halt, source_of, specification_of};
use spec_checker::{Spec, SpecUse};
use std::alloc::Global;
use support_command_line::SpecName;
use support_io::Inputs;

/// The specification of a machine, read from its input or shipped.
pub fn machine_of<'a, I: Inputs>(
    alloc: Global,
    inputs: &mut I,
    name: SpecName<'a>,
) -> Result<Spec, Halt<'a>>
    ensures reads { ReadsOnly I.state (source_inputs (spec_of name.entry)) inputs.old inputs.new result }
    ensures gives { Gives (MachineOf (Gave (I.state inputs.old) (I.state inputs.new)) (spec_of name.entry))
        specification result }
    ensures accepted { IfOk result (λ spec. IsAccepted (specification spec)) }
    ensures machine { IfOk result (λ spec. IsSome (specification spec).machine) }
{
    let source = source_of(alloc, inputs, name)?;
    specification_of(alloc, &source, SpecUse::Machine)
}
