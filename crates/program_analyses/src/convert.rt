//! The command `convert`.

ghost use Rattle.std.specs.Prelude.{◌<◌, ◌≤◌, ◌^◌, IsSome, length};
ghost use Rattle.program_common.specs.Outcomes.{Gives, answer_of};
ghost use Rattle.program_common.specs.Reading.{Gave, ReadsOnly};
ghost use Rattle.support_command_line.specs.Views.{convert_of};
ghost use Rattle.program_machine.specs.Inputs.{table_cap};
ghost use Rattle.program_machine.specs.Views.{code_inputs_of as view};
ghost use Rattle.program_domain_tasks.specs.Read.{IsMachine};
ghost use Rattle.program_analyses.specs.Steps.{ConversionOf, ConvertSteps, convert_inputs};
ghost use Rattle.spec_ir.specs.Views.{specification};

use program_base_tasks::over_base;
use program_common::{Answer, Halt, read_input};
use program_domain_tasks::{DomainTask, Subject};
use program_machine::{CodeInputs, TABLE_CAP, code_inputs_of};
use std::alloc::Global;
use std::sync::ledger::Ledger;
use support_command_line::{BaseName, ConvertRequest};
use support_io::Inputs;
use support_step_counter::Steps;

/// A table in format 2: a machine's specification and its code are read and examined, then the table is read, in either format, and it is
/// written anew.
pub fn convert_request<'a, I: Inputs, L: Ledger>(
    alloc: Global,
    inputs: &mut I,
    request: &ConvertRequest<'a>,
    steps: &mut Steps<L>,
) -> Result<Answer, Halt<'a>>
    requires few { length request.now.code.parts.items ≤ 16 }
    ensures reads { ReadsOnly I.state (convert_inputs (convert_of request.now)) inputs.old inputs.new result }
    ensures gives { Gives (ConvertSteps (Gave (I.state inputs.old) (I.state inputs.new)) (convert_of request.now))
        answer_of result }
    // No transfer.
    ensures work { steps.new ≤ steps.old }
{
    let coded = code_inputs_of(alloc, inputs, request.spec, &request.code)?;
    let table = read_input(alloc, inputs, request.table, TABLE_CAP)?;
    conversion_of::<L>(alloc, &coded, request.base, &table, steps)
}

/// What a table is written as, over a base.
fn conversion_of<'a, L: Ledger>(
    alloc: Global,
    coded: &CodeInputs,
    base: BaseName,
    table: &[u8],
    steps: &mut Steps<L>,
) -> Result<Answer, Halt<'a>>
    requires machine { IsMachine (specification coded.now.spec) }
    requires short { length table.now ≤ table_cap }
    ensures gives { Gives (ConversionOf base (view coded.now) table.now) answer_of result }
    ensures work { steps.new ≤ steps.old }
{
    let subject = Subject {
        spec: &coded.spec,
        image: &coded.image,
        task: DomainTask::Convert(table),
    };
    over_base::<L>(alloc, &subject, base, steps)
}
