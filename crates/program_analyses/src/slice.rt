//! The command `slice`.

ghost use Rattle.std.specs.Prelude.{◌≡◌, ◌<◌, ◌≤◌, ◌^◌, IsSome, length};
ghost use Rattle.program_common.specs.Outcomes.{Gives, answer_of};
ghost use Rattle.program_common.specs.Reading.{Gave, ReadsOnly};
ghost use Rattle.support_command_line.specs.Views.{analyse_of, slice_of};
ghost use Rattle.program_machine.specs.Inputs.{table_cap};
ghost use Rattle.program_machine.specs.Views.{slice_inputs_of as view};
ghost use Rattle.code_image.specs.Image.{Image};
ghost use Rattle.spec_ir.specs.Specification.{Spec};
ghost use Rattle.program_domain_tasks.specs.Read.{IsAsked, IsRead, problem_at, task_of};
ghost use Rattle.state_text.specs.Reading.{entry_of};
ghost use Rattle.program_analyses.specs.Problems.{slice_task_in};
ghost use Rattle.program_analyses.specs.Read.{IsPosed};
ghost use Rattle.program_analyses.specs.Steps.{SliceOf, SliceSteps, slice_inputs};
ghost use Rattle.program_analyses.specs.Work.{CheckTakes, SliceWork};

use program_base_tasks::over_base;
use program_common::{Answer, Halt, read_input};
use program_domain_tasks::{AnalysisStart, DomainTask, SliceCriterion, Subject};
use program_machine::{SliceInputs, TABLE_CAP, slice_inputs_of};
use std::alloc::Global;
use std::sync::ledger::Ledger;
use support_command_line::{AnalyseRequest, SliceRequest};
use support_io::Inputs;
use support_step_counter::Steps;
use text_slices::SliceCell;

/// The slice of a table: a machine's specification is read and examined, and the cell is sought in its states; then its code and an entry are read and
/// examined; then the table, which may be left open where the request says so, is read, checked and sliced.
pub fn slice_request<'a, I: Inputs, L: Ledger>(
    alloc: Global,
    inputs: &mut I,
    request: &SliceRequest<'a>,
    steps: &mut Steps<L>,
) -> Result<Answer, Halt<'a>>
    requires few { length request.now.check.analysis.code.parts.items ≤ 16 }
    ensures reads { ReadsOnly I.state (slice_inputs (slice_of request.now)) inputs.old inputs.new result }
    ensures gives { Gives (SliceSteps (Gave (I.state inputs.old) (I.state inputs.new)) (slice_of request.now))
        answer_of result }
    // At most one transfer for each address that the table lists, and two where it may be left open.
    ensures work { SliceWork (Gave (I.state inputs.old) (I.state inputs.new)) (slice_of request.now) steps.old steps.new }
{
    let asked = &request.check.analysis;
    let sought = slice_inputs_of(
        alloc,
        inputs,
        asked.spec,
        request.cell,
        &asked.code,
        asked.entry,
    )?;
    let table = read_input(alloc, inputs, request.check.table, TABLE_CAP)?;
    slice_over::<L>(alloc, &sought, asked, request.address, &table, steps)
}

/// What the slice of a table comes to for the instruction at an address, against the analysis that is asked for.
fn slice_over<'a, L: Ledger>(
    alloc: Global,
    sought: &SliceInputs,
    asked: &AnalyseRequest<'a>,
    at: u32,
    table: &[u8],
    steps: &mut Steps<L>,
) -> Result<Answer, Halt<'a>>
    requires posed { IsPosed (view sought.now).posed }
    requires short { length table.now ≤ table_cap }
    ensures gives { Gives (SliceOf (analyse_of asked.now) (view sought.now) at table.now) answer_of result }
    ensures work { CheckTakes (analyse_of asked.now) (view sought.now).posed table.now steps.old steps.new }
{
    let posed = &sought.posed;
    let Some(machine) = posed.spec.machine else {
        unreachable!()
    };
    let start = AnalysisStart {
        machine,
        entry: &posed.entry,
        limit: asked.limit,
        joins: asked.joins,
        cases: asked.cases,
    };
    let subject = Subject {
        spec: &posed.spec,
        image: &posed.image,
        task: slice_from(asked, start, table, at, sought.asked),
    };
    over_base::<L>(alloc, &subject, asked.base, steps)
}

/// The slice from a start, of a table that may be left open or not.
fn slice_from<'a, 'b>(
    asked: &AnalyseRequest<'b>,
    start: AnalysisStart<'a>,
    table: &'a [u8],
    at: u32,
    cell: SliceCell,
) -> DomainTask<'a>
    requires short { length table.now ≤ table_cap }
    ensures task { (spec : Spec) (image : Image) → task_of spec image result
        ≡ slice_task_in (analyse_of asked.now) (problem_at spec image start.entry) table.now at cell }
    ensures asked { (spec : Spec) → IsRead spec start.entry.machine (entry_of start.entry.entry.now) → IsAsked spec result }
{
    let criterion = SliceCriterion { at, cell };
    if asked.open {
        DomainTask::SliceOpen(start, table, criterion)
    } else {
        DomainTask::Slice(start, table, criterion)
    }
}
