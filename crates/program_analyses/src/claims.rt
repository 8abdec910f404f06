//! The command `claims`.

ghost use Rattle.std.specs.Prelude.{◌≡◌, ◌<◌, ◌≤◌, ◌^◌, IsSome, length};
ghost use Rattle.program_common.specs.Outcomes.{Gives, answer_of};
ghost use Rattle.program_common.specs.Reading.{Gave, ReadsOnly};
ghost use Rattle.support_command_line.specs.Views.{analyse_of, claims_of};
ghost use Rattle.program_machine.specs.Inputs.{claims_cap, table_cap};
ghost use Rattle.program_machine.specs.Views.{analysis_inputs_of as view};
ghost use Rattle.code_image.specs.Image.{Image};
ghost use Rattle.spec_ir.specs.Specification.{Spec};
ghost use Rattle.program_domain_tasks.specs.Read.{IsAsked, IsRead, problem_at, task_of};
ghost use Rattle.state_text.specs.Reading.{entry_of};
ghost use Rattle.program_analyses.specs.Problems.{claims_task_in};
ghost use Rattle.program_analyses.specs.Read.{IsPosed};
ghost use Rattle.program_analyses.specs.Steps.{ClaimsOf, ClaimsSteps, claims_inputs};
ghost use Rattle.program_analyses.specs.Work.{CheckTakes, ClaimsWork};

use program_base_tasks::over_base;
use program_common::{Answer, Halt, read_input};
use program_domain_tasks::{AnalysisStart, DomainTask, Subject};
use program_machine::{AnalysisInputs, CLAIMS_CAP, TABLE_CAP, analysis_inputs_of};
use std::alloc::Global;
use std::sync::ledger::Ledger;
use support_command_line::{AnalyseRequest, ClaimsRequest};
use support_io::Inputs;
use support_step_counter::Steps;

/// The answers to claims: a machine's specification, its code and an entry are read and examined, then the table and the claims are read, and the
/// claims are answered by the table, which may be left open where the request says so.
pub fn claims_request<'a, I: Inputs, L: Ledger>(
    alloc: Global,
    inputs: &mut I,
    request: &ClaimsRequest<'a>,
    steps: &mut Steps<L>,
) -> Result<Answer, Halt<'a>>
    requires few { length request.now.check.analysis.code.parts.items ≤ 16 }
    ensures reads { ReadsOnly I.state (claims_inputs (claims_of request.now)) inputs.old inputs.new result }
    ensures gives { Gives (ClaimsSteps (Gave (I.state inputs.old) (I.state inputs.new)) (claims_of request.now))
        answer_of result }
    // At most one transfer for each address that the table lists, and two where it may be left open.
    ensures work { ClaimsWork (Gave (I.state inputs.old) (I.state inputs.new)) (claims_of request.now) steps.old steps.new }
{
    let asked = &request.check.analysis;
    let posed = analysis_inputs_of(alloc, inputs, asked.spec, &asked.code, asked.entry)?;
    let table = read_input(alloc, inputs, request.check.table, TABLE_CAP)?;
    let claims = read_input(alloc, inputs, request.claims, CLAIMS_CAP)?;
    answers_of::<L>(alloc, &posed, asked, &table, &claims, steps)
}

/// What claims on a table come to, against the analysis that is asked for.
fn answers_of<'a, L: Ledger>(
    alloc: Global,
    posed: &AnalysisInputs,
    asked: &AnalyseRequest<'a>,
    table: &[u8],
    claims: &[u8],
    steps: &mut Steps<L>,
) -> Result<Answer, Halt<'a>>
    requires posed { IsPosed (view posed.now) }
    requires short_table { length table.now ≤ table_cap }
    requires short_claims { length claims.now ≤ claims_cap }
    ensures gives { Gives (ClaimsOf (analyse_of asked.now) (view posed.now) table.now claims.now) answer_of result }
    ensures work { CheckTakes (analyse_of asked.now) (view posed.now) table.now steps.old steps.new }
{
    let Some(machine) = posed.spec.machine else {
        unreachable!()
    };
    let start = AnalysisStart {
        machine,
        entry: &posed.entry,
        limit: asked.limit,
        joins: asked.joins,
        cases: asked.cases,
    };
    let subject = Subject {
        spec: &posed.spec,
        image: &posed.image,
        task: claims_from(asked, start, table, claims),
    };
    over_base::<L>(alloc, &subject, asked.base, steps)
}

/// The claims from a start, on a table that may be left open or not.
fn claims_from<'a, 'b>(
    asked: &AnalyseRequest<'b>,
    start: AnalysisStart<'a>,
    table: &'a [u8],
    claims: &'a [u8],
) -> DomainTask<'a>
    requires short_table { length table.now ≤ table_cap }
    requires short_claims { length claims.now ≤ claims_cap }
    ensures task { (spec : Spec) (image : Image) → task_of spec image result
        ≡ claims_task_in (analyse_of asked.now) (problem_at spec image start.entry) table.now claims.now }
    ensures asked { (spec : Spec) → IsRead spec start.entry.machine (entry_of start.entry.entry.now) → IsAsked spec result }
{
    if asked.open {
        DomainTask::ClaimsOpen(start, table, claims)
    } else {
        DomainTask::Claims(start, table, claims)
    }
}
