//! The command `analyse`.

ghost use Rattle.std.specs.Prelude.{◌≡◌, ◌<◌, ◌≤◌, ◌^◌, IsSome, length};
ghost use Rattle.program_common.specs.Outcomes.{Gives, answer_of};
ghost use Rattle.program_common.specs.Reading.{Gave, ReadsOnly};
ghost use Rattle.support_command_line.specs.Views.{analyse_of};
ghost use Rattle.program_machine.specs.Views.{analysis_inputs_of as view};
ghost use Rattle.code_image.specs.Image.{Image};
ghost use Rattle.spec_ir.specs.Specification.{Spec};
ghost use Rattle.program_domain_tasks.specs.Read.{IsAsked, IsRead, problem_at, task_of};
ghost use Rattle.state_text.specs.Reading.{entry_of};
ghost use Rattle.program_analyses.specs.Problems.{task_in};
ghost use Rattle.program_analyses.specs.Read.{IsPosed};
ghost use Rattle.program_analyses.specs.Steps.{AnalyseSteps, AnalysisOf, analyse_inputs};
ghost use Rattle.program_analyses.specs.Work.{AnalyseWork, AnalysisTakes};

use program_base_tasks::over_base;
use program_common::{Answer, Halt};
use program_domain_tasks::{AnalysisStart, DomainTask, Subject};
use program_machine::{AnalysisInputs, analysis_inputs_of};
use std::alloc::Global;
use std::sync::ledger::Ledger;
use support_command_line::AnalyseRequest;
use support_io::Inputs;
use support_step_counter::Steps;

/// The text of the table of a machine's analysis: its specification, its code and an entry are read and examined, and the
/// code is analysed, where the request says so left open at what has no decoding or too many targets.
pub fn analyse_request<'a, I: Inputs, L: Ledger>(
    alloc: Global,
    inputs: &mut I,
    request: &AnalyseRequest<'a>,
    steps: &mut Steps<L>,
) -> Result<Answer, Halt<'a>>
    requires few { length request.now.code.parts.items ≤ 16 }
    ensures reads { ReadsOnly I.state (analyse_inputs (analyse_of request.now)) inputs.old inputs.new result }
    ensures gives { Gives (AnalyseSteps (Gave (I.state inputs.old) (I.state inputs.new)) (analyse_of request.now))
        answer_of result }
    // At most N(H + J + 1) transfers, of N code words and elements of the height H of which J changes join; left open, N more.
    ensures work { AnalyseWork (Gave (I.state inputs.old) (I.state inputs.new)) (analyse_of request.now) steps.old steps.new }
{
    let posed = analysis_inputs_of(alloc, inputs, request.spec, &request.code, request.entry)?;
    analysis_of::<L>(alloc, &posed, request, steps)
}

/// What the analysis that is asked for comes to.
fn analysis_of<'a, L: Ledger>(
    alloc: Global,
    posed: &AnalysisInputs,
    request: &AnalyseRequest<'a>,
    steps: &mut Steps<L>,
) -> Result<Answer, Halt<'a>>
    requires { IsPosed (view posed.now) }
    ensures gives { Gives (AnalysisOf (analyse_of request.now) (view posed.now)) answer_of result }
    ensures work { AnalysisTakes (analyse_of request.now) (view posed.now) steps.old steps.new }
{
    let Some(machine) = posed.spec.machine else {
        unreachable!()
    };
    let start = AnalysisStart {
        machine,
        entry: &posed.entry,
        limit: request.limit,
        joins: request.joins,
        cases: request.cases,
    };
    let subject = Subject {
        spec: &posed.spec,
        image: &posed.image,
        task: analysis_from(request, start),
    };
    over_base::<L>(alloc, &subject, request.base, steps)
}

/// The analysis from a start, left open or not.
fn analysis_from<'a, 'b>(request: &AnalyseRequest<'b>, start: AnalysisStart<'a>) -> DomainTask<'a>
    ensures task { (spec : Spec) (image : Image) → task_of spec image result ≡ task_in (analyse_of request.now) (problem_at spec image start.entry) }
    ensures asked { (spec : Spec) → IsRead spec start.entry.machine (entry_of start.entry.entry.now) → IsAsked spec result }
{
    if request.open {
        DomainTask::AnalyseOpen(start)
    } else {
        DomainTask::Analyse(start)
    }
}
