//! The chain of `stress`.

ghost use Rattle.std.specs.Prelude.{◌≡◌, ◌<◌, ◌^◌, IfOk, IsSome, Ok, length};
ghost use Rattle.support_command_line.specs.Views.{stress_of};
ghost use Rattle.spec_ir.specs.Views.{specification};
ghost use Rattle.domain_laws.specs.States.{state_type};
ghost use Rattle.program_domain_tasks.specs.Read.{IsRead, IsTextOf};
ghost use Rattle.concrete_emulator.specs.Ends.{IsStateOf};
ghost use Rattle.semantics_laws.specs.Accepted.{IsAccepted};
ghost use Rattle.program_common.specs.Outcomes.{Gives, answer_of};
ghost use Rattle.state_text.specs.Reading.{entry_of};
ghost use Rattle.semantics_values.specs.Views.{state};
ghost use Rattle.program_machine.specs.AnalysisEntry.{IsEntry};
ghost use Rattle.program_machine.specs.Views.{analysis_inputs_of as view};
ghost use Rattle.program_analyses.specs.StressSteps.{MeasureOf, StressSteps, SummaryOf};
ghost use Rattle.program_analyses.specs.StressWork.{MeasureTakes, StressWork};

use crate::inputs::{stress_inputs, stress_start};
use crate::summary::stopped_summary;
use code_image::Decoder;
use concrete_emulator::emulate;
use program_base_tasks::over_base;
use program_common::{Answer, Halt};
use program_domain_tasks::{AnalysisStart, DomainTask, Subject};
use program_machine::AnalysisInputs;
use semantics_values::State;
use std::alloc::{AllocError, Global};
use std::sync::ledger::Ledger;
use support_command_line::{
    BaseName, DEFAULT_CALLS, DEFAULT_CASES, DEFAULT_JOINS, DEFAULT_LIMIT, StressRequest,
};
use support_step_counter::Steps;

/// The summary of a stress: code is made from a number, analysed over a base, its table is checked, and it runs.
pub fn stress_request<'a, L: Ledger>(
    alloc: Global,
    request: StressRequest,
    steps: &mut Steps<L>,
) -> Result<Answer, Halt<'a>>
    ensures gives { Gives (StressSteps (stress_of request)) answer_of result }
    // At most N(H + 4) + N transfers, of N code words and elements of the height H.
    ensures work { StressWork (stress_of request) steps.old steps.new }
{
    let posed = stress_inputs(alloc, request)?;
    let start = stress_start(alloc, &posed.spec)?;
    let measured = measure_inputs::<L>(alloc, &posed, request.base, steps)?;
    Ok(summarise(alloc, &posed, start, request.count, measured)?)
}

/// What is measured of the analysis of what was made.
fn measure_inputs<'a, L: Ledger>(
    alloc: Global,
    posed: &AnalysisInputs,
    base: BaseName,
    steps: &mut Steps<L>,
) -> Result<Answer, Halt<'a>>
    requires accepted { IsAccepted (specification posed.now.spec) }
    requires machine { IsSome (specification posed.now.spec).machine }
    requires few { length (state_type (specification posed.now.spec)).fields < 2 ^ 32 }
    requires entry { IsEntry (specification posed.now.spec) (entry_of posed.now.entry) }
    ensures gives { Gives (MeasureOf base (view posed.now)) answer_of result }
    ensures work { MeasureTakes base (view posed.now) steps.old steps.new }
{
    let Some(machine) = posed.spec.machine else {
        unreachable!()
    };
    let start = AnalysisStart {
        machine,
        entry: &posed.entry,
        limit: DEFAULT_LIMIT,
        joins: DEFAULT_JOINS,
        cases: DEFAULT_CASES,
    };
    let subject = Subject {
        spec: &posed.spec,
        image: &posed.image,
        task: DomainTask::Measure(start),
    };
    over_base::<L>(alloc, &subject, base, steps)
}

/// The summary, behind what was measured: the code of so many words runs from a state.
fn summarise(
    alloc: Global,
    posed: &AnalysisInputs,
    start: State,
    count: u32,
    measured: Answer,
) -> Result<Answer, AllocError>
    requires accepted { IsAccepted (specification posed.now.spec) }
    requires machine { IsSome (specification posed.now.spec).machine }
    requires typed { IsStateOf (specification posed.now.spec) (state start) }
    requires lines { IsTextOf (λ lines. Unit {0}) (answer_of measured) }
    ensures { IfOk result (λ answer. SummaryOf count (view posed.now) (state start) (answer_of measured) (Ok (answer_of answer))) }
{
    let Answer::Text(lines) = measured else {
        unreachable!()
    };
    let decoder = Decoder::new(alloc, &posed.spec)?;
    let bound = u64::from(count) + 1;
    let end = emulate(
        alloc,
        &posed.spec,
        &decoder,
        &posed.image,
        start,
        bound,
        DEFAULT_CALLS,
    )?;
    Ok(Answer::Text(stopped_summary(alloc, count, &lines, end.done, end.stop)?))
}
