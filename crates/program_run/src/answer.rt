//! From the words to what a run comes to: the chain of its steps.

ghost use Rattle.std.specs.Prelude.{◌≡◌, ◌≢◌, ◌⊎◌, IfOk, IsTrue, None};
ghost use Rattle.support_io.specs.InputState.{InputsKept};
ghost use Rattle.concrete_function_calls.specs.Ends.{end_of};
ghost use Rattle.program_common.specs.declared.status.Status.TheVariants as Status;
ghost use Rattle.program_common.specs.Outcome.{status_of};
ghost use Rattle.program_common.specs.Outcomes.{Gives, answer_of, outcome_of};
ghost use Rattle.program_common.specs.Reading.{Gave, IsTakenFrom, ReadsOnly};
ghost use Rattle.program_common.specs.Sources.{source_inputs};
ghost use Rattle.program_run.specs.Owed.{ComesTo};
ghost use Rattle.program_run.specs.Steps.{answered, CallSteps};
ghost use Rattle.support_command_line.specs.Views.{call_of, texts};
ghost use Rattle.support_command_line.specs.Words.{asked};
ghost use Rattle.program_run.specs.Words.{capped_inputs};
ghost use Rattle.program_run.specs.Work.{RunWork};

use concrete_function_calls::{CallEnd, call_by_words, value_line};
use program_analyses::{
    analyse_request, check_request, claims_request, convert_request, slice_request, stress_request,
};
use program_common::{Answer, Halt, Outcome, Refusal, source_of, specification_of};
use program_machine::{emulate_request, list_request};
use spec_checker::SpecUse;
use std::alloc::{AllocError, Global};
use std::sync::ledger::Ledger;
use support_command_line::{CallRequest, Request, read_words};
use support_io::Inputs;
use support_step_counter::Steps;

/// What the words come to over these inputs.
pub fn outcome_of_words<'a, I: Inputs, L: Ledger>(
    alloc: Global,
    words: &'a [String],
    inputs: &mut I,
    steps: &mut Steps<L>,
) -> Result<Outcome<'a>, AllocError>
    ensures kept { InputsKept (I.state inputs.old) (I.state inputs.new) }
    ensures comes { IfOk result (λ outcome.
        ComesTo (texts words.now) (I.state inputs.old) (I.state inputs.new) (outcome_of outcome)) }
    ensures no_other_fault { IfOk result (λ outcome. status_of (outcome_of outcome) ≢ Status.ReadFault
        → (I.state inputs.new).faults ≡ (I.state inputs.old).faults) }
    ensures taken { IsTrue (I.state inputs.old).tells → (inputs.new ≡ inputs.old)
        ⊎ (IsTrue (I.state inputs.new).is_open
        → IsTakenFrom (capped_inputs (texts words.now)) (I.state inputs.old) (I.state inputs.new)) }
    ensures bad_words { asked (texts words.now) ≡ None → inputs.new ≡ inputs.old }
    ensures work { RunWork (Gave (I.state inputs.old) (I.state inputs.new)) (asked (texts words.now)) steps.old steps.new }
{
    match answer::<I, L>(alloc, words, inputs, steps) {
        Ok(answer) => Ok(Outcome::Answered(answer)),
        Err(Halt::Refused(refusal)) => Ok(Outcome::Refused(refusal)),
        Err(Halt::NoMemory) => Err(AllocError),
    }
}

/// The answer that the words ask for.
fn answer<'a, I: Inputs, L: Ledger>(
    alloc: Global,
    words: &'a [String],
    inputs: &mut I,
    steps: &mut Steps<L>,
) -> Result<Answer, Halt<'a>>
    ensures reads { ReadsOnly I.state (capped_inputs (texts words.now)) inputs.old inputs.new result }
    ensures gives { Gives (ComesTo (texts words.now) (I.state inputs.old) (I.state inputs.new))
        answer_of result }

    // Words that ask for nothing are refused before any input is opened.
    ensures bad_words { asked (texts words.now) ≡ None → inputs.new ≡ inputs.old }
    ensures work { RunWork (Gave (I.state inputs.old) (I.state inputs.new)) (asked (texts words.now)) steps.old steps.new }
{
    match read_words(alloc, words)? {
        Request::Call(request) => answer_call(alloc, inputs, &request),
        Request::Emulate(request) => emulate_request(alloc, inputs, &request),
        Request::Analyse(request) => analyse_request::<I, L>(alloc, inputs, &request, steps),
        Request::Check(request) => check_request::<I, L>(alloc, inputs, &request, steps),
        Request::Convert(request) => convert_request::<I, L>(alloc, inputs, &request, steps),
        Request::List(request) => list_request(alloc, inputs, &request),
        Request::Slice(request) => slice_request::<I, L>(alloc, inputs, &request, steps),
        Request::Claims(request) => claims_request::<I, L>(alloc, inputs, &request, steps),
        Request::Stress(request) => stress_request::<L>(alloc, request, steps),
    }
}

/// The line of the value of a function of a specification on arguments.
fn answer_call<'a, I: Inputs>(
    alloc: Global,
    inputs: &mut I,
    request: &CallRequest<'a>,
) -> Result<Answer, Halt<'a>>
    ensures reads { ReadsOnly I.state (source_inputs (call_of request.now).spec) inputs.old inputs.new result }
    ensures gives { Gives (CallSteps (Gave (I.state inputs.old) (I.state inputs.new)) (call_of request.now))
        answer_of result }
{
    let source = source_of(alloc, inputs, request.spec)?;
    let spec = specification_of(alloc, &source, SpecUse::Library)?;
    let end = call_by_words(alloc, &spec, request.fun, &request.numbers, request.calls)?;
    answer_of_end(alloc, end)
}

/// What is answered for the end of a call.
fn answer_of_end<'a>(alloc: Global, end: CallEnd) -> Result<Answer, Halt<'a>>
    ensures { Gives (λ outcome. outcome ≡ answered (end_of end)) answer_of result }
{
    match end {
        CallEnd::Value(value) => Ok(Answer::Text(value_line(alloc, &value)?.into_bytes())),
        CallEnd::BadWords => Err(Halt::Refused(Refusal::BadWords)),
        CallEnd::Spent => Err(Halt::Refused(Refusal::CallsSpent)),
    }
}
