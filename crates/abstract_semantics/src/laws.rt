//! Laws of the reinterpretation, stated in specs/Laws.antt. Nothing runs.

ghost use Rattle.std.specs.Prelude.{IsTrue};
ghost use Rattle.abstract_semantics.specs.Laws.{CallsAreSettled, CallsAreSound, CallsAreTheMeaning, CallsKeepTypes, CallsListStamps, StoppedCallsExist, WidenedCallsExist, WidenedCallsSucceed};
ghost use Rattle.abstract_semantics.specs.CallLaws.{AnswersAreRight, AnswersAreTheOne};
ghost use Rattle.abstract_semantics.specs.GroupRanks.{RanksCount};

use base_trait::Base;

/// Over a base that joins, calls under `Widen` are sound at every bound on the turns of the direct meaning.
pub fn calls_are_sound<B: Base>()
    ensures { CallsAreSound B.algebra }
{}

/// Over a base that does not join, calls under `Stop` are the direct meaning.
pub fn calls_are_the_meaning<B: Base>()
    ensures { CallsAreTheMeaning B.algebra }
{}

/// Of an accepted specification, calls under `Stop` have a reinterpretation.
pub fn stopped_calls_exist<B: Base>()
    ensures { StoppedCallsExist B.algebra }
{}

/// Over a base that joins, calls under `Widen` have one: each activation ends.
pub fn widened_calls_exist<B: Base>()
    ensures { WidenedCallsExist B.algebra }
{}

/// And one alone.
pub fn calls_are_settled<B: Base>()
    ensures { CallsAreSettled B.algebra }
{}

/// Values of calls have the types of results, and fit.
pub fn calls_keep_types<B: Base>()
    ensures { CallsKeepTypes B.algebra }
{}

/// Under `Widen` no call is too deep.
pub fn widened_calls_succeed<B: Base>()
    ensures { WidenedCallsSucceed B.algebra }
{}

/// Values of calls list the stamps of arguments and that of the instruction alone.
pub fn calls_list_stamps<B: Base>()
    ensures { CallsListStamps B.algebra }
{}

/// Of an accepted specification, the answers of calls are its reinterpretation.
pub fn answers_are_right<B: Base>()
    ensures { AnswersAreRight B.algebra }
{}

/// And any reinterpretation gives these, on arguments of the parameters' types that fit.
pub fn answers_are_the_one<B: Base>()
    ensures { AnswersAreTheOne B.algebra }
{}

/// An accepted specification is accepted by the depths of its groups.
pub fn ranks_count()
    ensures { RanksCount }
{}
