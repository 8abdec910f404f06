//! Laws of the direct meaning, stated in specs/. Nothing runs.

ghost use Rattle.semantics_laws.specs.Bounds.{BoundsSettle};
ghost use Rattle.semantics_laws.specs.Depths.{DepthsSettle};
ghost use Rattle.semantics_laws.specs.KeptTypes.{EntryStatesHaveTheirType, InstructionsHaveTheirType, RunsKeepTypes, StepsKeepTypes};
ghost use Rattle.semantics_laws.specs.TailForm.{TailsAreTheMeaning};
ghost use Rattle.semantics_laws.specs.Typed.{MeaningsHaveTypes};
ghost use Rattle.semantics_laws.specs.Laws.{CoresCallInOrder, CoresHaveTypes, CoresMeanTheSame};

/// A call that is not deep is the same at every greater bound on turns.
pub fn bounds_settle()
    ensures { BoundsSettle }
{}

/// Of an accepted specification, a call is the same at all bounds on calls of other groups above the number of functions.
pub fn depths_settle()
    ensures { DepthsSettle }
{}

/// Of an accepted specification, the meaning of a call on arguments of the parameters' types is never wrong: it is deep, or
/// gives a value of the result's type with reads of declared maps.
pub fn meanings_have_types()
    ensures { MeaningsHaveTypes }
{}

/// Of an accepted specification, turns that end with a value or with a call within the group are the direct meaning.
pub fn tails_are_the_meaning()
    ensures { TailsAreTheMeaning }
{}

/// An instruction that a code word is has the type of instructions.
pub fn instructions_have_their_type()
    ensures { InstructionsHaveTheirType }
{}

/// A step of an accepted machine from a state that has its type is never wrong, and keeps the type.
pub fn steps_keep_types()
    ensures { StepsKeepTypes }
{}

/// So is a run of any number of steps.
pub fn runs_keep_types()
    ensures { RunsKeepTypes }
{}

/// A state that an entry describes has its type.
pub fn entry_states_have_their_type()
    ensures { EntryStatesHaveTheirType }
{}

/// Of an accepted specification, the core term of a function has the type of its result.
pub fn cores_have_types()
    ensures { CoresHaveTypes }
{}

/// Calls of the group stand in tail position; all others are of groups of lower rank.
pub fn cores_call_in_order()
    ensures { CoresCallInOrder }
{}

/// A call means by core terms what it means by typed terms.
pub fn cores_mean_the_same()
    ensures { CoresMeanTheSame }
{}
