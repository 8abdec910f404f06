//! Laws of the direct meaning: what all layers above it rely on. Nothing runs.
//!
//! - specs/Accepted: what holds of an accepted specification, as one record over its plain data. Its types are well formed; groups of
//!   functions have ranks; each body has the type of its result, leaves nothing open (specs/Total), and calls functions of its own group
//!   in tail position alone, and else those of lower groups; functions of one group give one type; a machine is one. That what the
//!   checker answers is accepted is a law of `semantics_accepted`.
//! - `bounds_settle`: a call that is not deep is the same, value and reads, at every greater bound on turns.
//! - `depths_settle`: of an accepted specification the bound of the meaning on how deep calls of other groups go is no bound.
//! - `meanings_have_types`: of an accepted specification no call is wrong, on arguments of the parameters' types. It is deep, or gives a
//!   value of the result's type, with reads of declared maps at their keys.
//! - `tails_are_the_meaning`: an activation as a list of turns (specs/Tails) is the direct meaning.
//! - `instructions_have_their_type`, `steps_keep_types`, `runs_keep_types`, `entry_states_have_their_type`: from a state that an entry
//!   describes on, each state of a run has its type, and no run ends for a wrong step.
//!
//! # Core terms
//!
//! What they mean, which types they have, and that they mean what typed terms mean.
//!
//! A core term has a decision in place of the patterns of each match (specs/CoreDirect): tests of the value at places, one after the
//! other, until a row is picked; its variables name what stands at places (specs/Places). Analyses evaluate core terms, since a test at a
//! place can be undecided, where a pattern as a whole can only be met or not.
//!
//! Of the arms `Pair(1, y) -> y` and `_ -> 0`, on a datatype with that constructor alone, the decision asks which constructor it is, and
//! then whether the word at field 0 of it is 1. If so it picks row 0, where `y` names what stands at field 1, else row 1. On `Pair(1, 7)`
//! that is 7, and on `Pair(2, 7)` it is 0.
//!
//! - specs/CoreTypes: the judgement of types. A decision tests places that are there.
//! - specs/CoreCalls: a call within a group of functions stands in tail position, and all others go to groups of lower rank.
//! - `cores_have_types`, `cores_call_in_order`: so it is in accepted specifications.
//! - `cores_mean_the_same`: a call on arguments of the parameters' types means by core terms what it means by typed terms, under each
//!   bound: value, reads and depth.
#![tactic(auto)]

pub mod laws;
