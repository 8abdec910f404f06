//! The reinterpretation of a specification over any base: definitions and laws. Nothing runs.
//!
//! A core term on abstract values gives an abstract value, or none, with a log of the map cells that it may read (specs/Terms; Lim and Reps,
//! "TSL", TOPLAS 35(1), 2013). A condition that may be true and false evaluates both branches and joins them; a choice evaluates the arms of
//! all constructors that are present (specs/Choices); a key that may be several reads their join, and writes to each (specs/Keys, Steps). With sets
//! as words, `if x == 1 then 10 else 20` on `x` in `{1, 2}` gives `{10, 20}`, and on `x` in `{2, 3}` it gives `{20}`.
//!
//! *Calls* (specs/Calls). Functions of a group call each other in tail position. A turn evaluates the bodies of all functions of a group that
//! have arguments, and gives the join of their leaves and, per function, the join of the arguments of the calls of it; the turns of an
//! activation follow one another by the rule of `support_tail_fixpoint`. So the reinterpretation of calls is said by a relation: `calls` is right where
//! each call has the answer of an activation in which calls of other groups have their answers by `calls`.
//!
//! *Laws* (specs/Laws), each for any base that keeps its own laws:
//! - `stopped_calls_exist`, `widened_calls_exist`, `calls_are_settled`: there is one reinterpretation, and one alone;
//! - `calls_keep_types`, `widened_calls_succeed`, `calls_list_stamps`: values have the types of results and fit, no call is too deep
//!   under widening, and no stamp comes in but that of the instruction;
//! - `calls_are_sound`: under widening a call on arguments that describe concrete ones has a value that describes that of the direct
//!   meaning, *whatever bound on turns this has*, and its log covers the reads;
//! - `calls_are_the_meaning`: over a base that does not join, a call under a bound on turns is the direct meaning under that bound, value,
//!   reads and depth.
//!
//! One walk over terms shows both of the last two: an evaluation *meets* the direct meaning soundly, or exactly where each value is single
//! (proofs/Meeting, Stepping, Evaluating, Turning); they part at activations (proofs/Activating, ExactCalls).
//!
//! # The reinterpretation of calls as a function, level by level
//!
//! The relation says which `calls` are right. As a total function of plain data they are `answers` (specs/CallAnswers):
//! a call has the answer of an activation that is driven turn by turn (specs/Driven), and calls go level by level.
//!
//! *Turns.* An activation ends, since each turn lowers a number. Under `Stop 3` there are at most 3 turns. Under `Widen 1 2` the first turn is
//! followed by one on new arguments, two by joins, and from then on each widening lowers the rank of the arguments; where no rank is above 10,
//! (3 * 11) + 10 + 1 turns are enough.
//!
//! *Levels.* A call at level 0 has no value. Where f calls g and g calls none, g has its answer from level 1 on, and f from level 2 on.
//!
//! *Laws* (specs/CallLaws), each for any base that keeps its own laws and any accepted specification, under `Stop` and, over a base that
//! joins, under `Widen`:
//! - `answers_are_right`: `answers` is a reinterpretation of calls;
//! - `answers_are_the_one`: each reinterpretation gives the same on arguments.
//!
//! # Ranks of groups of functions, by the specification alone
//!
//! Of an accepted specification, calls leave a group of functions for groups of lower rank alone; which ranks these are is left open
//! (`semantics_laws`, specs/Accepted). What evaluates calls needs one rank, the same wherever the specification is. That is the *depth*
//! of a group: how many calls of other groups may be open at once below a call of it (specs/GroupRanks). Take functions `f`, which calls
//! `g` and `h`, `g`, which calls `h`, and `h`, which calls itself, each a group of its own: their depths are 2, 1 and 0.
//!
//! Depths are counted with as many steps as there are functions, so they are total. `ranks_count` says that an accepted
//! specification is accepted by them: calls leave a group for groups that are less deep, and no depth is more than the number of
//! functions.
#![tactic(auto)]

pub mod laws;
