//! Laws of what the checker answers: it decides each tree, and a specification without faults is accepted. Nothing runs.
//!
//! # Terms without faults have their types
//!
//! A specification is accepted where no fault stands, and faults are found by a function over the
//! tree. The layers above want another thing: that each term has a type, by a judgement that knows
//! nothing of faults. `HasType` (of spec_ir) is that judgement, and the laws here tie both:
//!
//! - `terms_are_typed`: a term without a fault has a type of the environment, and its typed term has
//!   that type by the judgement. The parts of an operator, the arguments of a call, the arms of a
//!   match and the variables of its patterns have theirs.
//! - `wanted_types_are_had`: where a type is wanted of a term, as of the body of a function, a term
//!   without a fault has it.
//! - `cores_are_those`: the core term that is found along the tree, in which each match is its
//!   decision, is that of the typed term.
//! - `groups_have_one_result`: functions that call each other in tail position give one type, since
//!   a call in tail position has the type of the whole body.
//!
//! The ranks of calls, and that calls within a group stand in tail position, are laws of
//! `spec_calls`; that no datatype contains itself stands in `IsWellFormed`, a premise here.
//!
//! # A tree has a first fault or none, and one specification
//!
//! `spec_checker` says what the first fault of a tree is, by relations: that a datatype contains itself is a path of fields, and
//! that a call stays in its group is a path of calls. Here it is shown that these are decided for every tree, which is what a
//! layer above needs where it says that each run has an answer (specs/CheckerLaws).
//!
//! # Checked specifications are accepted
//!
//! The checker answers by faults that it finds over a tree; the meaning relies on `IsAccepted` (of semantics_laws), a record over plain
//! data that knows nothing of trees and faults. `checked_are_accepted` says that the specification of a tree that was parsed and has no
//! fault is accepted. With it every law of semantics_laws holds of what `check` answers: no call is wrong, and runs keep types.
//!
//! The proof takes from the first laws that terms without faults have their types and that a group has one type of results, from spec_match_compiler
//! that a match with a decision takes each value of its shape, from spec_calls and support_reachability that calls of other groups go down by a
//! rank, and from spec_declarations that types are well formed and that states have one constructor. What is added here: a term without a
//! fault has one type alone; constructors that it makes are there; map types have keys, widths and defaults; decode rows give
//! instructions; and the names `Instr` and `State` mean the datatypes of these names.
#![tactic(auto)]

mod checker_laws;
pub mod laws;
mod spec_laws;

pub use checker_laws::{specifications_are_one, specifications_are_there, trees_are_decided};
pub use spec_laws::{
    cores_are_those, groups_have_one_result, terms_are_typed, wanted_types_are_had,
};
