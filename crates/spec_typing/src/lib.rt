//! Terms: the definitions of their first fault, their types, the typed terms and the core terms; and
//! the steps of a check that look at one term alone.
//!
//! `specs/Terms.antt` has three functions on the tree, with one line for each production: the type of
//! a term (`type_of`), its first fault (`fault_in`) and its typed term (`term_of`); `specs/Cores.antt`
//! has its core term (`core_in`). Faults come parts first, from left to right, and then the term's own;
//! a wrong count of arguments comes before the arguments. A match is refused after its arms, with the
//! example that no arm takes, or with the number of an arm that is never taken.
//!
//! Lemmas on these definitions (`proofs/Types.antt`, `proofs/Rows.antt`) say that a term without a
//! fault has a type of the environment, and that the arms of a match without one suit it. The crate
//! above checks terms with them.
#![tactic(auto)]

mod leaves;
mod matches;
mod parts;
mod scopes;

pub use leaves::{Operand, Typed, a_literal, a_variable};
pub use matches::decision;
pub use parts::{cast_fault, map_number, word_width};
pub use scopes::{enter, enter_pattern};
