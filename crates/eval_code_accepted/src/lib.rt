//! What is known of the code of accepted specifications. Nothing runs.
//!
//! Code names slots, and a variable that is not in scope has none; of an accepted specification that never happens.
//!
//! - `accepted_terms_are_in_scope`: in the core term of a function each variable is one of those that are in scope where it stands, and each
//!   row of a decision names as many variables as the arm that it picks takes;
//! - `accepted_code_is_valid`: so each node of its code reads slots that were written before it, on every way to it;
//! - `accepted_code_asks_within`: each call in which the body of a function ends is of a function that is there, of the same group.
#![tactic(auto)]

pub mod laws;
