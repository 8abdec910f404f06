//! The steps of the check of terms: what is left of a production once its parts are checked.
//!
//! Each step has the contract of its production on parts without faults (`specs/Steps.antt`). The
//! recursion over terms stands in the crate above.
#![tactic(auto)]

mod calls;
mod matches;
mod parts;
mod productions;

pub use calls::{Callee, Maker, callee_of, count_of, maker_of};
pub use matches::finish_match;
pub use parts::{MapPart, body_part, map_part, operand_part, typed_part, word_part};
pub use productions::{finish_cast, finish_operation, finish_prefix};
