//! Calls of functions on single numbers, by the evaluator: the direct meaning of a specification, computed.
//!
//! Over the base `Concrete` a word is one number and a note one stamp, so an abstract value that is single, with one truth value a flag
//! and one constructor, is a concrete value. `value_in` gives it: `{ None: missing, Some: [3] }` is `Some(3)`.
//!
//! Proved (specs/Laws): what stands for a concrete value is the same value, but for the cells that maps list; the abstract value of a
//! concrete one stands for it; and calls on what stands for concrete arguments answer what the direct meaning of the function gives
//! on these.
//!
//! `evaluate_call` calls a function on values that stand for concrete ones, and answers a value that stands for what the
//! direct meaning gives (`semantics` specs/Runs), or that an activation had no turn left. Of an accepted specification there is no other
//! outcome, so nothing else is answered but for want of memory. The reads of map cells are not handed out.
#![tactic(auto)]

mod arguments;
mod calls;
pub mod laws;
mod outcome;
mod values;

pub use arguments::standing;
pub use calls::evaluate_call;
pub use outcome::CallResult;
pub use values::value_in;
