//! The code of a specification.
//!
//! `lower` makes the code of a checked specification, in one pass over each core term. `IsCodeOf` of `eval_code` says exactly which code that
//! is, and users rest on nothing else.
#![tactic(auto)]

mod decisions;
mod lowering;
mod named;
mod tails;
mod writer;

pub use tails::lower;
