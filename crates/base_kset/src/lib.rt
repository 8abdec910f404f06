//! Sets of at most K numbers as a base, with any beyond that (constant propagation where K is 1: Kildall,
//! POPL 1973; small sets: Balakrishnan and Reps, "Analyzing memory accesses in x86 executables", CC 2004).
//!
//! A word is `any` or a set that is not empty; contracts see it as the ascending list of its numbers, or none.
//! An operation gives the set of all results, in 8 bits `{1, 2} + {255}` is `{0, 1}`, and `any` where they are more
//! than K; `any` with anything is `any`. Every number of a short width in one set, as `{0, 1}` of one bit, is not
//! `any`: the two are different words. A set is widened to `any` by one number that it lacks.
//!
//! The laws of `laws` say that these results are the best, and comparisons exact.
#![tactic(auto)]

mod base;
mod changes;
pub mod laws;
mod operations;
mod reading;
mod set;

pub use base::KSet;
pub use set::Set;
