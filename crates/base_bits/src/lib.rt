//! Known bits as a base (the abstract domain of LLVM's `KnownBits`, and of Regehr and Duongsaa, "Deriving
//! abstract transfer functions for analyzing embedded software", LCTES 2006).
//!
//! A word has the known bits `v` and the unknown bits `m`, which share none: it stands for each number
//! whose bits outside `m` are those of `v`. So `v` 4 `m` 3 is 4, 5, 6 or 7.
//!
//! *Sums.* A bit of a sum is known where both bits are and the carry into it is. The carry grows with the words, so it is known
//! where the least and the greatest sum have the same: where they differ in no bit. 0 to 3 and 4 add up to 4 at least and 7
//! at most, which differ in the lowest two bits: 4 to 7. A difference is the sum with the turned word and a carry into
//! bit 0.
//!
//! *Widening* is the join: each step that changes a word loses a known bit, and there are at most 64.
//!
//! The laws of `laws` say which results are the best: no word with fewer unknown bits stands for all results.
#![tactic(auto)]

mod add;
mod and;
mod base;
mod casts;
mod compare;
mod join;
mod known;
pub mod laws;
mod members;
mod not;
mod operations;
mod or;
mod range;
mod shifts;
mod sub;
mod xor;

pub use base::Bits;
pub use known::Known;
