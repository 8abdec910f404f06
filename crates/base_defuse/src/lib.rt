//! Definitions and uses as a base: which instructions may have put a cell that is read (reaching
//! definitions; Aho, Lam, Sethi and Ullman, "Compilers", section 9.2).
//!
//! A word is one number or any, as in small sets of at most one. The note of a cell is the set of stamps
//! that it may have: the entry's, or addresses of instructions. Two ways to a point meet by the union of
//! their stamps, so after a branch one of whose arms writes a cell at 1000, the cell has
//! `entry,1000`.
#![tactic(auto)]

mod base;
mod notes;
mod stamps;
mod union;

pub use base::DefUse;
pub use stamps::Stamps;
