//! Claims of the states at an address, and what the elements of domains tell of them.
//!
//! A claim (`Claim`) is of the states that runs have at an address. It says that the number of a cell lies in a range, that it is not a certain
//! number, or that a number and multiples of cells add to 0, modulo 2^32; or it says that no run comes there. Elements of cells tell of single
//! cells, elements of affine relations of sums of tracked cells, and pairs of what either part does (`ClaimElement`). What they tell is what
//! `analysis_query_laws` defines.
//!
//! Over intervals, the element `x: 3..7` tells that x is in 0..7 and is not 8, and not that it is in 4..7. Over affine relations, the
//! element of the rows (1, 2, 5) and (0, 1, 1) over the cells a and b tells that b - a - 3 is 0: 5 - 2 - 3 is 0 over the first row, where
//! the constant counts once, and 1 - 1 over the second, where it does not.
//!
//! *What is proved.* Each call of `ClaimElement` gives what is told by definition. What is told is true of each state of which the element holds
//! (`truly`, a law of the trait). So where a table is true of every run, a yes is true of every state at the claim's address, in every run from a
//! state that the entry describes, under every bound on turns (`yes_is_true`).
#![tactic(auto)]

mod answering;
mod cells;
mod claim;
mod claim_elem;
mod instances;
pub mod laws;
mod pair_cells;
mod sums;

pub use answering::answer;
pub use claim::Claim;
pub use claim_elem::ClaimElement;
