//! The calls of an affine analysis on its elements, over `Rows` of `support_modular_rows`; what they mean is in `domain_affine_element_laws`.
//!
//! `k` is the number of tracked cells, at most 64. An element is a submodule of the vectors of k + 1 numbers: contracts
//! see the rows that generate it, and say by `SameMembers` what an answer generates, since which rows it has is free.
//!
//! *An instruction in numbers.* Of four registers r0 and r1 may be any number at the entry, and r2 and r3 are 0:
//! `entry_cells` of the words any, any, 0, 0 gives (1, 0, 0, 0, 0), (0, 1, 0, 0, 0) and (0, 0, 1, 0, 0). There
//! `open_cell` gives r0 and r1 as the forms r0 and r1, and r2 and r3 as the constant 0. An instruction that puts the
//! sum of r0 and r1 into r2 gives the words r0, r1, r0 + r1 and 0, and `close_cells` of these gives (1, 0, 0, 0, 0),
//! (0, 1, 0, 1, 0) and (0, 0, 1, 1, 0): each member has r2 = r0 + r1.
//!
//! `join` gives the least element that holds both sides, `absorbs` is exact, and `rank` is the rank of the members. So
//! each call gives the value that `submodules`, `opened_cell`, `closed_of` and `entry_of` define, and the laws of
//! `domain_affine_element_laws` hold of what runs.
#![tactic(auto)]

mod closed;
mod joins;
mod opened;
mod order;

pub use closed::{close_cells, entry_cells};
pub use joins::{copy, join};
pub use opened::open_cell;
pub use order::{absorbs, rank};
