//! The uses of an instruction, from the log of its reads.
//!
//! While an instruction is evaluated each read of a map is noted, in the order of reading: its map, its key or any, and the stamps
//! that the cell may have. A table shows the reads of one cell as one use, with the stamps of all of them, and the uses in the order
//! of the state's fields, those of any key before those of a key. So the reads of `R[4]` from the entry, `R[3]` from 4096 and `R[4]`
//! from 4100 are the uses `R[3]` from 4096 and `R[4]` from the entry and 4100.
//!
//! `merged_uses` gives what the definition of transfers gives (`analysis_transfer_laws`, specs/Uses), whose law says that merged uses are in
//! order and cover exactly what the reads cover. The last read is put into an empty list, and then each read before it: at the use of
//! its cell its stamps are added (`stamps`), and else it is a use of its own before the first one that comes later (`cells` has the
//! order, `merge` the list).
#![tactic(auto)]

mod cells;
mod merge;
mod stamps;

pub use cells::is_cell_before;
pub use merge::merged_uses;

#[cfg(test)]
mod tests;
