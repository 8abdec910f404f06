//! Slices as text, and the cells that they are asked for.
//!
//! A slice is asked for the reads of a map at an address: at a key, `NAME[KEY]`, or at any, `NAME[*]`. Its text is a line that says what
//! was asked, a line `entry` where some cells come from the entry, and a line for each address from which cells come, ascending:
//!
//! ```text
//! slice 00001008 r[2]
//! entry
//! 00001000
//! 00001004
//! ```
#![tactic(auto)]

mod slice_cell;
mod writer;

pub use slice_cell::{SliceCell, asked_cell};
pub use writer::slice_text;
