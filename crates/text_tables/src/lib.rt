//! Tables of an analysis as text.
//!
//! A table is written after a head: the format, the base, the order of the bytes of a word, and a line for each segment of the code.
//! Then, for each address of a code word that the table lists, ascending, its block: the address, the element by its parts, a line for
//! each use, the next code addresses and the exits, the last two only where there are some.
//!
//! # An example
//!
//! The machine has a map `r` of four words; its code sets `r[1]` to 5 and adds `r[1]` to itself into `r[2]`:
//!
//! ```text
//! tsl-table 2
//! base defuse
//! order big
//! code 00001000 8
//! at 00001000
//! part defuse
//! r[*] {00000000} from entry
//! next 00001004
//! at 00001004
//! part defuse
//! r[*] {00000000} from entry
//! r[1] {00000005} from 00001000
//! use r[1] from 00001000
//! exit 00001008
//! ```
//!
//! Of a table that is left open (`fixpoint_open_tables`) a block that is has neither `next` nor `exit`, and a last line that says why:
//! `open WORD`, where the instruction's new counter may be too many addresses, with the word of it, or `undecodable WORD` (specs/Open).
//! Where no block is, it is the text of the table (`laws`).
//!
//! What the text of a table is, specs/Tables says, over the texts of its elements. It is a function of the table but where an element
//! has several texts, as those of affine relations have.
#![tactic(auto)]

mod blocks;
mod head;
pub mod laws;
mod left_open;
mod table;

pub use blocks::push_use;
pub use head::{push_order, push_segment};
pub use left_open::open_table_text;
pub use table::table_text;
