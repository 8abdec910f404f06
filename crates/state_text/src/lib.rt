//! Entries and states as text.
//!
//! An entry gives the program counter one number, and other cells one number, any, or a range, a cell a line:
//!
//! ```text
//! # an entry
//! pc 1000
//! r[1] 5
//! r[*] 0..ff
//! mem[00002000..] 0102030405
//! ```
//!
//! A state is printed in the same lines, so that the text of a state is an entry of which that state is the one state.
//! Proved: `read_entry` answers the entry of a text exactly where it has no fault, else the first fault with its line;
//! `one_state` the one state, or the first cell that may have more than one number; `state_text` and `stopped_text` the
//! bytes that specs/Writing.antt and specs/Stops.antt say; and the laws of src/laws.rt.
#![tactic(auto)]

mod cut;
mod entry_error;
mod fault;
mod fault_lines;
mod given_cells;
pub mod laws;
mod lines;
mod reader;
mod said;
mod says;
mod single_state;
mod stop;
mod values;
mod writer;

pub use cut::{begins_name, is_mark, is_word_byte};
pub use entry_error::EntryError;
pub use reader::read_entry;
pub use single_state::one_state;
pub use stop::{Stop, stopped_text};
pub use writer::state_text;
