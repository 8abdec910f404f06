//! Cells of states as text: fields by their names, keys, and numbers in digits, read and written.
//!
//! Texts of entries and states, and of tables, name cells alike: `NAME` is a word field, `NAME[KEY]` the cell of a map
//! at a key, `NAME[*]` every other cell of a map. A key of at most 8 bits is in decimal, a wider one in hex digits, and
//! one of an enumeration is its constructor's name.
#![tactic(auto)]

mod digits;
mod keys;
mod places;
mod writer;

pub use digits::{decimal_number, fits, hex_number};
pub use keys::{has_keys, key_number};
pub use places::{Place, place_of, same, state_fields};
pub use writer::{push_cell, push_hex, push_key};
