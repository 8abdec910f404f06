//! Words and notes of the bases as text, written and read back.
//!
//! A number has a hex digit for each 4 bits of its width, rounded up. Words are written so:
//!
//! | word | text |
//! |---|---|
//! | `any`, an interval of all numbers, bits that are all unknown | `any` |
//! | a set | `{01,02}`, ascending; so is the set of all numbers |
//! | an interval | its ends, `01..02` |
//! | known bits | those that are 1, and the unknown ones: `04/03` is one of 4, 5, 6 and 7 |
//! | a strided interval | its ends and its step, `00..40+04`: 0, 4, 8, .., 64; as an interval where the step is 1 |
//! | an affine constant | `00000005` |
//! | an affine form | its numbers, the constant first: `00000001,00000000,00000002` is 1 more than twice the second tracked cell |
//! | a word of a pair | both parts, `{05} 00..07` |
//!
//! A note of stamps stands behind the word of its cell, ` from entry,00001000`; one that tells nothing is nothing.
//!
//! What each text is, specs/Words and specs/Notes say; `BaseText` has a base's as functions, and each call appends them.
//!
//! *Reading.* Words and notes of bases of cells are read back, which specs/Reading defines and `CellBase` does. Each has one
//! text, so what is read is what was written: digits are in lower case, the numbers of a set and stamps ascend, and `00..ff`
//! of 8 bits is no interval, since that is `any`. An address of a stamp is one of a code word. The law `tell` of `CellBase`
//! says all this, and specs/Readings states it.
#![tactic(auto)]

mod addresses;
mod base;
mod cells;
pub mod laws;
mod notes;
mod numbers;
mod pieces;
mod reading;
mod sets;
mod stamps;
mod strided;
mod words;

pub use addresses::addresses_in;
pub use base::{BaseText, push_noted};
pub use cells::CellBase;
pub use notes::push_stamps;
pub use numbers::{number_in, text_behind};
pub use stamps::stamps_in;
pub use words::{push_number, push_spaced};
