//! Code that is made from a number: the large input of `stress`, and the lines that tell of it.
//!
//! Its words are picked by a linear congruential generator that begins with the number: additions, moves, masks, multiplications, stores,
//! loads and forward branches over random registers; the last word is a return. It stands at `CODE_BASE`, is analysed from `ENTRY`, and
//! runs from `START`, which is that entry with 0 in place of any.
#![tactic(auto)]

mod entry;
mod generator;
mod instruction;
mod summary;
mod words;

pub use entry::{CODE_BASE, entry_text, start_text};
pub use summary::{measure_text, summary_text};
pub use words::code_bytes;
