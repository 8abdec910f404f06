//! Cases of a base as lines of text: `Add 8 fa..fb 3..4` is the sum of two intervals of 8 bits.
//!
//! A case is the name of a call, its width in bits, and what the call takes: words in the base's own notation, a
//! width, a number or a limit. Widths and limits are in decimal, other numbers in hex. `answer` says what the call
//! gives, so that a program that prints it for each line of its input tests a base by data.
//!
//! `Read` is what a text gives, if it is one of its kind. `word` and `note` make words and notes by the calls of their base: a
//! word is `any`, a range, `1..2`, or the join of numbers, `{1,2}`, and a note is the join of stamps, `entry,1000`.
//!
//! The generic code calls the base through the bound alone.
#![tactic(auto)]

mod calls;
mod names;
mod notation;
mod numbers;
mod read;
mod words;

pub use calls::{answer, parts};
pub use names::{cmp_named, op1_named, op2_named};
pub use notation::Notation;
pub use numbers::{is_word, number, width};
pub use read::{Read, Unread, both, given};
pub use words::{note, word};
