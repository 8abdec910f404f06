//! Claims as text, and their answers.
//!
//! A text of claims has one a line:
//!
//! ```text
//! # what is to hold
//! 00001004 gpr[3] in 0..24
//! 00001004 gpr[3] != 25
//! 00001008 eq 1*gpr[4] ffffffff*gpr[3] fffffffc
//! 0000100c never
//! ```
//!
//! Each begins with an address. At it, the number of a cell lies in a range, ends included; it is not a certain number; numbers and multiples of
//! cells add to 0, modulo 2^32; or no run comes there. All numbers are in hex, one space stands between words, and lines end as in an
//! entry. Lines that are empty or begin with `#` say nothing.
//!
//! `read_claims` answers the claims of a text, or the first faulty line: it is no claim by its form; it names an address or a cell that is
//! not there; or elements tell of no such claim. Proved: the answer is exactly this (specs/Reading), and a claim that is read is one of
//! which `answer` may be asked. `answers_text` has `yes` or `open` for each claim, as `answer` gives it.
#![tactic(auto)]

mod answers;
mod kinds;
mod lines;
mod numbers;
mod reader;
mod says;
mod sums;

pub use answers::answers_text;
pub use reader::read_claims;
