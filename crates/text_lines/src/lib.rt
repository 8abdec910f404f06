//! Lines of a text, each of which ends with LF.
//!
//! `LinesOf` is a cursor over a text in memory: it takes no memory, and each line is a part of the text. Contracts see it as the list of
//! the lines that are left (specs/Lines), where an end of the text that lacks its LF is no line:
//!
//! ```text
//! at 00001000⏎next 00001004⏎      Some "at 00001000", Some "next 00001004"
//! at 00001000⏎next                Some "at 00001000", None
//! ```
//!
//! `next_line` and `count_lines` do the same over plain texts.
//!
//! `laws` has what is so of lines: a text of which each line ends with LF is that of its lines, and texts behind one another have the
//! lines of the one and then those of the other.
#![tactic(auto)]

pub mod laws;
mod lines;

pub use lines::{LinesOf, count_lines, next_line};
