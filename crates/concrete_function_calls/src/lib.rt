//! Calls of functions by words: which function a name is, which arguments texts write, and what the call comes to.
//!
//! A function can be called where the types of its parameters and of its result are words or truth values. A word is written as 1 to
//! 16 hex digits, with a number of its width; a truth value as `true` or `false`. What the call comes to is the direct meaning of the
//! function (`semantics`), under a bound on turns.
//!
//! Proved: `call_by_words` answers just what `call_end` of specs/Calls says: the value, that the words are bad, or that the turns ran
//! out; and `value_line` writes a value as `value_line` there says. A law: what a call gives is a word of its width, or a truth
//! value.
#![tactic(auto)]

mod arguments;
mod calls;
pub mod laws;
mod lines;

pub use calls::{CallEnd, call_by_words};
pub use lines::value_line;
