//! Values over any base as text, both ways, as cases of evaluations write them.
//!
//! How a value is written goes by its type:
//!
//! - a flag is `true`, `false`, `true or false` or `neither`;
//! - a word is a set in hex, as the base has it, so that of intervals `{1,3}` is the one from 1 to 3; or it is `any`;
//! - a map is its rest and its listed cells, keys in decimal, with stamps where these are not the entry alone:
//!   `[{0}; 2 {5} from entry,1000]`;
//! - a constructor value is `Dot`, or `Box({2}, {3})`, with fields that are none; `Dot + Box({2}, {3})` where both are present.
//!
//! `value` makes a value by the calls of its base, so that it fits. `push_value` writes words as `text_words` does: an interval by its ends, a
//! word of a pair by its parts.
#![tactic(auto)]

mod maps;
mod text;
mod values;

pub use text::push_value;
pub use values::{pushed, value};
