//! The steps of an evaluation over abstract words: what each form of a term gives on the values of its parts.
//!
//! An evaluator gives the values of a node's operands to a step. A step looks at no node and calls no other: an operation on words, a
//! read or a write of a map, a constructor, or what a decision asks of a value. With sets as words, the step of `x + 1` at 8 bits gives `{2, 4}` on `{1, 3}`, and nothing on a flag.
//!
//! Each step gives what its definition in `abstract_semantics` says of the plain values (the view `abs`): where the values
//! are of other types, nothing. What fits goes in and what fits comes out: words are of their widths, and maps have
//! ascending keys.
#![tactic(auto)]

mod constructors;
mod items;
mod keys;
mod maps;
mod places;
mod words;

pub use constructors::{flag, looked_up, make_value, word};
pub use keys::keys_of;
pub use maps::{access_map, update_map};
pub use places::{abs_at, abs_named, cases_there, flag_of, flag_there, word_there};
pub use words::{binary, compare_words, resize_word, unary};
