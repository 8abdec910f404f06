//! From the bytes of a specification to its tokens.
//!
//! `lex` cuts a source of at most 262,144 bytes into tokens with their places, and passes over blanks and comments. At each place
//! the longest lexeme is taken: a run of letters, digits and `_`, or a mark. In `let x1=0x10:32in` the run `32in` is one lexeme
//! and no number, so the answer is the fault `BadNumber { at: 12 }`. `x1=0x10:32 in` has the tokens `x1`, `=`, `0x10`, `:`, `32`
//! and `in`.
//!
//! What is proved: `lex` answers the tokens of the source (`ok`) or its first fault (`fault`). As far as memory lasts it answers
//! what the source has (`complete`, `refused`). Both are relations of specs/Source and Lexeme, of which the functions' contracts
//! speak. Laws: a source has one list of tokens or one first fault, and not both. The bytes at the place of a token spell it, and
//! no token begins before an earlier one ends. `fault_line` writes the line of a fault, as `spec 12 L3`.
//!
//! It stands on no other crate of the program.
#![tactic(auto)]

mod classes;
mod keywords;
pub mod laws;
mod lex_error;
mod marks;
mod numbers;
mod scan;
mod separators;
mod text;
mod token;
mod words;

pub use lex_error::LexError;
pub use scan::lex;
pub use text::Text;
pub use token::{Keyword, Kind, Mark, Token};
