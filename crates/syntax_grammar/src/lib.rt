//! The trees of specifications, and all that is defined of them: the grammar, its rules, and which tree or fault tokens have.
//!
//! `tree` has the types of the code's trees, each form with its span in bytes; `rules` says why a rule refuses. In specs/ stand:
//!
//! - Tree, View: trees as plain data, and which one a tree of the code is.
//! - Grammar: which tree tokens have, and the level of each. In the body `x + y * z` of a function these are 1, 2, 2, 3 and 3.
//! - Exact, Laws: the tree of a list of tokens, its first wrong token, its first that is too deep. Each list has just one of these.
//! - Nodes, Operators, Tokens: the node of each production with its span, precedences, classes of tokens.
//! - State, Parsing, Lists, PatternRules, TermRules, ItemRules: the spec parser, a definition for each function that parses.
//!
//! What is proved: `fault_line` writes the line of a fault, as `spec 31 P1` for `Syntax { at: 31 }` (specs/FaultLines), and `span_of` gives the
//! span of a term's node. That the
//! spec parser and the grammar agree is shown in `syntax_parser`. This crate stands on `syntax_lexer`, which has the tokens.
#![tactic(auto)]

ghost use Rattle.std.specs.Prelude.{◌≡◌, IfOk};
ghost use Rattle.std.specs.String.{string_bytes};
ghost use Rattle.syntax_grammar.specs.FaultLines.{fault_line};

pub mod rules;
mod spans;
pub mod tree;

pub use spans::span_of;
use std::alloc::{AllocError, Global};

/// Why tokens have no tree. `at` is a byte offset into the source.
#[derive(Clone, Copy, Debug, PartialEq, Eq)]
pub enum ParseError {
    /// P1: no specification goes on with the token that begins here, or the tokens end too early.
    Syntax { at: u32 },
    /// P2: the token that begins here stands in more than 256 levels.
    TooDeep { at: u32 },
    /// Memory ran out.
    NoMemory,
}

impl ParseError {
    /// The line that says which fault this is, with a line end: `spec AT CODE`. Want of memory has the
    /// empty one.
    pub fn fault_line(self, alloc: Global) -> Result<String, AllocError>
        ensures { IfOk result (λ text. string_bytes text ≡ fault_line self) }
    {
        match self {
            ParseError::Syntax { at } => format!(in alloc; "spec {at} P1\n"),
            ParseError::TooDeep { at } => format!(in alloc; "spec {at} P2\n"),
            ParseError::NoMemory => Ok(String::new(alloc)),
        }
    }
}
