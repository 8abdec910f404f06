//! A cursor over the tokens of a specification, the nodes of its terms, and its patterns: each function answers exactly what its
//! rule gives.
//!
//! - `reader`: `Reader` borrows the tokens that are left, and has the level of the innermost term or pattern that is open.
//!   `expect` takes a mark that must come, and `eat` one that may. A refusal leaves the cursor at the token that is refused.
//! - `make`: terms made from their parts, each with its span from its first byte to just after its last.
//! - `pattern`: patterns, by recursive descent. From the tokens of `Add(x, 0:5) => x` it answers the constructor `Add` with two
//!   parts, and the cursor stands at the `=>`.
//!
//! What is proved: unless memory runs out, an answer and the cursor after it are those of the rule in specs/ of `syntax_grammar`
//! (`Gives`, `GivesBy`). Contracts see a cursor as a state of that parser. It stands on `syntax_grammar` and `syntax_lexer`.
//!
//! The comment of a function that reads tells its production, in the notation of docs/LANGUAGE.md.
#![tactic(auto)]

/// What was read. Where it could not be read, the parts that are held are let go by name, each in one step of the
/// proof, and the function ends with the fault.
#[macro_export]
macro_rules! or_drop {
    ($next:expr, $($held:ident),+) => {
        match $next {
            Ok(found) => found,
            Err(fault) => {
                $(drop($held);)+
                return Err(fault);
            }
        }
    };
}

pub mod make;
pub mod pattern;
pub mod reader;
