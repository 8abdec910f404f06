//! From the tokens of a specification to its tree, exact in both directions.
//!
//! `parse` answers the tree that the grammar gives the tokens. Else it answers the place of the first token that is wrong, or that
//! stands in more than 256 levels. In `fun f(x: INT32) -> INT32 = x + ;` the tokens before the `;` begin a specification. With the
//! `;` none goes on, so the answer is `Syntax { at: 31 }`.
//!
//! What is proved: what `parse` answers is so (`answer`), and what is so it answers, as far as memory lasts (`only`, `syntax`,
//! `deep`). Laws: a list of tokens has at most one tree, one wrong token and one that is too deep. It has just one of the three.
//!
//! *Three layers.*
//!
//! 1. The relation, which a reader audits. specs/Grammar of `syntax_grammar` has one case for each production, with its tree and the
//!    level of each token. From it specs/Exact defines the tree of tokens (`HasTree`) and the first token that is wrong
//!    (`IsSyntaxAt`) or too deep (`IsDeepAt`).
//! 2. The spec parser: a definition for each function of the code. It goes from a state, which is the tokens left and a level, to
//!    an outcome and the state after it. specs/Parsing, Lists, PatternRules, TermRules and ItemRules of `syntax_grammar` have it.
//! 3. The code, on a cursor: patterns in `syntax_cursor`, terms in `syntax_terms`, declarations and decode sections here. The comment of
//!    a function tells its production, in the notation of docs/LANGUAGE.md.
//!
//! *The code is the spec parser.* Each function's contract names its definition (`Gives`, `GivesBy`). The answer, seen as plain
//! data, and the cursor after it are those of the definition, unless memory ran out. A loop counts its turns up where the
//! definition recurses on the turns that are left. Turns, in proofs/ of `syntax_cursor`, joins them: each turn leaves one less, and
//! the last none. And one more item in the code's list is one more item in the plain list.
//!
//! *The spec parser is the relation.* Four modules of proofs/ say what holds of a parser, and how it goes from parts to the whole.
//! Others, as TermsFound, TermsAgain and RulesLocal, show it of each rule:
//!
//! - Found: where a parser answers, the tokens that it took have that answer by the grammar, and none is too deep. Where it
//!   refuses, they begin tokens that have one; where the refused token is too deep, they do so with it.
//! - Again: tokens that have a tree are read as that tree, whatever follows them that the rule allows. Where one is too deep, the
//!   first such token is refused.
//! - Cut: `cut` is an outcome, or the refusal of the first of some tokens that is too deep. It agrees with one parser after
//!   another and with tokens put together, so Again follows for a rule from its parts.
//! - Local: a parser looks at no token behind the one at which it stops. More tokens at the end change nothing, unless it had read
//!   all of them.
//!
//! Exact and Syntax put them together. That an answered tree is one of the tokens is Found; that their tree is answered is Again.
//! A refused token is wrong by Local and Again. Any tokens that begin alike, up to this one, are refused at it, but tokens with a
//! tree are read. Unique and Total have the laws.
#![tactic(auto)]

ghost use Rattle.std.specs.Prelude.{ℕ};
ghost use Rattle.syntax_grammar.specs.Exact.{Answers, HasTree, IsDeepAt, IsOnly, IsRefusal, IsSyntaxAt};
ghost use Rattle.syntax_grammar.specs.Tree as plain;

mod decode;
mod items;
pub mod laws;

use crate::items::declarations;
use std::alloc::Global;
use syntax_cursor::reader::Reader;
use syntax_grammar::rules::RuleFault;
use syntax_grammar::tree::Tree;
pub use syntax_grammar::{ParseError, tree};
use syntax_lexer::Token;

/// The tree of the tokens of a source of `end` bytes.
pub fn parse(alloc: Global, tokens: &[Token], end: u32) -> Result<Tree, ParseError>
    ensures answer { Answers tokens.now end result }
    ensures syntax { (at : ℕ) → IsSyntaxAt tokens.now end at → IsRefusal result (ParseError.Syntax at) }
    ensures deep { (at : ℕ) → IsDeepAt tokens.now at → IsRefusal result (ParseError.TooDeep at) }
    ensures only { (found : plain.Tree) → HasTree tokens.now end found → IsOnly result found }
{
    let mut reader = Reader::new(tokens);
    match declarations(alloc, &mut reader) {
        Ok(items) => Ok(Tree { items, end }),
        Err(RuleFault::Syntax) => Err(ParseError::Syntax {
            at: reader.place(end),
        }),
        Err(RuleFault::TooDeep) => Err(ParseError::TooDeep {
            at: reader.place(end),
        }),
        Err(RuleFault::NoMemory) => Err(ParseError::NoMemory),
    }
}
