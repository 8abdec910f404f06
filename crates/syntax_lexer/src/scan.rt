//! The tokens of a source.

ghost use Rattle.std.specs.Prelude.{◌≢◌, ◌+◌, ◌^◌, ◌<◌, ◌≤◌, List, length, IfOk, IfErr};
ghost use Rattle.syntax_lexer.specs.declared.lex_error.LexError.{LexError};
ghost use Rattle.syntax_lexer.specs.declared.token.Token.{Token};
ghost use Rattle.syntax_lexer.specs.Scanning.{IsTokenAt};
ghost use Rattle.syntax_lexer.specs.Source.{IsLexedFrom, IsFirstFault, IsOnly, IsRefusal, IsFault, BeginsNoSeparator};

use crate::lex_error::LexError;
use crate::separators::separator_len;
use crate::token::{Kind, Mark, Token};
use crate::words::{word_kind, word_len};
use std::alloc::Global;

/// The token that `source` begins with, where no separator begins. It stands at the place `at`.
fn token_at(alloc: Global, source: &[u8], at: u32) -> Result<Token, LexError>
    requires some { 0 < length source.now }
    requires fits { at + length source.now < 2 ^ 32 }
    requires apart { BeginsNoSeparator source.now }
    ensures ok { IfOk result (IsTokenAt at source.now) }
    ensures fault { IfErr result (λ e. e ≢ LexError.NoMemory → IsFault at source.now e) }
{
    let word = word_len(source);
    if word > 0 {
        let kind = word_kind(alloc, &source[..word], at)?;
        return Ok(Token {
            kind,
            from: at,
            to: at + word as u32,
        });
    }
    match Mark::at_start(source) {
        Some(mark) => Ok(Token {
            kind: Kind::Mark(mark),
            from: at,
            to: at + mark.text().len() as u32,
        }),
        None => Err(LexError::BadByte { at }),
    }
}

/// The tokens of a source of at most 262,144 bytes, or its first fault.
pub fn lex(alloc: Global, source: &[u8]) -> Result<Vec<Token>, LexError>
    requires { length source.now ≤ 262144 }

    // What is answered is so.
    ensures ok { IfOk result (λ tokens. IsLexedFrom source.now tokens.items) }
    ensures fault { IfErr result (λ e. e ≢ LexError.NoMemory → IsFirstFault source.now e) }

    // And what is so is answered, as far as memory lasts.
    ensures complete { (tokens : List Token) → IsLexedFrom source.now tokens → IsOnly result tokens }
    ensures refused { (e : LexError) → IsFirstFault source.now e → IsRefusal result e }
{
    let mut tokens = Vec::new(alloc);
    let mut at = 0;
    while at < source.len() {
        let rest = &source[at..];
        match separator_len(rest) {
            Some(len) => at += len,
            None => {
                let token = token_at(alloc, rest, at as u32)?;
                at = token.to as usize;
                tokens.push(token)?;
            }
        }
    }
    Ok(tokens)
}
