//! Runs of letters, digits and `_`: names, keywords, numbers and `_` alone.

ghost use Rattle.std.specs.Prelude.{◌≡◌, length, take_while, IfOk, IfErr};
ghost use Rattle.syntax_lexer.specs.Bytes as bytes;
ghost use Rattle.syntax_lexer.specs.Lexeme.{IsNameRun, IsNumberRun, IsReserved, Spells};
ghost use Rattle.syntax_lexer.specs.Scanning.{IsWordFault};

use crate::classes::is_word_byte;
use crate::lex_error::LexError;
use crate::numbers::number;
use crate::text::Text;
use crate::token::{Keyword, Kind, Mark};
use std::alloc::Global;

/// The number of bytes that a name has at most.
const LONGEST_NAME: usize = 64;

/// The number of letters, digits and `_` that `source` begins with.
pub fn word_len(source: &[u8]) -> usize
    ensures { result ≡ length (take_while bytes.is_word_byte source.now) }
{
    source
        .iter()
        .take_while(|byte| is_word_byte(**byte))
        .count()
}

/// The bytes as text.
fn ascii_str(text: &[u8]) -> &str
    requires { bytes.Passes bytes.is_word_byte text.now }
    ensures { result.now ≡ text.now }
{
    str::from_utf8(text).unwrap()
}

/// The token of a name, which stands at the place `at`.
fn name_kind(alloc: Global, text: &[u8], at: u32) -> Result<Kind, LexError>
    requires run { IsNameRun text.now }
    requires free { ¬ IsReserved text.now }
    ensures ok { IfOk result (Spells text.now) }
    ensures fault { IfErr result (IsWordFault at text.now) }
{
    if text.len() > LONGEST_NAME {
        return Err(LexError::LongName { at });
    }
    let name = Text::from_str(alloc, ascii_str(text))?;
    if text[0].is_ascii_uppercase() {
        Ok(Kind::Upper(name))
    } else {
        Ok(Kind::Lower(name))
    }
}

/// The token of a run of digits, letters and `_`, which stands at the place `at`.
fn number_kind(text: &[u8], at: u32) -> Result<Kind, LexError>
    requires { IsNumberRun text.now }
    ensures ok { IfOk result (Spells text.now) }
    ensures fault { IfErr result (IsWordFault at text.now) }
{
    match number(text) {
        Some(n) => Ok(Kind::Number(n)),
        None => Err(LexError::BadNumber { at }),
    }
}

/// The token of a run of letters, digits and `_`, which stands at the place `at`.
pub fn word_kind(alloc: Global, text: &[u8], at: u32) -> Result<Kind, LexError>
    requires { bytes.IsRun bytes.is_word_byte bytes.is_word_byte text.now }
    ensures ok { IfOk result (Spells text.now) }
    ensures fault { IfErr result (IsWordFault at text.now) }
{
    if text == b"_".as_slice() {
        return Ok(Kind::Mark(Mark::Underscore));
    }
    if let Some(keyword) = Keyword::from_text(text) {
        return Ok(Kind::Word(keyword));
    }
    if text[0].is_ascii_digit() {
        number_kind(text, at)
    } else {
        name_kind(alloc, text, at)
    }
}
