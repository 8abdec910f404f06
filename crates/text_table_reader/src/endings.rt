//! The last line of a block that is left open.

ghost use Rattle.std.specs.Prelude.{◌≡◌, ◌≤◌, IfOk, OnOk, length};
ghost use Rattle.text_words.specs.Reading as reading;
ghost use Rattle.text_table_reader.specs.Endings as defined;
ghost use Rattle.text_table_reader.specs.Views.{end_of};

use crate::block::End;
use base_trait::Base;
use fixpoint_open_tables::Ending;
use std::alloc::{AllocError as NoMemory, Global};
use text_element_readers::ReadElement;
use text_lines::LinesOf;
use text_words::{number_in, text_behind};

/// How a block ends whose words are those of a domain.
pub(crate) type EndingOf<D> = Ending<<<D as domain_trait::Domain>::B as Base>::Word>;

/// `open WORD`, where the instruction may lead to too many addresses.
fn open_said<D: ReadElement>(
    alloc: Global,
    domain: &D,
    line: &[u8],
) -> Result<Option<EndingOf<D>>, NoMemory>
    ensures { IfOk result (λ r. r ≡ defined.open_said (D.word_in domain.now) line.now) }
{
    let Some(text) = text_behind(b"open ", line) else {
        return Ok(None);
    };
    match domain.read_word(alloc, text)? {
        Some(shown) => Ok(Some(Ending::Open { shown })),
        None => Ok(None),
    }
}

/// The code word that a text is.
fn code_word(text: &[u8]) -> Option<u32>
    ensures { result ≡ reading.number_in 32 text.now }
{
    match number_in(32, text) {
        Some(word) => Some(word as u32),
        None => None,
    }
}

/// `undecodable WORD`, where the code word has no decoding.
fn undecodable_said<W>(line: &[u8]) -> Option<Ending<W>>
    ensures { result ≡ defined.undecodable_said line.now }
{
    match code_word(text_behind(b"undecodable ", line)?) {
        Some(word) => Some(Ending::Undecodable { word }),
        None => None,
    }
}

/// The ending that a line says.
fn ending_said<D: ReadElement>(
    alloc: Global,
    domain: &D,
    line: &[u8],
) -> Result<Option<EndingOf<D>>, NoMemory>
    ensures { IfOk result (λ r. r ≡ defined.ending_said (D.word_in domain.now) line.now) }
{
    match open_said::<D>(alloc, domain, line)? {
        Some(ending) => Ok(Some(ending)),
        None => Ok(undecodable_said(line)),
    }
}

/// Whether a block may have an ending: it has neither next addresses nor exits.
fn may_end(end: &End) -> bool
    ensures { result ≡ defined.may_end end.now.next.items end.now.exits.items }
{
    end.next.is_empty() && end.exits.is_empty()
}

/// Reads the ending of a block, behind its other lines; none, where the next line is none of that block.
pub(crate) fn read_ending<D: ReadElement>(
    alloc: Global,
    domain: &D,
    end: &End,
    lines: &mut LinesOf<'_>,
) -> Result<Option<EndingOf<D>>, NoMemory>
    ensures value { IfOk result (λ r. (r, lines.new) ≡ defined.read_ending (D.word_in domain.now) (end_of end.now lines.old)) }
    ensures shorter { OnOk result (length lines.new ≤ length lines.old) }
{
    if !may_end(end) {
        return Ok(None);
    }
    let Some((line, rest)) = lines.next() else {
        return Ok(None);
    };
    match ending_said::<D>(alloc, domain, line)? {
        Some(ending) => {
            *lines = rest;
            Ok(Some(ending))
        }
        None => Ok(None),
    }
}
