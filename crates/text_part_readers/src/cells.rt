//! Words and cells of a line.

ghost use Rattle.std.specs.Prelude.{◌≡◌, ℕ, Some, None, IfOk, IsOkAnd, is_some, option_map};
ghost use Rattle.code_image.specs.Image.{code_at};
ghost use Rattle.spec_ir.specs.Views.{specification};
ghost use Rattle.text_part_readers.specs.Cells as defined;

use crate::keys::{key_behind, key_in};
use crate::pieces::{behind_name, key_part, len_before};
use abstract_map_laws::AbstractCell;
use base_trait::Base;
use code_image::Image;
use spec_ir::{Spec, Ty};
use std::alloc::{AllocError as NoMemory, Global};
use text_words::{CellBase, text_behind};

/// A cell of the words and notes of a base.
pub(crate) type CellOf<B> = AbstractCell<<B as Base>::Word, <B as Base>::Note>;

/// The word of a word field in its line, `NAME WORD`.
pub(crate) fn word_said<B: CellBase>(
    alloc: Global,
    name: &[u8],
    w: u32,
    line: &[u8],
) -> Result<Option<B::Word>, NoMemory>
    ensures { IfOk result (λ r. r ≡ defined.word_said B.readings name.now w line.now) }
{
    match behind_name(name, b" ", line) {
        Some(text) => B::word_in(alloc, w, text),
        None => Ok(None),
    }
}

/// The cell of a word and a note, where both were read.
fn noted_cell<B: CellBase>(
    word: B::Word,
    note: Result<Option<B::Note>, NoMemory>,
) -> Result<Option<CellOf<B>>, NoMemory>
    ensures { IfOk result (λ r. IsOkAnd note (λ n. r ≡ defined.cell_of (Some word) n)) }
{
    match note? {
        Some(note) => Ok(Some(AbstractCell { word, note })),
        None => Ok(None),
    }
}

/// The cell of a text: its word, and from the first space on its note.
fn cell_in<B: CellBase>(
    alloc: Global,
    image: &Image,
    w: u32,
    text: &[u8],
) -> Result<Option<CellOf<B>>, NoMemory>
    ensures { IfOk result (λ r. r ≡ defined.cell_in B.readings (λ a. is_some (code_at image.now a)) w text.now) }
{
    let (word, note) = text.split_at(len_before(b' ', text));
    match B::word_in(alloc, w, word)? {
        Some(word) => noted_cell::<B>(word, B::note_in(alloc, image, note)),
        None => Ok(None),
    }
}

/// The rest of a map in its line, `NAME[*] WORD NOTE`.
pub(crate) fn rest_said<B: CellBase>(
    alloc: Global,
    image: &Image,
    name: &[u8],
    w: u32,
    line: &[u8],
) -> Result<Option<CellOf<B>>, NoMemory>
    ensures { IfOk result (λ r. r ≡ defined.rest_said B.readings (λ a. is_some (code_at image.now a)) name.now w line.now) }
{
    match behind_name(name, b"[*] ", line) {
        Some(text) => cell_in::<B>(alloc, image, w, text),
        None => Ok(None),
    }
}

/// The key of a listed cell in its line, and the text of the cell.
fn keyed_text<'a>(
    spec: &Spec,
    name: &[u8],
    ty: Ty,
    last: Option<u64>,
    line: &'a [u8],
) -> Option<(u64, &'a [u8])>
    ensures { option_map (λ p. (p.0, p.1.now)) result ≡ defined.keyed_text (specification spec.now) name.now ty last line.now }
{
    let (key, rest) = key_part(name, line)?;
    let key = key_behind(last, key_in(spec, ty, key))?;
    Some((key, text_behind(b" ", rest)?))
}

/// A listed cell of a map in its line, `NAME[KEY] WORD NOTE`, where its key comes behind the last one.
pub(crate) fn listed_said<B: CellBase>(
    alloc: Global,
    spec: &Spec,
    image: &Image,
    name: &[u8],
    ty: Ty,
    w: u32,
    last: Option<u64>,
    line: &[u8],
) -> Result<Option<(u64, CellOf<B>)>, NoMemory>
    ensures { IfOk result (λ r. r ≡ defined.listed_said B.readings (λ a. is_some (code_at image.now a)) (specification spec.now) name.now ty w last line.now) }
{
    let Some((key, text)) = keyed_text(spec, name, ty, last, line) else {
        return Ok(None);
    };
    match cell_in::<B>(alloc, image, w, text)? {
        Some(cell) => Ok(Some((key, cell))),
        None => Ok(None),
    }
}
