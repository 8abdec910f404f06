//! Names of cells.

ghost use Rattle.std.specs.Prelude.{◌≡◌, option_map};
ghost use Rattle.std.specs.List.{list_all};
ghost use Rattle.state_text.specs.Forms as forms;
ghost use Rattle.state_cell_names.specs.Names as defined;
ghost use Rattle.state_cell_names.specs.Views.{both, cell_of, part_of};

use crate::split::split_once;
use state_text::{begins_name, is_mark, is_word_byte};

/// What is written of a cell behind the name of its field: nothing, `[*]` or `[KEY]`.
#[derive(Clone, Copy, Debug)]
pub enum CellPart<'a> {
    Whole,
    Rest,
    At(&'a [u8]),
}

/// A cell: the name of its field, and what is written behind that.
#[derive(Clone, Copy, Debug)]
pub struct CellName<'a> {
    pub name: &'a [u8],
    pub part: CellPart<'a>,
}

/// Whether all bytes are letters, digits and `_`.
fn are_word_bytes(bytes: &[u8]) -> bool
    ensures { result ≡ list_all forms.is_word_byte bytes.now }
{
    bytes.iter().all(|byte| is_word_byte(*byte))
}

/// Whether the bytes are a name.
fn is_name(bytes: &[u8]) -> bool
    ensures { result ≡ forms.is_name bytes.now }
{
    begins_name(bytes) && are_word_bytes(bytes) && !is_mark(bytes)
}

/// Whether the bytes are the text of a key.
fn is_key(bytes: &[u8]) -> bool
    ensures { result ≡ forms.is_key bytes.now }
{
    match bytes {
        [] => false,
        [_, ..] => are_word_bytes(bytes),
    }
}

/// What stands between brackets: `*` or a key.
fn inner_part(text: &[u8]) -> Option<CellPart>
    ensures { option_map part_of result ≡ defined.inner_part text.now }
{
    if text == b"*".as_slice() {
        return Some(CellPart::Rest);
    }
    if is_key(text) {
        Some(CellPart::At(text))
    } else {
        None
    }
}

/// What is written of a cell, behind `[`.
fn part_behind_bracket(text: &[u8]) -> Option<CellPart>
    ensures { option_map part_of result ≡ defined.part_behind_bracket (defined.split_once 93 text.now) }
{
    match split_once(text, b']') {
        Some((inner, [])) => inner_part(inner),
        Some((_inner, [_, ..])) => None,
        None => None,
    }
}

/// The cell of a name and what is written behind it, if that is a part.
fn with_part<'a>(name: &'a [u8], part: Option<CellPart<'a>>) -> Option<CellName<'a>>
    ensures { option_map cell_of result ≡ defined.with_part name.now (option_map part_of part.entry) }
{
    let part = part?;
    if is_name(name) {
        Some(CellName { name, part })
    } else {
        None
    }
}

/// The cell that a text is: `NAME`, `NAME[*]` or `NAME[KEY]`.
pub fn cell_name(text: &[u8]) -> Option<CellName>
    ensures { option_map cell_of result ≡ defined.cell_name text.now }
{
    match split_once(text, b'[') {
        None => with_part(text, Some(CellPart::Whole)),
        Some((name, rest)) => with_part(name, part_behind_bracket(rest)),
    }
}
