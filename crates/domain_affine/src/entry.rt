//! The words that an entry gives the tracked cells.

ghost use Rattle.std.specs.Prelude.{◌≡◌, IfOk, Some};
ghost use Rattle.semantics.specs.Entries as meaning;
ghost use Rattle.domain_laws.specs.Entries as domain;
ghost use Rattle.domain_affine_laws.specs.Entry as calls;

use domain_affine_base::{Tracked, Word};
use domain_cells::{given_at, given_rest, given_word};
use domain_laws::Field;
use semantics_values::{GivenNumber, KeyAt, Line};
use std::alloc::{AllocError as NoMemory, Global};

/// What is given of a cell of a map: what its own line gives, or else that of the rest.
fn given_cell(lines: &[Line], field: u64, default: u64, key: u64) -> GivenNumber
    ensures { result ≡ meaning.given_cell lines.now field default key }
{
    match given_at(lines, field, KeyAt::At(key)) {
        Some(given) => given,
        None => given_rest(lines, field, default),
    }
}

/// What is given of a part of a field.
fn given_of(lines: &[Line], number: u64, field: Field, key: KeyAt) -> GivenNumber
    ensures { result ≡ calls.given_of lines.now number (Some field) key }
{
    match (field, key) {
        (Field::Word { w: _w }, KeyAt::Whole) => given_word(lines, number),
        (
            Field::Map {
                map: _map,
                keys: _keys,
                width: _width,
                default,
            },
            KeyAt::At(k),
        ) => given_cell(lines, number, default, k),
        _ => GivenNumber::Any,
    }
}

/// A constant where one number is given, else any.
fn given_number(given: GivenNumber) -> Word
    ensures { result ≡ calls.given_number given }
{
    match given {
        GivenNumber::One(v) => Word::Const(v),
        GivenNumber::Any => Word::Any,
        GivenNumber::Range { lo, hi } => { if lo == hi { Word::Const(lo) } else { Word::Any } }
    }
}

/// Field number n of a state, where these are the fields behind the counter, which is number 0.
fn field_at(fields: &[Field], n: u32) -> Option<Field>
    ensures { result ≡ domain.field_at fields.now n }
{
    if n == 0 {
        return None;
    }
    let at = (n - 1) as usize;
    if at < fields.len() {
        Some(fields[at])
    } else {
        None
    }
}

/// The word that an entry gives a cell.
fn entry_word(fields: &[Field], lines: &[Line], cell: (u32, KeyAt)) -> Word
    ensures { result ≡ calls.given_number (calls.given_of lines.now cell.0 (domain.field_at fields.now cell.0) cell.1) }
{
    match field_at(fields, cell.0) {
        Some(field) => given_number(given_of(lines, u64::from(cell.0), field, cell.1)),
        None => Word::Any,
    }
}

/// The words that an entry gives the tracked cells, in their order.
pub(crate) fn entry_words(
    alloc: Global,
    ctx: &Tracked,
    fields: &[Field],
    lines: &[Line],
) -> Result<Vec<Word>, NoMemory>
    ensures { IfOk result (λ r. r.items ≡ calls.entry_words lines.now fields.now ctx.now) }
{
    let mut words = Vec::new(alloc);
    for cell in &ctx.cells {
        words.push(entry_word(fields, lines, *cell))?;
    }
    Ok(words)
}
