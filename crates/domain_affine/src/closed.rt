//! The words of a state value at the tracked cells.

ghost use Rattle.std.specs.Prelude.{◌≡◌, ◌-◌, IfOk, map};
ghost use Rattle.domain_affine_base.specs.Meaning.{affine};
ghost use Rattle.abstract_value_laws.specs.Abs.{parts};
ghost use Rattle.abstract_value_laws.specs.Fits.{Fits, PartsFit};
ghost use Rattle.domain_laws.specs.Calls.{fields_of};
ghost use Rattle.domain_affine_laws.specs.Closed as calls;
ghost use Rattle.abstract_value.specs.View.{abs};

use abstract_map::KeySet;
use abstract_value::AbstractValue;
use base_trait::Base;
use domain_affine_base::{Affine, Tracked, Word};
use domain_cells::behind_counter;
use semantics_values::KeyAt;
use std::alloc::{AllocError as NoMemory, Global};

/// The word of a value at a key.
fn word_of(
    alloc: Global,
    ctx: &Tracked,
    value: &AbstractValue<Affine>,
    key: KeyAt,
) -> Result<Word, NoMemory>
    requires fits { Fits affine ctx.now 256 (abs value.now) }
    ensures { IfOk result (λ r. r ≡ calls.word_of (abs value.now) key) }
{
    match (value, key) {
        (AbstractValue::Word { w: _w, x }, KeyAt::Whole) => Affine::copy(alloc, ctx, x),
        (AbstractValue::Map { map: _map, m }, KeyAt::At(k)) => {
            let (word, _note) = m.access(alloc, ctx, &KeySet::One(k))?;
            Ok(word)
        }
        _ => Ok(Word::Any),
    }
}

/// The place of a field behind the counter, which is number 0.
fn place_of(field: u32) -> usize
    ensures { result ≡ field - 1 }
{
    field.saturating_sub(1) as usize
}

/// The word at a cell, where these are the values of the fields behind the counter.
fn word_at(
    alloc: Global,
    ctx: &Tracked,
    values: &[AbstractValue<Affine>],
    cell: (u32, KeyAt),
) -> Result<Word, NoMemory>
    requires fits { PartsFit affine ctx.now 256 (parts (map abs values.now)) }
    ensures { IfOk result (λ r. r ≡ calls.word_at (parts (map abs values.now)) cell) }
{
    let at = place_of(cell.0);
    if at < values.len() {
        word_of(alloc, ctx, &values[at], cell.1)
    } else {
        Ok(Word::Any)
    }
}

/// The words of a state value at the tracked cells, in their order.
pub(crate) fn closed_words(
    alloc: Global,
    ctx: &Tracked,
    value: &AbstractValue<Affine>,
) -> Result<Vec<Word>, NoMemory>
    requires fits { PartsFit affine ctx.now 256 (fields_of (abs value.now)) }
    ensures { IfOk result (λ r. r.items ≡ calls.closed_words ctx.now (fields_of (abs value.now))) }
{
    let values = behind_counter(value);
    let mut words = Vec::new(alloc);
    for cell in &ctx.cells {
        words.push(word_at(alloc, ctx, values, *cell)?)?;
    }
    Ok(words)
}
