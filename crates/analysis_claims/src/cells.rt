//! Single cells: their words, and what these tell of numbers.

ghost use Rattle.std.specs.Prelude.{◌≡◌, IfOk, Some, map as map_of};
ghost use Rattle.semantics_values.specs.declared.entry.GivenNumber.TheVariants.{One, Range};
ghost use Rattle.abstract_value_laws.specs.Abs.{parts};
ghost use Rattle.abstract_value_laws.specs.Fits.{Fits, PartsFit};
ghost use Rattle.abstract_value.specs.View.{abs};
ghost use Rattle.analysis_query_laws.specs.Cells as told;
ghost use Rattle.analysis_query_laws.specs.Cells.{word_in, word_of};
ghost use Rattle.analysis_claims.specs.Words.{HasWordFor, IsWordFor};

use abstract_map::KeySet;
use abstract_value::AbstractValue;
use base_trait::Base;
use semantics_values::KeyAt;
use std::alloc::{AllocError as NoMemory, Global};
use word_operations::WordComparison;

/// Whether a word has its numbers in a range, as far as comparisons tell.
fn is_within<B: Base>(
    alloc: Global,
    ctx: &B::Ctx,
    w: u32,
    x: &B::Word,
    lo: u64,
    hi: u64,
) -> Result<bool, NoMemory>
    requires { IsWordFor B.algebra ctx.now (Range lo hi) w x.now }
    ensures { IfOk result (λ r. r ≡ told.is_within B.algebra ctx.now lo hi (Some (w, x.now))) }
{
    let low = B::constant(alloc, ctx, w, lo)?;
    let high = B::constant(alloc, ctx, w, hi)?;
    let above = B::cmp(ctx, WordComparison::LeU, w, &low, x);
    let below = B::cmp(ctx, WordComparison::LeU, w, x, &high);
    Ok(!above.may_false && !below.may_false)
}

/// The width and the word of a value at a key, if it has one there.
fn word_of<B: Base>(
    alloc: Global,
    ctx: &B::Ctx,
    value: &AbstractValue<B>,
    key: KeyAt,
) -> Result<Option<(u32, B::Word)>, NoMemory>
    requires { Fits B.algebra ctx.now B.CAP (abs value.now) }
    ensures { IfOk result (λ r. r ≡ word_of (Some (abs value.now)) key) }
{
    match (value, key) {
        (AbstractValue::Word { w, x }, KeyAt::Whole) => Ok(Some((*w, B::copy(alloc, ctx, x)?))),
        (AbstractValue::Map { map: _map, m }, KeyAt::At(k)) => {
            let (word, _note) = m.access(alloc, ctx, &KeySet::One(k))?;
            Ok(Some((m.width(), word)))
        }
        _ => Ok(None),
    }
}

/// The width and the word of a cell, if it is there, where these are the values of the fields behind the counter.
fn word_in<B: Base>(
    alloc: Global,
    ctx: &B::Ctx,
    values: &[AbstractValue<B>],
    field: u32,
    key: KeyAt,
) -> Result<Option<(u32, B::Word)>, NoMemory>
    requires { PartsFit B.algebra ctx.now B.CAP (parts (map_of abs values.now)) }
    ensures { IfOk result (λ r. r ≡ word_in (parts (map_of abs values.now)) field key) }
{
    let place = field as usize;
    if place == 0 || values.len() < place {
        return Ok(None);
    }
    word_of::<B>(alloc, ctx, &values[place - 1], key)
}

/// Whether the word of a cell has its numbers in a range, where these are the values of the fields behind the counter.
pub(crate) fn cell_within<B: Base>(
    alloc: Global,
    ctx: &B::Ctx,
    values: &[AbstractValue<B>],
    field: u32,
    key: KeyAt,
    lo: u64,
    hi: u64,
) -> Result<bool, NoMemory>
    requires fits { PartsFit B.algebra ctx.now B.CAP (parts (map_of abs values.now)) }
    requires range { HasWordFor B.algebra ctx.now (Range lo hi) (word_in (parts (map_of abs values.now)) field key) }
    ensures { IfOk result (λ r. r ≡ told.is_within B.algebra ctx.now lo hi (word_in (parts (map_of abs values.now)) field key)) }
{
    match word_in::<B>(alloc, ctx, values, field, key)? {
        Some((w, x)) => is_within::<B>(alloc, ctx, w, &x, lo, hi),
        None => Ok(false),
    }
}

/// Whether the word of a cell may not be a number, where these are the values of the fields behind the counter.
pub(crate) fn cell_differs<B: Base>(
    alloc: Global,
    ctx: &B::Ctx,
    values: &[AbstractValue<B>],
    field: u32,
    key: KeyAt,
    value: u64,
) -> Result<bool, NoMemory>
    requires fits { PartsFit B.algebra ctx.now B.CAP (parts (map_of abs values.now)) }
    requires number { HasWordFor B.algebra ctx.now (One value) (word_in (parts (map_of abs values.now)) field key) }
    ensures { IfOk result (λ r. r ≡ told.is_not B.algebra ctx.now value (word_in (parts (map_of abs values.now)) field key)) }
{
    match word_in::<B>(alloc, ctx, values, field, key)? {
        Some((w, x)) => Ok(!B::may(ctx, w, &x, value)),
        None => Ok(false),
    }
}
