//! Words of 32 bits of a state value as text: cells, constants, sums and products.

ghost use Rattle.std.specs.Prelude.{ℕ, All, IfOk, List};
ghost use Rattle.semantics_values.specs.declared.entry.KeyAt.{KeyAt};
ghost use Rattle.abstract_value_laws.specs.Fits.{Fits};
ghost use Rattle.domain_affine_base.specs.Meaning.{affine};
ghost use Rattle.abstract_value.specs.View.{abs};

use abstract_map::KeySet;
use abstract_value::AbstractValue;
use base_trait::Base;
use domain_affine_base::{Affine, Tracked, Word};
use semantics_values::KeyAt;
use std::alloc::Global;
use test_case_lines::{Read, Unread, both, given};
use word_operations::BinaryOperation;

/// A cell: the number of a field, and its key, if any.
pub(crate) fn place(text: &str) -> Option<(u32, KeyAt)> {
    let (field, key) = match text.split_once("[") {
        Some((field, key)) => (field, KeyAt::At(key.strip_suffix("]")?.parse().ok()?)),
        None => (text, KeyAt::Whole),
    };
    Some((field.parse().ok()?, key))
}

/// The word of a field's value, or that of a key of a map, if it is one of 32 bits.
fn word_at(alloc: Global, ctx: &Tracked, value: &AbstractValue<Affine>, key: KeyAt) -> Read<Word>
    requires { Fits affine ctx.now 256 (abs value.now) }
    ensures { IfOk result (λ x. affine.words.fits ctx.now 32 x) }
{
    match (value, key) {
        (AbstractValue::Word { w, x }, KeyAt::Whole) if *w == 32 => Ok(Affine::copy(
            alloc, ctx, x,
        )?),
        (AbstractValue::Map { map: _map, m }, KeyAt::At(k)) if m.width() == 32 => {
            let (x, _note) = m.access(alloc, ctx, &KeySet::One(k))?;
            Ok(x)
        }
        _ => Err(Unread::No),
    }
}

/// The constant of a number in hex.
fn constant(digits: &str) -> Read<Word>
    ensures { IfOk result (λ x. (c : List (ℕ × KeyAt)) → affine.words.fits c 32 x) }
{
    match u32::from_str_radix(digits, 16) {
        Ok(n) => Ok(Word::Const(u64::from(n))),
        Err(_) => Err(Unread::No),
    }
}

/// A constant or a cell, where the fields have these values.
fn read(alloc: Global, ctx: &Tracked, values: &[AbstractValue<Affine>], text: &str) -> Read<Word>
    requires { All (λ v. Fits affine ctx.now 256 (abs v)) values.now }
    ensures { IfOk result (λ x. affine.words.fits ctx.now 32 x) }
{
    if let Some(digits) = text.strip_prefix("=") {
        return constant(digits);
    }
    let Some((field, key)) = place(text) else {
        return Err(Unread::No);
    };
    match values.get(field as usize) {
        Some(value) => word_at(alloc, ctx, value, key),
        None => Err(Unread::No),
    }
}

/// An operation on two words.
fn of_two(
    alloc: Global,
    ctx: &Tracked,
    values: &[AbstractValue<Affine>],
    op: BinaryOperation,
    first: &str,
    second: &str,
) -> Read<Word>
    requires { All (λ v. Fits affine ctx.now 256 (abs v)) values.now }
    ensures { IfOk result (λ x. affine.words.fits ctx.now 32 x) }
{
    let x = read(alloc, ctx, values, first)?;
    let (x, y) = both(x, read(alloc, ctx, values, second))?;
    given(Affine::op2(alloc, ctx, op, 32, &x, &y))
}

/// The word of a text, where the fields have these values.
pub(crate) fn word_in(
    alloc: Global,
    ctx: &Tracked,
    values: &[AbstractValue<Affine>],
    text: &str,
) -> Read<Word>
    requires { All (λ v. Fits affine ctx.now 256 (abs v)) values.now }
    ensures { IfOk result (λ x. affine.words.fits ctx.now 32 x) }
{
    if text == "any" {
        return Ok(Word::Any);
    }
    if let Some((x, y)) = text.split_once(" + ") {
        return of_two(alloc, ctx, values, BinaryOperation::Add, x, y);
    }
    if let Some((x, y)) = text.split_once(" * ") {
        return of_two(alloc, ctx, values, BinaryOperation::Mul, x, y);
    }
    read(alloc, ctx, values, text)
}
