//! Pieces of elements.

ghost use Rattle.std.specs.Prelude.{◌≡◌, ◌<◌, ◌++◌, ℕ, suc, length, map, option_map, Some, IfOk, OnOk};
ghost use Rattle.abstract_value.specs.View.{abs};
ghost use Rattle.abstract_value_laws.specs.Abs.{parts};
ghost use Rattle.abstract_value_laws.specs.Fits.{PartsFit};
ghost use Rattle.domain_cell_pieces.specs.Pieces.{field_piece, values_piece};
ghost use Rattle.domain_cuts.specs.Places.{around, with_value};

use crate::values::value_piece;
use abstract_value::{AbstractValue, put};
use base_cuts::CutBase;
use base_trait::Base;
use domain_laws::{CellRange, Field};
use std::alloc::{AllocError as NoMemory, Global};

/// What is left of an element, the values of these fields, where a cell lies between two numbers, or none where nothing is.
pub fn cell_piece<B: CutBase>(
    alloc: Global,
    ctx: &B::Ctx,
    fields: &[Field],
    cut: CellRange,
    xs: &[AbstractValue<B>],
) -> Result<Option<Vec<AbstractValue<B>>>, NoMemory>
    requires fits { PartsFit B.algebra ctx.now B.CAP (parts (map abs xs.now)) }
    ensures { IfOk result (λ r. option_map (λ v. parts (map abs v.items)) r ≡ field_piece B.algebra B.cuts ctx.now B.CAP fields.now cut.place cut.key cut.low cut.high (parts (map abs xs.now))) }
{
    if cut.place == 0 {
        whole(alloc, ctx, xs)
    } else {
        values_piece(alloc, ctx, fields, cut.place as usize - 1, cut, xs)
    }
}

/// The same of the value at a place, counted from 0.
fn values_piece<B: CutBase>(
    alloc: Global,
    ctx: &B::Ctx,
    fields: &[Field],
    n: usize,
    cut: CellRange,
    xs: &[AbstractValue<B>],
) -> Result<Option<Vec<AbstractValue<B>>>, NoMemory>
    requires fits { PartsFit B.algebra ctx.now B.CAP (parts (map abs xs.now)) }
    ensures { IfOk result (λ r. option_map (λ v. parts (map abs v.items)) r ≡ values_piece B.algebra B.cuts ctx.now B.CAP fields.now n cut.key cut.low cut.high (parts (map abs xs.now))) }
{
    if n < fields.len() && n < xs.len() {
        piece_at(alloc, ctx, fields, n, cut, xs)
    } else {
        whole(alloc, ctx, xs)
    }
}

/// The same where there is a field and a value at the place.
fn piece_at<B: CutBase>(
    alloc: Global,
    ctx: &B::Ctx,
    fields: &[Field],
    n: usize,
    cut: CellRange,
    xs: &[AbstractValue<B>],
) -> Result<Option<Vec<AbstractValue<B>>>, NoMemory>
    requires fits { PartsFit B.algebra ctx.now B.CAP (parts (map abs xs.now)) }
    requires field { n < length fields.now }
    requires value { n < length xs.now }
    ensures { IfOk result (λ r. option_map (λ v. parts (map abs v.items)) r ≡ values_piece B.algebra B.cuts ctx.now B.CAP fields.now n cut.key cut.low cut.high (parts (map abs xs.now))) }
{
    let (field, x) = (fields[n], &xs[n]);
    let piece = value_piece(alloc, ctx, field, cut.key, cut.low, cut.high, x)?;
    replaced(alloc, ctx, xs, n, piece)
}

/// The values as they are.
fn whole<B: Base>(
    alloc: Global,
    ctx: &B::Ctx,
    xs: &[AbstractValue<B>],
) -> Result<Option<Vec<AbstractValue<B>>>, NoMemory>
    ensures { IfOk result (λ r. option_map (λ v. parts (map abs v.items)) r ≡ Some (parts (map abs xs.now))) }
{
    let mut out = Vec::new(alloc);
    push_copies(alloc, ctx, &mut out, xs)?;
    Ok(Some(out))
}

/// The values with another one at a place, where there is another.
fn replaced<B: Base>(
    alloc: Global,
    ctx: &B::Ctx,
    xs: &[AbstractValue<B>],
    n: usize,
    piece: Option<AbstractValue<B>>,
) -> Result<Option<Vec<AbstractValue<B>>>, NoMemory>
    requires { n < length xs.now }
    ensures { IfOk result (λ r. option_map (λ v. parts (map abs v.items)) r ≡ option_map (with_value (map abs xs.now) n) (option_map abs piece)) }
{
    match piece {
        Some(piece) => Ok(Some(with_value(alloc, ctx, xs, n, piece)?)),
        None => Ok(None),
    }
}

/// The values with another one at a place.
fn with_value<B: Base>(
    alloc: Global,
    ctx: &B::Ctx,
    xs: &[AbstractValue<B>],
    n: usize,
    x: AbstractValue<B>,
) -> Result<Vec<AbstractValue<B>>, NoMemory>
    requires { n < length xs.now }
    ensures { IfOk result (λ r. map abs r.items ≡ around (map abs xs.now) n (abs x)) }
{
    let mut out = Vec::new(alloc);
    push_copies(alloc, ctx, &mut out, &xs[..n])?;
    put(&mut out, x)?;
    push_copies(alloc, ctx, &mut out, &xs[n + 1..])?;
    Ok(out)
}

/// Adds these values once more.
fn push_copies<B: Base>(
    alloc: Global,
    ctx: &B::Ctx,
    out: &mut Vec<AbstractValue<B>>,
    values: &[AbstractValue<B>],
) -> Result<(), NoMemory>
    ensures { OnOk result (map abs out.new.items ≡ map abs out.old.items ++ map abs values.now) }
{
    for value in values {
        put(out, value.copy(alloc, ctx)?)?;
    }
    Ok(())
}
