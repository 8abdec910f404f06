//! The cells of two maps side by side.

ghost use Rattle.std.specs.Prelude.{◌≡◌, IfOk, IsOkAnd};
ghost use Rattle.abstract_map_laws.specs.Calls.{access_of, folded};
ghost use Rattle.abstract_map_laws.specs.Keys.{either_key};
ghost use Rattle.abstract_map_laws.specs.Maps.{Fits, cell, cells_at, keys};
ghost use Rattle.abstract_map.specs.Unfolded.{FitsUnfolded};
ghost use Rattle.abstract_map.specs.View.{keys_of};
ghost use Rattle.domain_product_laws.specs.Calls.{zip_cells};

use crate::keyed::with_key;
use crate::keys::either_key;
use abstract_map::{AbstractMap, KeySet};
use abstract_map_laws::AbstractCell;
use base_product::Pair;
use base_trait::Base;
use std::alloc::{AllocError as NoMemory, Global};
use support_lists::pushed;

/// A cell of words and notes of a base.
pub(crate) type CellOf<B> = AbstractCell<<B as Base>::Word, <B as Base>::Note>;

/// A cell of words and notes of two bases.
pub(crate) type PairOf<A, B> = AbstractCell<
    Pair<<A as Base>::Word, <B as Base>::Word>,
    Pair<<A as Base>::Note, <B as Base>::Note>,
>;

/// The map of a rest and of listed cells, if there are both.
pub(crate) fn make_map<B: Base>(
    alloc: Global,
    ctx: &B::Ctx,
    width: u32,
    rest: Result<CellOf<B>, NoMemory>,
    cells: Result<Vec<(u64, CellOf<B>)>, NoMemory>,
) -> Result<AbstractMap<B>, NoMemory>
    requires map { IfOk rest (λ x. IfOk cells (λ es. FitsUnfolded B.algebra ctx.now (record { width = width; rest = x; cells = es.items }))) }
    ensures value { IfOk result (λ r. IsOkAnd rest (λ x. IsOkAnd cells (λ es. r ≡ folded B.algebra ctx.now B.CAP (record { width = width; rest = x; cells = es.items })))) }
    ensures fits { IfOk result (λ r. Fits B.algebra ctx.now B.CAP r) }
{
    let rest = match rest {
        Ok(rest) => rest,
        Err(error) => {
            drop(cells);
            return Err(error);
        }
    };
    match cells {
        Ok(cells) => AbstractMap::of_cells(alloc, ctx, width, rest, cells),
        Err(error) => {
            drop(rest);
            Err(error)
        }
    }
}

/// A word with its note, if there is a note.
pub(crate) fn with_note<W: Drop, N>(
    word: W,
    note: Result<N, NoMemory>,
) -> Result<AbstractCell<W, N>, NoMemory>
    ensures { IfOk result (λ r. IsOkAnd note (λ n. r ≡ record { word = word; note = n })) }
{
    match note {
        Ok(note) => Ok(AbstractCell { word, note }),
        Err(error) => {
            drop(word);
            Err(error)
        }
    }
}

/// Two words and two notes side by side, if there are both.
fn pair_cells<V: Drop, M: Drop, W: Drop, N: Drop>(
    left: Result<(V, M), NoMemory>,
    right: Result<(W, N), NoMemory>,
) -> Result<AbstractCell<Pair<V, W>, Pair<M, N>>, NoMemory>
    ensures { IfOk result (λ r. IsOkAnd left (λ x. IsOkAnd right (λ y. r ≡ record { word = (x.0, y.0); note = (x.1, y.1) }))) }
{
    let left = match left {
        Ok(left) => left,
        Err(error) => {
            drop(right);
            return Err(error);
        }
    };
    match right {
        Ok(right) => Ok(AbstractCell {
            word: Pair(left.0, right.0),
            note: Pair(left.1, right.1),
        }),
        Err(error) => {
            drop(left);
            Err(error)
        }
    }
}

/// What a read of both gives, side by side.
fn zipped_at<A: Base, B: Base>(
    alloc: Global,
    left: &A::Ctx,
    right: &B::Ctx,
    x: &AbstractMap<A>,
    y: &AbstractMap<B>,
    keys: KeySet,
) -> Result<PairOf<A, B>, NoMemory>
    requires first { Fits A.algebra left.now A.CAP x.now }
    requires second { Fits B.algebra right.now B.CAP y.now }
    ensures { IfOk result (λ r. r ≡ zip_cells (access_of A.algebra left.now x.now (keys_of keys)) (access_of B.algebra right.now y.now (keys_of keys))) }
{
    let first = x.access(alloc, left, &keys);
    let second = y.access(alloc, right, &keys);
    drop(keys);
    pair_cells(first, second)
}

/// The rests of both maps, side by side: what a read at a key gives that neither lists.
pub(crate) fn zipped_rest<A: Base, B: Base>(
    alloc: Global,
    left: &A::Ctx,
    right: &B::Ctx,
    x: &AbstractMap<A>,
    y: &AbstractMap<B>,
) -> Result<PairOf<A, B>, NoMemory>
    requires first { Fits A.algebra left.now A.CAP x.now }
    requires second { Fits B.algebra right.now B.CAP y.now }
    ensures { IfOk result (λ r. r ≡ zip_cells x.now.rest y.now.rest) }
{
    let unlisted = KeySet::Some {
        listed: Vec::new(alloc),
        all_listed: false,
    };
    zipped_at(alloc, left, right, x, y, unlisted)
}

/// The cells of both at a key, side by side.
fn zipped_cell<A: Base, B: Base>(
    alloc: Global,
    ctx: &Pair<A::Ctx, B::Ctx>,
    x: &AbstractMap<A>,
    y: &AbstractMap<B>,
    key: u64,
) -> Result<(u64, PairOf<A, B>), NoMemory>
    requires left { Fits A.algebra ctx.now.0 A.CAP x.now }
    requires right { Fits B.algebra ctx.now.1 B.CAP y.now }
    ensures { IfOk result (λ r. r ≡ (key, zip_cells (cell x.now key) (cell y.now key))) }
{
    let keys = KeySet::One(key);
    with_key(key, zipped_at(alloc, &ctx.0, &ctx.1, x, y, keys))
}

/// The cells of both at these keys, side by side.
fn cells_at<A: Base, B: Base>(
    alloc: Global,
    ctx: &Pair<A::Ctx, B::Ctx>,
    x: &AbstractMap<A>,
    y: &AbstractMap<B>,
    keys: &[u64],
) -> Result<Vec<(u64, PairOf<A, B>)>, NoMemory>
    requires left { Fits A.algebra ctx.now.0 A.CAP x.now }
    requires right { Fits B.algebra ctx.now.1 B.CAP y.now }
    ensures { IfOk result (λ r. r.items ≡ cells_at keys.now (λ k. zip_cells (cell x.now k) (cell y.now k))) }
{
    let mut cells = Vec::with_capacity(alloc, keys.len())?;
    for key in keys {
        cells = pushed(cells, zipped_cell(alloc, ctx, x, y, *key))?;
    }
    Ok(cells)
}

/// The cells of both at each key that either lists, side by side.
pub(crate) fn zipped_cells<A: Base, B: Base>(
    alloc: Global,
    ctx: &Pair<A::Ctx, B::Ctx>,
    x: &AbstractMap<A>,
    y: &AbstractMap<B>,
) -> Result<Vec<(u64, PairOf<A, B>)>, NoMemory>
    requires left { Fits A.algebra ctx.now.0 A.CAP x.now }
    requires right { Fits B.algebra ctx.now.1 B.CAP y.now }
    ensures { IfOk result (λ r. r.items ≡ cells_at (either_key (keys x.now) (keys y.now)) (λ k. zip_cells (cell x.now k) (cell y.now k))) }
{
    let keys = either_key(alloc, x, y)?;
    let cells = cells_at(alloc, ctx, x, y, &keys);
    drop(keys);
    cells
}
