//! Pieces of maps.

ghost use Rattle.std.specs.Prelude.{◌≡◌, ◌<◌, ◌^◌, ◌&&◌, ◌||◌, nat_lt, length, option_map, IfOk, IfSome};
ghost use Rattle.base_trait.specs.Lists.{IsAscending};
ghost use Rattle.abstract_map_laws.specs.Calls.{update_of};
ghost use Rattle.abstract_map_laws.specs.Keys.{IsKeyed, has_key};
ghost use Rattle.abstract_map_laws.specs.Maps.{Fits, cell, keys};
ghost use Rattle.abstract_map.specs.View.{keys_of};
ghost use Rattle.domain_cell_pieces.specs.Pieces.{map_piece, with_word};

use abstract_map::{AbstractMap, KeySet};
use base_cuts::CutBase;
use base_trait::Base;
use std::alloc::{AllocError as NoMemory, Global};

/// What is left of a map, of a type with so many keys, where the cell at a key lies between two numbers, or none where nothing is. A key that is not
/// listed is listed by its piece, where there is room; else the map stays as it is. Of `{ 4: {7, 9}, rest {0} }` the piece at the key 4 between 0
/// and 8 is `{ 4: {7}, rest {0} }`.
pub fn map_piece<B: CutBase>(
    alloc: Global,
    ctx: &B::Ctx,
    bound: u64,
    key: u64,
    low: u64,
    high: u64,
    m: &AbstractMap<B>,
) -> Result<Option<AbstractMap<B>>, NoMemory>
    requires map { Fits B.algebra ctx.now B.CAP m.now }
    ensures { IfOk result (λ r. r ≡ map_piece B.algebra B.cuts ctx.now B.CAP bound key low high m.now) }
{
    if can_stand::<B>(bound, m, key) {
        cut_at(alloc, ctx, key, low, high, m)
    } else {
        Ok(Some(m.copy(alloc, ctx)?))
    }
}

/// Whether a word can stand at a key: the key is one of the type's, and is listed, or there is room to list it.
fn can_stand<B: Base>(bound: u64, m: &AbstractMap<B>, key: u64) -> bool
    requires { IsAscending (keys m.now) }
    ensures { result ≡ (nat_lt key bound && (nat_lt key (2 ^ 32) && (has_key (keys m.now) key || nat_lt (length m.now.cells) B.CAP))) }
{
    key < bound && (key < 0x1_0000_0000 && (m.lists(key) || m.listed() < B::CAP))
}

/// What is left of the map where the word at a key is cut.
fn cut_at<B: CutBase>(
    alloc: Global,
    ctx: &B::Ctx,
    key: u64,
    low: u64,
    high: u64,
    m: &AbstractMap<B>,
) -> Result<Option<AbstractMap<B>>, NoMemory>
    requires map { Fits B.algebra ctx.now B.CAP m.now }
    requires key { key < 2 ^ 32 }
    ensures { IfOk result (λ r. r ≡ option_map (with_word B.algebra B.cuts ctx.now B.CAP m.now key) (B.cuts.meet ctx.now m.now.width (cell m.now key).word low high)) }
{
    let at = KeySet::One(key);
    let cell = m.access(alloc, ctx, &at)?;
    let left = B::meet(alloc, ctx, m.width(), &cell.0, low, high)?;
    with_word_at(alloc, ctx, &at, left, &cell.1, m)
}

/// The map with a word and a note at a key, where there is a word.
fn with_word_at<B: Base>(
    alloc: Global,
    ctx: &B::Ctx,
    at: &KeySet,
    left: Option<B::Word>,
    note: &B::Note,
    m: &AbstractMap<B>,
) -> Result<Option<AbstractMap<B>>, NoMemory>
    requires map { Fits B.algebra ctx.now B.CAP m.now }
    requires key { IsKeyed (keys_of at.now) }
    requires word { IfSome left (λ y. B.algebra.words.fits ctx.now m.now.width y) }
    ensures { IfOk result (λ r. r ≡ option_map (λ y. update_of B.algebra ctx.now B.CAP m.now (keys_of at.now) (record { word = y; note = note.now })) left) }
{
    match left {
        Some(left) => Ok(Some(m.update(alloc, ctx, at, &left, note)?)),
        None => Ok(None),
    }
}
