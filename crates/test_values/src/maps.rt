//! Maps of bytes over any base, made of lists of numbers.

ghost use Rattle.std.specs.Prelude.{IfOk};
ghost use Rattle.abstract_map_laws.specs.Keys.{IsKeyed};
ghost use Rattle.abstract_map.specs.View.{keys_of};
ghost use Rattle.test_values.specs.Bytes.{IsOfBytes};

use abstract_map::{AbstractMap, KeySet};
use base_trait::Base;
use std::alloc::{AllocError, Global};

/// The word of these numbers, joined one by one; any, where there are none.
pub(crate) fn word<B: Base>(
    alloc: Global,
    ctx: &B::Ctx,
    numbers: &[u8],
) -> Result<B::Word, AllocError>
    ensures { IfOk result (λ r. B.algebra.words.fits ctx.now 8 r) }
{
    if numbers.is_empty() {
        return B::any(alloc, ctx, 8);
    }
    let mut out = B::constant(alloc, ctx, 8, u64::from(numbers[0]))?;
    for n in numbers {
        let one = B::constant(alloc, ctx, 8, u64::from(*n))?;
        out = B::join(alloc, ctx, 8, &out, &one)?;
    }
    Ok(out)
}

/// The map after a write of the word of these numbers, noted by an address.
pub(crate) fn written<B: Base>(
    alloc: Global,
    ctx: &B::Ctx,
    map: &AbstractMap<B>,
    key: &KeySet,
    numbers: &[u8],
    at: u32,
) -> Result<AbstractMap<B>, AllocError>
    requires map { IsOfBytes B.algebra ctx.now B.CAP map.now }
    requires key { IsKeyed (keys_of key.now) }
    ensures { IfOk result (λ r. IsOfBytes B.algebra ctx.now B.CAP r) }
{
    let word = word::<B>(alloc, ctx, numbers)?;
    let note = B::stamp_note(alloc, at)?;
    map.update(alloc, ctx, key, &word, &note)
}

/// The map with this rest, and with these cells written at their keys one by one. Its notes are the entry's, and the keys.
pub(crate) fn map_of<B: Base>(
    alloc: Global,
    ctx: &B::Ctx,
    rest: &[u8],
    cells: &[(u32, &[u8])],
) -> Result<AbstractMap<B>, AllocError>
    ensures { IfOk result (λ r. IsOfBytes B.algebra ctx.now B.CAP r) }
{
    let rest = word::<B>(alloc, ctx, rest)?;
    let mut map = AbstractMap::new(alloc, ctx, 8, rest, B::entry_note(alloc)?)?;
    for (key, numbers) in cells {
        let at = KeySet::One(u64::from(*key));
        map = written::<B>(alloc, ctx, &map, &at, numbers, *key)?;
    }
    Ok(map)
}

/// The join of two maps.
pub(crate) fn joined<B: Base>(
    alloc: Global,
    ctx: &B::Ctx,
    map: &AbstractMap<B>,
    other: &AbstractMap<B>,
) -> Result<AbstractMap<B>, AllocError>
    requires map { IsOfBytes B.algebra ctx.now B.CAP map.now }
    requires other { IsOfBytes B.algebra ctx.now B.CAP other.now }
    ensures { IfOk result (λ r. IsOfBytes B.algebra ctx.now B.CAP r) }
{
    map.join(alloc, ctx, other)
}

/// A map widened by another.
pub(crate) fn widened<B: Base>(
    alloc: Global,
    ctx: &B::Ctx,
    map: &AbstractMap<B>,
    other: &AbstractMap<B>,
) -> Result<AbstractMap<B>, AllocError>
    requires map { IsOfBytes B.algebra ctx.now B.CAP map.now }
    requires other { IsOfBytes B.algebra ctx.now B.CAP other.now }
    ensures { IfOk result (λ r. IsOfBytes B.algebra ctx.now B.CAP r) }
{
    map.widen(alloc, ctx, other)
}

/// Whether a map absorbs another.
pub(crate) fn absorbs<B: Base>(ctx: &B::Ctx, map: &AbstractMap<B>, other: &AbstractMap<B>) -> bool
    requires map { IsOfBytes B.algebra ctx.now B.CAP map.now }
    requires other { IsOfBytes B.algebra ctx.now B.CAP other.now }
{
    map.absorbs(ctx, other)
}

/// The map of the rest 0 that has each key's own number, cut to a byte, at the keys below a bound.
pub(crate) fn numbered<B: Base>(
    alloc: Global,
    ctx: &B::Ctx,
    keys: u32,
) -> Result<AbstractMap<B>, AllocError>
    ensures { IfOk result (λ r. IsOfBytes B.algebra ctx.now B.CAP r) }
{
    let mut map = map_of::<B>(alloc, ctx, &[0], &[])?;
    for key in 0..keys {
        let at = KeySet::One(u64::from(key));
        map = written::<B>(alloc, ctx, &map, &at, &[(key & 0xff) as u8], key)?;
    }
    Ok(map)
}
