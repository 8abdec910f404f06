//! The two ways in which values are merged.

ghost use Rattle.std.specs.Prelude.{◌≡◌, IfOk};
ghost use Rattle.word_operations.specs.Width.{IsWidth};
ghost use Rattle.abstract_map_laws.specs.Maps.{Fits};
ghost use Rattle.abstract_value_laws.specs.Calls.{either};
ghost use Rattle.abstract_value.specs.Ways.{maps_by, words_by};

use abstract_map::AbstractMap;
use base_trait::{Base, Tri};
use std::alloc::{AllocError as NoMemory, Global};

/// What is done with two words, and with two maps: a join, or the widening of the first by the second.
#[derive(Clone, Copy, Debug, PartialEq, Eq)]
pub enum Way {
    Join,
    Widen,
}

/// The truth values that either may be.
pub(crate) fn join_ways(t: Tri, u: Tri) -> Tri
    ensures { result ≡ either t u }
{
    Tri {
        may_true: t.may_true || u.may_true,
        may_false: t.may_false || u.may_false,
    }
}

/// Two words merged.
pub(crate) fn merge_words<B: Base>(
    alloc: Global,
    ctx: &B::Ctx,
    way: Way,
    w: u32,
    x: &B::Word,
    y: &B::Word,
) -> Result<B::Word, NoMemory>
    requires width { IsWidth w }
    requires left { B.algebra.words.fits ctx.now w x.now }
    requires right { B.algebra.words.fits ctx.now w y.now }
    ensures value { IfOk result (λ r. r ≡ words_by B.algebra ctx.now B.CAP way w x.now y.now) }
{
    match way {
        Way::Join => B::join(alloc, ctx, w, x, y),
        Way::Widen => B::widen(alloc, ctx, w, x, y),
    }
}

/// Two maps of one width merged.
pub(crate) fn merge_maps<B: Base>(
    alloc: Global,
    ctx: &B::Ctx,
    way: Way,
    x: &AbstractMap<B>,
    y: &AbstractMap<B>,
) -> Result<AbstractMap<B>, NoMemory>
    requires left { Fits B.algebra ctx.now B.CAP x.now }
    requires right { Fits B.algebra ctx.now B.CAP y.now }
    requires width { x.now.width ≡ y.now.width }
    ensures value { IfOk result (λ r. r ≡ maps_by B.algebra ctx.now B.CAP way x.now y.now) }
{
    match way {
        Way::Join => x.join(alloc, ctx, y),
        Way::Widen => x.widen(alloc, ctx, y),
    }
}
