//! Pairs are cut part by part.

ghost use Rattle.std.specs.Prelude.{◌≡◌, IfOk, IsOkAnd};
ghost use Rattle.base_cuts.specs.Pairs.{both_there};

use super::cut_base::CutBase;
use base_product::{Pair, Paired};
use std::alloc::{AllocError as NoMemory, Global};

impl<A: CutBase, B: CutBase> CutBase for Paired<A, B> {
    ghost use Rattle.base_cuts.specs.PairLaws.{pairs_are_cut};
    ghost use Rattle.base_cuts.specs.Pairs.{pair_cuts};

    ghost cuts = { pair_cuts A.cuts B.cuts };

    /// What is left of both parts: `({1, 9}, [0, 5])` between 2 and 9 is `({9}, [2, 5])`. None where nothing is left of one.
    fn meet(
        alloc: Global,
        ctx: &Self::Ctx,
        w: u32,
        x: &Self::Word,
        low: u64,
        high: u64,
    ) -> Result<Option<Self::Word>, NoMemory> {
        both_there(
            A::meet(alloc, &ctx.0, w, &x.0, low, high),
            B::meet(alloc, &ctx.1, w, &x.1, low, high),
        )
    }

    ghost cut_laws = { pairs_are_cut A.algebra B.algebra A.cuts B.cuts A.cut_laws B.cut_laws };
}

/// Both values, where memory lasted for both and both are there.
///
/// They come as results, so that a caller holds none of them while it makes the other.
fn both_there<V: Drop, W: Drop>(
    first: Result<Option<V>, NoMemory>,
    second: Result<Option<W>, NoMemory>,
) -> Result<Option<Pair<V, W>>, NoMemory>
    ensures { IfOk result (λ pair. IsOkAnd first (λ x. IsOkAnd second (λ y. pair ≡ both_there x y))) }
{
    let (first, second) = match (first, second) {
        (Ok(first), Ok(second)) => (first, second),
        (Err(error), _) => return Err(error),
        (_, Err(error)) => return Err(error),
    };
    match (first, second) {
        (Some(first), Some(second)) => Ok(Some(Pair(first, second))),
        _ => Ok(None),
    }
}
