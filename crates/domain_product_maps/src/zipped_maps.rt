//! Maps side by side.

ghost use Rattle.std.specs.Prelude.{◌≡◌, IfOk, max};
ghost use Rattle.abstract_map_laws.specs.Maps.{Fits};
ghost use Rattle.base_product.specs.Meaning.{paired};
ghost use Rattle.domain_product_laws.specs.Calls.{zip_map};

use crate::cells::{make_map, zipped_cells, zipped_rest};
use abstract_map::AbstractMap;
use base_product::{Pair, Paired};
use base_trait::Base;
use std::alloc::{AllocError as NoMemory, Global};

/// Two maps of one width side by side: the map describes what both describe.
///
/// It lists the keys of either; where a side lists no cell, its rest is taken.
pub fn zip_map<A: Base, B: Base>(
    alloc: Global,
    ctx: &Pair<A::Ctx, B::Ctx>,
    x: &AbstractMap<A>,
    y: &AbstractMap<B>,
) -> Result<AbstractMap<Paired<A, B>>, NoMemory>
    requires left { Fits A.algebra ctx.now.0 A.CAP x.now }
    requires right { Fits B.algebra ctx.now.1 B.CAP y.now }
    requires width { x.now.width ≡ y.now.width }
    ensures value { IfOk result (λ r. r ≡ zip_map A.algebra B.algebra ctx.now (max A.CAP B.CAP) x.now y.now) }
    ensures fits { IfOk result (λ r. Fits (paired A.algebra B.algebra) ctx.now (max A.CAP B.CAP) r) }
{
    make_map::<Paired<A, B>>(
        alloc,
        ctx,
        x.width(),
        zipped_rest(alloc, &ctx.0, &ctx.1, x, y),
        zipped_cells(alloc, ctx, x, y),
    )
}
