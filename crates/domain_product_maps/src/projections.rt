//! The parts of maps over pairs.

ghost use Rattle.std.specs.Prelude.{◌≡◌, IfOk};
ghost use Rattle.abstract_map_laws.specs.Maps.{Fits as MapFits};
ghost use Rattle.domain_product_laws.specs.Calls.{first_map, second_map};

use crate::mapped_maps::mapped_map;
use crate::part::{First, Second};
use abstract_map::AbstractMap;
use base_product::Paired;
use base_trait::Base;
use std::alloc::{AllocError as NoMemory, Global};

/// The first part of a map, at the same keys: it describes what the map describes.
pub fn first_map<A: Base, B: Base>(
    alloc: Global,
    ctx: &A::Ctx,
    m: &AbstractMap<Paired<A, B>>,
) -> Result<AbstractMap<A>, NoMemory>
    requires fits { MapFits A.algebra ctx.now A.CAP (first_map m.now) }
    ensures value { IfOk result (λ r. r ≡ first_map m.now) }
{
    mapped_map::<First<A, B>>(alloc, ctx, m)
}

/// The second part of a map, at the same keys: it describes what the map describes.
pub fn second_map<A: Base, B: Base>(
    alloc: Global,
    ctx: &B::Ctx,
    m: &AbstractMap<Paired<A, B>>,
) -> Result<AbstractMap<B>, NoMemory>
    requires fits { MapFits B.algebra ctx.now B.CAP (second_map m.now) }
    ensures value { IfOk result (λ r. r ≡ second_map m.now) }
{
    mapped_map::<Second<A, B>>(alloc, ctx, m)
}
