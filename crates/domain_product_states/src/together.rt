//! Two parts put together.

ghost use Rattle.std.specs.Prelude.{◌≡◌, IfOk, IsTrue, map};
ghost use Rattle.abstract_map_laws.specs.Maps.{keys};
ghost use Rattle.abstract_value_laws.specs.Abs.{parts};
ghost use Rattle.abstract_value_laws.specs.Fits.{PartsFit};
ghost use Rattle.abstract_value.specs.View.{abs};
ghost use Rattle.domain_product_states.specs.Alike.{Alike, AreAlike};
ghost use Rattle.domain_product_states.specs.Views.{apart, seen};

use crate::both::{Both, PairedValues};
use abstract_map::AbstractMap;
use abstract_value::AbstractValue;
use base_product::Pair;
use base_trait::Base;
use domain_product_values::zip_values;
use std::alloc::{AllocError as NoMemory, Global};

/// Whether two maps list the same keys.
fn list_alike<A: Base, B: Base>(x: &AbstractMap<A>, y: &AbstractMap<B>) -> bool
    ensures { IsTrue result → keys x.now ≡ keys y.now }
{
    if x.listed() != y.listed() {
        return false;
    }
    for place in 0..x.listed() {
        if x.key_at(place) != y.key_at(place) {
            return false;
        }
    }
    true
}

/// Whether two maps of these map types differ in their cells alone.
fn maps_alike<A: Base, B: Base>(
    map: u32,
    x: &AbstractMap<A>,
    other: u32,
    y: &AbstractMap<B>,
) -> bool
    ensures { IsTrue result → (map ≡ other) × (x.now.width ≡ y.now.width) × (keys x.now ≡ keys y.now) }
{
    if map != other || x.width() != y.width() {
        return false;
    }
    list_alike(x, y)
}

/// Whether both are words of one width, or maps of one type that list the same keys.
fn is_alike<A: Base, B: Base>(x: &AbstractValue<A>, y: &AbstractValue<B>) -> bool
    ensures { IsTrue result → Alike (abs x.now) (abs y.now) }
{
    match (x, y) {
        (AbstractValue::Word { w, x: _x }, AbstractValue::Word { w: u, x: _y }) => *w == *u,
        (AbstractValue::Map { map, m }, AbstractValue::Map { map: n, m: other }) => maps_alike(
            *map, m, *n, other,
        ),
        _ => false,
    }
}

/// Whether the values of two lists are such, one by one, and there are as many.
fn are_alike<A: Base, B: Base>(xs: &[AbstractValue<A>], ys: &[AbstractValue<B>]) -> bool
    ensures { IsTrue result → AreAlike (parts (map abs xs.now)) (parts (map abs ys.now)) }
{
    if xs.len() != ys.len() {
        return false;
    }
    for i in 0..xs.len() {
        if !is_alike(&xs[i], &ys[i]) {
            return false;
        }
    }
    true
}

/// Values over two bases: together, where they are words of one width and maps of one type that list the same keys, and else
/// apart.
pub fn of_parts<A: Base, B: Base>(
    alloc: Global,
    ctx: &Pair<A::Ctx, B::Ctx>,
    xs: Vec<AbstractValue<A>>,
    ys: Vec<AbstractValue<B>>,
) -> Result<PairedValues<A, B>, NoMemory>
    requires first { PartsFit A.algebra ctx.now.0 A.CAP (parts (map abs xs.items)) }
    requires second { PartsFit B.algebra ctx.now.1 B.CAP (parts (map abs ys.items)) }
    ensures { IfOk result (λ r. seen r ≡ apart xs.items ys.items) }
{
    if !are_alike(&xs, &ys) {
        return Ok(Both::Apart(xs, ys));
    }
    let values = zip_values(alloc, ctx, &xs, &ys)?;
    Ok(Both::Together(values))
}
