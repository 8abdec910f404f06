//! The parts of values over pairs.

ghost use Rattle.std.specs.Prelude.{◌≡◌, IfOk, map};
ghost use Rattle.abstract_value_laws.specs.Abs.{parts};
ghost use Rattle.abstract_value_laws.specs.Fits.{Fits, PartsFit};
ghost use Rattle.abstract_value.specs.View.{abs};
ghost use Rattle.domain_product_laws.specs.Calls.{first_value, mapped_parts, second_value};

use crate::mapped_values::{mapped_parts, mapped_value};
use abstract_value::AbstractValue;
use base_product::Paired;
use base_trait::Base;
use domain_product_maps::{First, Second};
use std::alloc::{AllocError as NoMemory, Global};

/// The first part of a value: it describes what the value describes.
///
/// It is a value of the first base: no map lists more cells than that base may list.
pub fn first<A: Base, B: Base>(
    alloc: Global,
    ctx: &A::Ctx,
    x: &AbstractValue<Paired<A, B>>,
) -> Result<AbstractValue<A>, NoMemory>
    requires fits { Fits A.algebra ctx.now A.CAP (first_value (abs x.now)) }
    ensures value { IfOk result (λ r. abs r ≡ first_value (abs x.now)) }
{
    mapped_value::<First<A, B>>(alloc, ctx, x)
}

/// The second part of a value: it describes what the value describes.
///
/// It is a value of the second base: no map lists more cells than that base may list.
pub fn second<A: Base, B: Base>(
    alloc: Global,
    ctx: &B::Ctx,
    x: &AbstractValue<Paired<A, B>>,
) -> Result<AbstractValue<B>, NoMemory>
    requires fits { Fits B.algebra ctx.now B.CAP (second_value (abs x.now)) }
    ensures value { IfOk result (λ r. abs r ≡ second_value (abs x.now)) }
{
    mapped_value::<Second<A, B>>(alloc, ctx, x)
}

/// The first parts of values, one by one.
pub fn first_parts<A: Base, B: Base>(
    alloc: Global,
    ctx: &A::Ctx,
    xs: &[AbstractValue<Paired<A, B>>],
) -> Result<Vec<AbstractValue<A>>, NoMemory>
    requires fits { PartsFit A.algebra ctx.now A.CAP (mapped_parts (λ x. x.0) (λ x. x.0) (parts (map abs xs.now))) }
    ensures value { IfOk result (λ r. parts (map abs r.items) ≡ mapped_parts (λ x. x.0) (λ x. x.0) (parts (map abs xs.now))) }
{
    mapped_parts::<First<A, B>>(alloc, ctx, xs)
}

/// The second parts of values, one by one.
pub fn second_parts<A: Base, B: Base>(
    alloc: Global,
    ctx: &B::Ctx,
    xs: &[AbstractValue<Paired<A, B>>],
) -> Result<Vec<AbstractValue<B>>, NoMemory>
    requires fits { PartsFit B.algebra ctx.now B.CAP (mapped_parts (λ x. x.1) (λ x. x.1) (parts (map abs xs.now))) }
    ensures value { IfOk result (λ r. parts (map abs r.items) ≡ mapped_parts (λ x. x.1) (λ x. x.1) (parts (map abs xs.now))) }
{
    mapped_parts::<Second<A, B>>(alloc, ctx, xs)
}
