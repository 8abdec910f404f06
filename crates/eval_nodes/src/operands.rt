//! The values of slots.

ghost use Rattle.std.specs.Prelude.{◌≡◌, map, option_map, slice_get, All, IfOk, IfSome};
ghost use Rattle.abstract_value_laws.specs.Fits.{Fits};
ghost use Rattle.semantics_laws.specs.Places.{all_of};
ghost use Rattle.abstract_value.specs.View.{abs};

use abstract_value::{AbstractValue, put};
use base_trait::Base;
use std::alloc::{AllocError as NoMemory, Global};

/// The value of a slot, where it is written.
pub fn at_slot<'a, B: Base>(
    _ctx: &B::Ctx,
    frame: &'a [AbstractValue<B>],
    s: u32,
) -> Option<&'a AbstractValue<B>>
    requires frame { All (λ v. Fits B.algebra _ctx.now B.CAP (abs v)) frame.now }
    ensures value { option_map (λ v. abs v.now) result ≡ slice_get (map abs frame.now) s }
    ensures fits { IfSome result (λ v. Fits B.algebra _ctx.now B.CAP (abs v.now)) }
{
    match frame.get(s as usize) {
        Some(v) => Some(v),
        None => None,
    }
}

/// The values of slots once more, where all are written.
#[inline(never)]
pub fn copies<B: Base>(
    alloc: Global,
    ctx: &B::Ctx,
    frame: &[AbstractValue<B>],
    slots: &[u32],
) -> Result<Option<Vec<AbstractValue<B>>>, NoMemory>
    requires frame { All (λ v. Fits B.algebra ctx.now B.CAP (abs v)) frame.now }
    ensures value { IfOk result (λ r. option_map (λ vs. map abs vs.items) r ≡ all_of (slice_get (map abs frame.now)) slots.now) }
    ensures fits { IfOk result (λ r. IfSome r (λ vs. All (λ v. Fits B.algebra ctx.now B.CAP (abs v)) vs.items)) }
{
    let mut out = Vec::with_capacity(alloc, slots.len())?;
    for i in 0..slots.len() {
        let Some(v) = at_slot(ctx, frame, slots[i]) else {
            drop(out);
            return Ok(None);
        };
        put(&mut out, v.copy(alloc, ctx)?)?;
    }
    Ok(Some(out))
}
