//! Lists of values, one by one.

ghost use Rattle.std.specs.Prelude.{◌≡◌, ◌++◌, ◌-◌, ◌^◌, IfOk, map, min};
ghost use Rattle.abstract_value_laws.specs.Abs.{parts};
ghost use Rattle.abstract_value_laws.specs.Calls.{absorbs_parts, join_parts, widen_parts};
ghost use Rattle.abstract_value_laws.specs.Fits.{PartsFit};
ghost use Rattle.domain_laws.specs.Calls.{values_rank};
ghost use Rattle.abstract_value.specs.View.{abs};

use abstract_value::AbstractValue;
use base_trait::Base;
use std::alloc::{AllocError as NoMemory, Global};
use support_lists::pushed;

/// The same values once more.
pub fn copies<B: Base>(
    alloc: Global,
    ctx: &B::Ctx,
    values: &[AbstractValue<B>],
) -> Result<Vec<AbstractValue<B>>, NoMemory>
    ensures { IfOk result (λ r. map abs r.items ≡ map abs values.now) }
{
    copied_behind(alloc, ctx, Vec::with_capacity(alloc, values.len())?, values)
}

/// The same values once more, behind others.
pub(crate) fn copied_behind<B: Base>(
    alloc: Global,
    ctx: &B::Ctx,
    mut out: Vec<AbstractValue<B>>,
    values: &[AbstractValue<B>],
) -> Result<Vec<AbstractValue<B>>, NoMemory>
    ensures { IfOk result (λ r. map abs r.items ≡ map abs out.items ++ map abs values.now) }
{
    for value in values {
        out = pushed(out, value.copy(alloc, ctx))?;
    }
    Ok(out)
}

/// The joins of the values of two lists, as many as both have.
pub fn join_values<B: Base>(
    alloc: Global,
    ctx: &B::Ctx,
    xs: &[AbstractValue<B>],
    ys: &[AbstractValue<B>],
) -> Result<Vec<AbstractValue<B>>, NoMemory>
    requires left { PartsFit B.algebra ctx.now B.CAP (parts (map abs xs.now)) }
    requires right { PartsFit B.algebra ctx.now B.CAP (parts (map abs ys.now)) }
    ensures { IfOk result (λ r. parts (map abs r.items) ≡ join_parts B.algebra ctx.now B.CAP (parts (map abs xs.now)) (parts (map abs ys.now))) }
{
    let mut out = Vec::with_capacity(alloc, xs.len())?;
    for i in 0..xs.len().min(ys.len()) {
        out = pushed(out, xs[i].join(alloc, ctx, &ys[i]))?;
    }
    Ok(out)
}

/// The values of one list widened by those of another, as many as both have.
pub fn widen_values<B: Base>(
    alloc: Global,
    ctx: &B::Ctx,
    olds: &[AbstractValue<B>],
    news: &[AbstractValue<B>],
) -> Result<Vec<AbstractValue<B>>, NoMemory>
    requires old { PartsFit B.algebra ctx.now B.CAP (parts (map abs olds.now)) }
    requires new { PartsFit B.algebra ctx.now B.CAP (parts (map abs news.now)) }
    ensures { IfOk result (λ r. parts (map abs r.items) ≡ widen_parts B.algebra ctx.now (parts (map abs olds.now)) (parts (map abs news.now))) }
{
    let mut out = Vec::with_capacity(alloc, olds.len())?;
    for i in 0..olds.len().min(news.len()) {
        out = pushed(out, olds[i].widen(alloc, ctx, &news[i]))?;
    }
    Ok(out)
}

/// Whether each value of one list absorbs that of another, and there are as many.
pub fn values_absorb<B: Base>(
    ctx: &B::Ctx,
    olds: &[AbstractValue<B>],
    news: &[AbstractValue<B>],
) -> bool
    requires old { PartsFit B.algebra ctx.now B.CAP (parts (map abs olds.now)) }
    requires new { PartsFit B.algebra ctx.now B.CAP (parts (map abs news.now)) }
    ensures { result ≡ absorbs_parts B.algebra ctx.now (parts (map abs olds.now)) (parts (map abs news.now)) }
{
    if olds.len() != news.len() {
        return false;
    }
    for i in 0..olds.len() {
        if !olds[i].absorbs(ctx, &news[i]) {
            return false;
        }
    }
    true
}

/// The sum of the ranks of the words; 2^64 - 1 where it is more than that.
pub fn rank_of_values<B: Base>(ctx: &B::Ctx, values: &[AbstractValue<B>]) -> u64
    requires fits { PartsFit B.algebra ctx.now B.CAP (parts (map abs values.now)) }
    ensures { result ≡ min (values_rank B.algebra ctx.now (parts (map abs values.now))) (2 ^ 64 - 1) }
{
    let mut sum: u64 = 0;
    for value in values {
        sum = sum.saturating_add(value.rank(ctx));
    }
    sum
}
