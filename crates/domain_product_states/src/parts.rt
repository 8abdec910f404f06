//! Calls on values over two bases, together or apart: each acts on both parts.

ghost use Rattle.std.specs.Prelude.{◌≡◌, ◌+◌, ◌-◌, ◌^◌, IfOk, map, min};
ghost use Rattle.base_product.specs.Meaning.{paired};
ghost use Rattle.abstract_value_laws.specs.Abs.{parts};
ghost use Rattle.abstract_value_laws.specs.Calls.{join_parts, widen_parts};
ghost use Rattle.abstract_value_laws.specs.Fits.{PartsFit};
ghost use Rattle.domain_laws.specs.Calls.{values_rank};
ghost use Rattle.abstract_value.specs.View.{abs};
ghost use Rattle.domain_product_states.specs.Leaves.{AreLeaves};
ghost use Rattle.domain_product_states.specs.Parts.{both_parts};
ghost use Rattle.domain_product_states.specs.Views.{apart, seen};

use crate::both::{Both, PairedValues};
use abstract_value::AbstractValue;
use base_product::{Pair, Paired};
use base_trait::Base;
use domain_cells::{copies, join_values, rank_of_values, widen_values};
use domain_product_values::{first_parts, second_parts};
use std::alloc::{AllocError as NoMemory, Global};

/// The first parts of values, and the second.
fn projected<A: Base, B: Base>(
    alloc: Global,
    ctx: &Pair<A::Ctx, B::Ctx>,
    values: &[AbstractValue<Paired<A, B>>],
) -> Result<(Vec<AbstractValue<A>>, Vec<AbstractValue<B>>), NoMemory>
    requires first { PartsFit A.algebra ctx.now.0 A.CAP (both_parts (parts (map abs values.now))).0 }
    requires second { PartsFit B.algebra ctx.now.1 B.CAP (both_parts (parts (map abs values.now))).1 }
    ensures { IfOk result (λ r. apart r.0.items r.1.items ≡ both_parts (parts (map abs values.now))) }
{
    let first = first_parts(alloc, &ctx.0, values)?;
    let second = second_parts(alloc, &ctx.1, values)?;
    Ok((first, second))
}

/// The same values once more.
fn both_copies<A: Base, B: Base>(
    alloc: Global,
    ctx: &Pair<A::Ctx, B::Ctx>,
    xs: &[AbstractValue<A>],
    ys: &[AbstractValue<B>],
) -> Result<(Vec<AbstractValue<A>>, Vec<AbstractValue<B>>), NoMemory>
    ensures { IfOk result (λ r. apart r.0.items r.1.items ≡ apart xs.now ys.now) }
{
    let first = copies(alloc, &ctx.0, xs)?;
    let second = copies(alloc, &ctx.1, ys)?;
    Ok((first, second))
}

/// Copies of both parts, apart.
pub fn taken_apart<A: Base, B: Base>(
    alloc: Global,
    ctx: &Pair<A::Ctx, B::Ctx>,
    x: &PairedValues<A, B>,
) -> Result<(Vec<AbstractValue<A>>, Vec<AbstractValue<B>>), NoMemory>
    requires first { PartsFit A.algebra ctx.now.0 A.CAP (seen x.now).0 }
    requires second { PartsFit B.algebra ctx.now.1 B.CAP (seen x.now).1 }
    ensures { IfOk result (λ r. apart r.0.items r.1.items ≡ seen x.now) }
{
    match x {
        Both::Together(values) => projected(alloc, ctx, values),
        Both::Apart(xs, ys) => both_copies(alloc, ctx, xs, ys),
    }
}

/// The joins of both parts, apart.
fn joined_apart<A: Base, B: Base>(
    alloc: Global,
    ctx: &Pair<A::Ctx, B::Ctx>,
    x: &PairedValues<A, B>,
    y: &PairedValues<A, B>,
) -> Result<PairedValues<A, B>, NoMemory>
    requires first { PartsFit A.algebra ctx.now.0 A.CAP (seen x.now).0 × PartsFit A.algebra ctx.now.0 A.CAP (seen y.now).0 }
    requires second { PartsFit B.algebra ctx.now.1 B.CAP (seen x.now).1 × PartsFit B.algebra ctx.now.1 B.CAP (seen y.now).1 }
    ensures { IfOk result (λ r. seen r ≡ (join_parts A.algebra ctx.now.0 A.CAP (seen x.now).0 (seen y.now).0, join_parts B.algebra ctx.now.1 B.CAP (seen x.now).1 (seen y.now).1)) }
{
    let left = taken_apart(alloc, ctx, x)?;
    let right = taken_apart(alloc, ctx, y)?;
    let first = join_values(alloc, &ctx.0, &left.0, &right.0)?;
    let second = join_values(alloc, &ctx.1, &left.1, &right.1)?;
    Ok(Both::Apart(first, second))
}

/// The joins of values over the pair, where both bases list as many cells: their parts are the joins of the parts.
fn joined_together<A: Base, B: Base>(
    alloc: Global,
    ctx: &Pair<A::Ctx, B::Ctx>,
    xs: &[AbstractValue<Paired<A, B>>],
    ys: &[AbstractValue<Paired<A, B>>],
) -> Result<PairedValues<A, B>, NoMemory>
    requires room { A.CAP ≡ B.CAP }
    requires first { PartsFit A.algebra ctx.now.0 A.CAP (both_parts (parts (map abs xs.now))).0 × PartsFit A.algebra ctx.now.0 A.CAP (both_parts (parts (map abs ys.now))).0 }
    requires second { PartsFit B.algebra ctx.now.1 B.CAP (both_parts (parts (map abs xs.now))).1 × PartsFit B.algebra ctx.now.1 B.CAP (both_parts (parts (map abs ys.now))).1 }
    ensures { IfOk result (λ r. seen r ≡ (join_parts A.algebra ctx.now.0 A.CAP (both_parts (parts (map abs xs.now))).0 (both_parts (parts (map abs ys.now))).0, join_parts B.algebra ctx.now.1 B.CAP (both_parts (parts (map abs xs.now))).1 (both_parts (parts (map abs ys.now))).1)) }
{
    let values = join_values::<Paired<A, B>>(alloc, ctx, xs, ys)?;
    Ok(Both::Together(values))
}

/// The joins of both parts.
pub(crate) fn joined_both<A: Base, B: Base>(
    alloc: Global,
    ctx: &Pair<A::Ctx, B::Ctx>,
    x: &PairedValues<A, B>,
    y: &PairedValues<A, B>,
) -> Result<PairedValues<A, B>, NoMemory>
    requires first { PartsFit A.algebra ctx.now.0 A.CAP (seen x.now).0 × PartsFit A.algebra ctx.now.0 A.CAP (seen y.now).0 }
    requires second { PartsFit B.algebra ctx.now.1 B.CAP (seen x.now).1 × PartsFit B.algebra ctx.now.1 B.CAP (seen y.now).1 }
    ensures { IfOk result (λ r. seen r ≡ (join_parts A.algebra ctx.now.0 A.CAP (seen x.now).0 (seen y.now).0, join_parts B.algebra ctx.now.1 B.CAP (seen x.now).1 (seen y.now).1)) }
{
    match (x, y) {
        (Both::Together(xs), Both::Together(ys)) if A::CAP == B::CAP => {
            joined_together(alloc, ctx, xs, ys)
        }
        _ => joined_apart(alloc, ctx, x, y),
    }
}

/// The widenings of both parts, apart.
fn widened_apart<A: Base, B: Base>(
    alloc: Global,
    ctx: &Pair<A::Ctx, B::Ctx>,
    old: &PairedValues<A, B>,
    new: &PairedValues<A, B>,
) -> Result<PairedValues<A, B>, NoMemory>
    requires first { PartsFit A.algebra ctx.now.0 A.CAP (seen old.now).0 × PartsFit A.algebra ctx.now.0 A.CAP (seen new.now).0 }
    requires second { PartsFit B.algebra ctx.now.1 B.CAP (seen old.now).1 × PartsFit B.algebra ctx.now.1 B.CAP (seen new.now).1 }
    ensures { IfOk result (λ r. seen r ≡ (widen_parts A.algebra ctx.now.0 (seen old.now).0 (seen new.now).0, widen_parts B.algebra ctx.now.1 (seen old.now).1 (seen new.now).1)) }
{
    let before = taken_apart(alloc, ctx, old)?;
    let after = taken_apart(alloc, ctx, new)?;
    let first = widen_values(alloc, &ctx.0, &before.0, &after.0)?;
    let second = widen_values(alloc, &ctx.1, &before.1, &after.1)?;
    Ok(Both::Apart(first, second))
}

/// The widenings of values over the pair: their parts are the widenings of the parts.
fn widened_together<A: Base, B: Base>(
    alloc: Global,
    ctx: &Pair<A::Ctx, B::Ctx>,
    olds: &[AbstractValue<Paired<A, B>>],
    news: &[AbstractValue<Paired<A, B>>],
) -> Result<PairedValues<A, B>, NoMemory>
    requires first { PartsFit A.algebra ctx.now.0 A.CAP (both_parts (parts (map abs olds.now))).0 × PartsFit A.algebra ctx.now.0 A.CAP (both_parts (parts (map abs news.now))).0 }
    requires second { PartsFit B.algebra ctx.now.1 B.CAP (both_parts (parts (map abs olds.now))).1 × PartsFit B.algebra ctx.now.1 B.CAP (both_parts (parts (map abs news.now))).1 }
    ensures { IfOk result (λ r. seen r ≡ (widen_parts A.algebra ctx.now.0 (both_parts (parts (map abs olds.now))).0 (both_parts (parts (map abs news.now))).0, widen_parts B.algebra ctx.now.1 (both_parts (parts (map abs olds.now))).1 (both_parts (parts (map abs news.now))).1)) }
{
    let values = widen_values::<Paired<A, B>>(alloc, ctx, olds, news)?;
    Ok(Both::Together(values))
}

/// The widenings of both parts.
pub(crate) fn widened_both<A: Base, B: Base>(
    alloc: Global,
    ctx: &Pair<A::Ctx, B::Ctx>,
    old: &PairedValues<A, B>,
    new: &PairedValues<A, B>,
) -> Result<PairedValues<A, B>, NoMemory>
    requires first { PartsFit A.algebra ctx.now.0 A.CAP (seen old.now).0 × PartsFit A.algebra ctx.now.0 A.CAP (seen new.now).0 }
    requires second { PartsFit B.algebra ctx.now.1 B.CAP (seen old.now).1 × PartsFit B.algebra ctx.now.1 B.CAP (seen new.now).1 }
    ensures { IfOk result (λ r. seen r ≡ (widen_parts A.algebra ctx.now.0 (seen old.now).0 (seen new.now).0, widen_parts B.algebra ctx.now.1 (seen old.now).1 (seen new.now).1)) }
{
    match (old, new) {
        (Both::Together(olds), Both::Together(news)) => widened_together(alloc, ctx, olds, news),
        _ => widened_apart(alloc, ctx, old, new),
    }
}

/// The sum of the ranks of both parts; 2^64 - 1 where it is more than that.
pub(crate) fn ranked_both<A: Base, B: Base>(
    ctx: &Pair<A::Ctx, B::Ctx>,
    x: &PairedValues<A, B>,
) -> u64
    requires leaves { AreLeaves (seen x.now).0 }
    requires first { PartsFit A.algebra ctx.now.0 A.CAP (seen x.now).0 }
    requires second { PartsFit B.algebra ctx.now.1 B.CAP (seen x.now).1 }
    ensures { result ≡ min (values_rank A.algebra ctx.now.0 (seen x.now).0 + values_rank B.algebra ctx.now.1 (seen x.now).1) (2 ^ 64 - 1) }
{
    match x {
        Both::Together(values) => rank_of_values::<Paired<A, B>>(ctx, values),
        Both::Apart(xs, ys) => ranked_apart(ctx, xs, ys),
    }
}

/// The sum of the ranks of the values of both bases; 2^64 - 1 where it is more than that.
fn ranked_apart<A: Base, B: Base>(
    ctx: &Pair<A::Ctx, B::Ctx>,
    xs: &[AbstractValue<A>],
    ys: &[AbstractValue<B>],
) -> u64
    requires first { PartsFit A.algebra ctx.now.0 A.CAP (parts (map abs xs.now)) }
    requires second { PartsFit B.algebra ctx.now.1 B.CAP (parts (map abs ys.now)) }
    ensures { result ≡ min (values_rank A.algebra ctx.now.0 (parts (map abs xs.now)) + values_rank B.algebra ctx.now.1 (parts (map abs ys.now))) (2 ^ 64 - 1) }
{
    let first = rank_of_values(&ctx.0, xs);
    let second = rank_of_values(&ctx.1, ys);
    first.saturating_add(second)
}

/// The same values once more.
pub(crate) fn copied_both<A: Base, B: Base>(
    alloc: Global,
    ctx: &Pair<A::Ctx, B::Ctx>,
    x: &PairedValues<A, B>,
) -> Result<PairedValues<A, B>, NoMemory>
    ensures { IfOk result (λ r. seen r ≡ seen x.now) }
{
    match x {
        Both::Together(values) => copied_together(alloc, ctx, values),
        Both::Apart(xs, ys) => copied_apart(alloc, ctx, xs, ys),
    }
}

/// The same values over the pair once more.
fn copied_together<A: Base, B: Base>(
    alloc: Global,
    ctx: &Pair<A::Ctx, B::Ctx>,
    values: &[AbstractValue<Paired<A, B>>],
) -> Result<PairedValues<A, B>, NoMemory>
    ensures { IfOk result (λ r. seen r ≡ both_parts (parts (map abs values.now))) }
{
    let values = copies::<Paired<A, B>>(alloc, ctx, values)?;
    Ok(Both::Together(values))
}

/// The same values over each base once more.
fn copied_apart<A: Base, B: Base>(
    alloc: Global,
    ctx: &Pair<A::Ctx, B::Ctx>,
    xs: &[AbstractValue<A>],
    ys: &[AbstractValue<B>],
) -> Result<PairedValues<A, B>, NoMemory>
    ensures { IfOk result (λ r. seen r ≡ apart xs.now ys.now) }
{
    let (first, second) = both_copies(alloc, ctx, xs, ys)?;
    Ok(Both::Apart(first, second))
}
