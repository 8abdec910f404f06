//! Whether a value absorbs another, part by part.

ghost use Rattle.std.specs.Prelude.{◌≡◌, get_or, map, None};
ghost use Rattle.abstract_value_laws.specs.Abs.{parts};
ghost use Rattle.abstract_value_laws.specs.Calls.{absorbs_case, absorbs_cases, absorbs_flag, absorbs_of, absorbs_parts};
ghost use Rattle.abstract_value_laws.specs.Fits.{CaseFits, CasesFit, Fits, PartsFit};
ghost use Rattle.abstract_value.specs.Constructors.{spread};
ghost use Rattle.abstract_value.specs.View.{abs, case_of, cases_of};

use super::constructors::{Constructors, both_alone};
use super::value::AbstractValue;
use base_trait::{Base, Tri};

/// Whether the first may be each truth value that the second may be.
fn absorbs_flag(t: Tri, u: Tri) -> bool
    ensures { result ≡ absorbs_flag t u }
{
    (t.may_true || !u.may_true) && (t.may_false || !u.may_false)
}

#[cycle(absorbs)]
pub(crate) fn absorbs<B: Base>(ctx: &B::Ctx, x: &AbstractValue<B>, y: &AbstractValue<B>) -> bool
    requires old { Fits B.algebra ctx.now B.CAP (abs x.now) }
    requires new { Fits B.algebra ctx.now B.CAP (abs y.now) }
    ensures { result ≡ absorbs_of B.algebra ctx.now (abs x.now) (abs y.now) }
{
    match (x, y) {
        (AbstractValue::Flag(t), AbstractValue::Flag(u)) => absorbs_flag(*t, *u),
        (AbstractValue::Word { w, x: word }, AbstractValue::Word { w: u, x: other }) => {
            *w == *u && B::absorbs(ctx, *w, word, other)
        }
        (
            AbstractValue::Data { ty, cases },
            AbstractValue::Data {
                ty: tz,
                cases: others,
            },
        ) => *ty == *tz && absorbs_cases::<B>(ctx, cases, others),
        (AbstractValue::Map { map, m }, AbstractValue::Map { map: n, m: other }) => {
            *map == *n && m.width() == other.width() && m.absorbs(ctx, other)
        }
        _ => false,
    }
}

#[cycle(absorbs)]
fn absorbs_cases<B: Base>(
    ctx: &B::Ctx,
    xs: &Constructors<AbstractValue<B>>,
    ys: &Constructors<AbstractValue<B>>,
) -> bool
    requires old { CasesFit B.algebra ctx.now B.CAP (cases_of xs.now) }
    requires new { CasesFit B.algebra ctx.now B.CAP (cases_of ys.now) }
    ensures { result ≡ absorbs_cases B.algebra ctx.now (cases_of xs.now) (cases_of ys.now) }
{
    match both_alone(xs, ys) {
        Some((_number, x, y)) => absorbs_parts::<B>(ctx, x, y),
        None => absorbs_each::<B>(ctx, xs, ys),
    }
}

#[cycle(absorbs)]
fn absorbs_each<B: Base>(
    ctx: &B::Ctx,
    xs: &Constructors<AbstractValue<B>>,
    ys: &Constructors<AbstractValue<B>>,
) -> bool
    requires old { CasesFit B.algebra ctx.now B.CAP (cases_of xs.now) }
    requires new { CasesFit B.algebra ctx.now B.CAP (cases_of ys.now) }
    ensures { result ≡ absorbs_cases B.algebra ctx.now (cases_of xs.now) (cases_of ys.now) }
{
    if xs.len() != ys.len() {
        return false;
    }
    for i in 0..xs.len() {
        if !absorbs_case::<B>(ctx, xs, ys, i) {
            return false;
        }
    }
    true
}

/// Whether the fields of one constructor are absorbed.
#[cycle(absorbs)]
fn absorbs_case<B: Base>(
    ctx: &B::Ctx,
    xs: &Constructors<AbstractValue<B>>,
    ys: &Constructors<AbstractValue<B>>,
    i: usize,
) -> bool
    requires old { CaseFits B.algebra ctx.now B.CAP (case_of (get_or (spread xs.now) i None)) }
    requires new { CaseFits B.algebra ctx.now B.CAP (case_of (get_or (spread ys.now) i None)) }
    ensures { result ≡ absorbs_case B.algebra ctx.now (case_of (get_or (spread xs.now) i None)) (case_of (get_or (spread ys.now) i None)) }
{
    match (xs.fields(i), ys.fields(i)) {
        (_, None) => true,
        (None, Some(_)) => false,
        (Some(x), Some(y)) => absorbs_parts::<B>(ctx, x, y),
    }
}

#[cycle(absorbs)]
fn absorbs_parts<B: Base>(ctx: &B::Ctx, xs: &[AbstractValue<B>], ys: &[AbstractValue<B>]) -> bool
    requires old { PartsFit B.algebra ctx.now B.CAP (parts (map abs xs.now)) }
    requires new { PartsFit B.algebra ctx.now B.CAP (parts (map abs ys.now)) }
    ensures { result ≡ absorbs_parts B.algebra ctx.now (parts (map abs xs.now)) (parts (map abs ys.now)) }
{
    if xs.len() != ys.len() {
        return false;
    }
    for i in 0..xs.len() {
        if !absorbs::<B>(ctx, &xs[i], &ys[i]) {
            return false;
        }
    }
    true
}
