//! Values merged part by part.

ghost use Rattle.std.specs.Prelude.{◌≡◌, get_or, map, None, option_map, IfOk};
ghost use Rattle.abstract_value_laws.specs.Abs.{parts};
ghost use Rattle.abstract_value_laws.specs.Fits.{CaseFits, CasesFit, Fits, PartsFit};
ghost use Rattle.abstract_value.specs.Constructors.{spread};
ghost use Rattle.abstract_value.specs.View.{abs, case_of, cases_of};
ghost use Rattle.abstract_value.specs.Ways.{merged, merged_case, merged_cases, merged_parts};

use super::constructors::{Constructors, both_alone, share, shared_list};
use super::copies::copy;
use super::value::AbstractValue;
use super::way::{Way, join_ways, merge_maps, merge_words};
use base_trait::Base;
use std::alloc::{AllocError as NoMemory, Global};
use std::rc::Rc;
use support_lists::pushed;

/// Two values of one type merged.
#[cycle(merge)]
pub(crate) fn merge<B: Base>(
    alloc: Global,
    ctx: &B::Ctx,
    way: Way,
    x: &AbstractValue<B>,
    y: &AbstractValue<B>,
) -> Result<AbstractValue<B>, NoMemory>
    requires left { Fits B.algebra ctx.now B.CAP (abs x.now) }
    requires right { Fits B.algebra ctx.now B.CAP (abs y.now) }
    ensures { IfOk result (λ r. abs r ≡ merged B.algebra ctx.now B.CAP way (abs x.now) (abs y.now)) }
{
    match (x, y) {
        (AbstractValue::Flag(t), AbstractValue::Flag(u)) => Ok(AbstractValue::Flag(join_ways(
            *t, *u,
        ))),
        (AbstractValue::Word { w, x: word }, AbstractValue::Word { w: u, x: other }) if *w == *u =>
            Ok(AbstractValue::Word {
                w: *w,
                x: merge_words::<B>(alloc, ctx, way, *w, word, other)?,
            }),
        (
            AbstractValue::Data { ty, cases },
            AbstractValue::Data {
                ty: _other,
                cases: others,
            },
        ) => Ok(AbstractValue::Data {
            ty: *ty,
            cases: merge_cases(alloc, ctx, way, cases, others)?,
        }),
        (AbstractValue::Map { map, m }, AbstractValue::Map { map: n, m: other })
            if *map == *n && m.width() == other.width() => {
            Ok(AbstractValue::Map {
                map: *map,
                m: merge_maps::<B>(alloc, ctx, way, m, other)?,
            })
        }
        _ => copy(alloc, ctx, x),
    }
}

/// The constructors of either. Where one alone is present in both, it is in the result.
#[cycle(merge)]
fn merge_cases<B: Base>(
    alloc: Global,
    ctx: &B::Ctx,
    way: Way,
    xs: &Constructors<AbstractValue<B>>,
    ys: &Constructors<AbstractValue<B>>,
) -> Result<Constructors<AbstractValue<B>>, NoMemory>
    requires left { CasesFit B.algebra ctx.now B.CAP (cases_of xs.now) }
    requires right { CasesFit B.algebra ctx.now B.CAP (cases_of ys.now) }
    ensures { IfOk result (λ r. cases_of r ≡ merged_cases B.algebra ctx.now B.CAP way (cases_of xs.now) (cases_of ys.now)) }
{
    match both_alone(xs, ys) {
        Some((number, x, y)) => {
            let fields = merge_parts(alloc, ctx, way, x, y)?;
            Constructors::one(alloc, xs.len(), number, fields)
        }
        None => merge_each(alloc, ctx, way, xs, ys),
    }
}

#[cycle(merge)]
fn merge_each<B: Base>(
    alloc: Global,
    ctx: &B::Ctx,
    way: Way,
    xs: &Constructors<AbstractValue<B>>,
    ys: &Constructors<AbstractValue<B>>,
) -> Result<Constructors<AbstractValue<B>>, NoMemory>
    requires left { CasesFit B.algebra ctx.now B.CAP (cases_of xs.now) }
    requires right { CasesFit B.algebra ctx.now B.CAP (cases_of ys.now) }
    ensures { IfOk result (λ r. cases_of r ≡ merged_cases B.algebra ctx.now B.CAP way (cases_of xs.now) (cases_of ys.now)) }
{
    let mut out = Constructors::none(alloc);
    for i in 0..xs.len().min(ys.len()) {
        out = out.grown(alloc, merge_case(alloc, ctx, way, xs, ys, i))?;
    }
    Ok(out)
}

/// The fields of one constructor merged; where it is present on one side alone, that side's fields are shared.
#[cycle(merge)]
fn merge_case<B: Base>(
    alloc: Global,
    ctx: &B::Ctx,
    way: Way,
    xs: &Constructors<AbstractValue<B>>,
    ys: &Constructors<AbstractValue<B>>,
    i: usize,
) -> Result<Option<Rc<Vec<AbstractValue<B>>>>, NoMemory>
    requires left { CaseFits B.algebra ctx.now B.CAP (case_of (get_or (spread xs.now) i None)) }
    requires right { CaseFits B.algebra ctx.now B.CAP (case_of (get_or (spread ys.now) i None)) }
    ensures { IfOk result (λ r. case_of (option_map (λ f. f.value.items) r) ≡ merged_case B.algebra ctx.now B.CAP way (case_of (get_or (spread xs.now) i None)) (case_of (get_or (spread ys.now) i None))) }
{
    match (xs.shared(i), ys.shared(i)) {
        (Some(x), Some(y)) => {
            let fields = merge_parts(alloc, ctx, way, x, y)?;
            Ok(Some(shared_list(alloc, fields)?))
        }
        (Some(x), None) => Ok(Some(share(x)?)),
        (None, Some(y)) => Ok(Some(share(y)?)),
        (None, None) => Ok(None),
    }
}

#[cycle(merge)]
fn merge_parts<B: Base>(
    alloc: Global,
    ctx: &B::Ctx,
    way: Way,
    xs: &[AbstractValue<B>],
    ys: &[AbstractValue<B>],
) -> Result<Vec<AbstractValue<B>>, NoMemory>
    requires left { PartsFit B.algebra ctx.now B.CAP (parts (map abs xs.now)) }
    requires right { PartsFit B.algebra ctx.now B.CAP (parts (map abs ys.now)) }
    ensures { IfOk result (λ r. parts (map abs r.items) ≡ merged_parts B.algebra ctx.now B.CAP way (parts (map abs xs.now)) (parts (map abs ys.now))) }
{
    let mut out = Vec::new(alloc);
    for i in 0..xs.len().min(ys.len()) {
        out = pushed(out, merge(alloc, ctx, way, &xs[i], &ys[i]))?;
    }
    Ok(out)
}
