//! Lists of arguments.

ghost use Rattle.std.specs.Prelude.{◌≡◌, ◌<◌, map, option_map, length, slice_get, IfOk, IfSome};
ghost use Rattle.spec_ir.specs.Views.{specification};
ghost use Rattle.semantics_values.specs.Types.{environment_of};
ghost use Rattle.abstract_value_laws.specs.Abs.{parts};
ghost use Rattle.abstract_value_laws.specs.Calls.{absorbs_of};
ghost use Rattle.abstract_value_laws.specs.Fits.{Fits};
ghost use Rattle.abstract_value_laws.specs.Types.{have_types};
ghost use Rattle.abstract_value.specs.View.{abs};
ghost use Rattle.abstract_value.specs.Ways.{merged};
ghost use Rattle.abstract_semantics.specs.Calls.{all_absorb};
ghost use Rattle.abstract_semantics.specs.Terms.{merge_all, params_of};
ghost use Rattle.eval_group_turns.specs.Fitting.{ListFits};
ghost use Rattle.eval_group_turns.specs.Merging.{merged_with};

use abstract_value::{AbstractValue, Way, put};
use base_trait::Base;
use spec_ir::{Spec, Ty};
use std::alloc::{AllocError as NoMemory, Global};

/// Whether values have the types of the parameters of a function, each the one of its place.
pub fn are_typed<B: Base>(spec: &Spec, fun: u32, args: &[AbstractValue<B>]) -> bool
    ensures { result ≡ have_types (environment_of (specification spec.now)) (parts (map abs args.now)) (params_of (specification spec.now) fun) }
{
    have_types(spec, args, params(spec, fun))
}

/// The types of the parameters of a function.
fn params(spec: &Spec, fun: u32) -> &[Ty]
    ensures { result.now ≡ params_of (specification spec.now) fun }
{
    match spec.funs.get(fun as usize) {
        Some(f) => &f.params,
        None => &[],
    }
}

/// Whether values have these types, each the one of its place.
fn have_types<B: Base>(spec: &Spec, args: &[AbstractValue<B>], types: &[Ty]) -> bool
    ensures { result ≡ have_types (environment_of (specification spec.now)) (parts (map abs args.now)) types.now }
{
    if args.len() != types.len() {
        return false;
    }
    for i in 0..args.len() {
        if !args[i].has_type(spec, types[i]) {
            return false;
        }
    }
    true
}

/// The same values once more.
pub fn copy_list<B: Base>(
    alloc: Global,
    ctx: &B::Ctx,
    xs: &[AbstractValue<B>],
) -> Result<Vec<AbstractValue<B>>, NoMemory>
    ensures { IfOk result (λ r. map abs r.items ≡ map abs xs.now) }
{
    let mut out = Vec::with_capacity(alloc, xs.len())?;
    for x in xs {
        put(&mut out, x.copy(alloc, ctx)?)?;
    }
    Ok(out)
}

/// Two lists merged, value by value; a value that has no other comes as it is.
pub(crate) fn merge_lists<B: Base>(
    alloc: Global,
    ctx: &B::Ctx,
    way: Way,
    xs: &[AbstractValue<B>],
    ys: &[AbstractValue<B>],
) -> Result<Vec<AbstractValue<B>>, NoMemory>
    requires left { ListFits B.algebra ctx.now B.CAP (map abs xs.now) }
    requires right { ListFits B.algebra ctx.now B.CAP (map abs ys.now) }
    ensures { IfOk result (λ r. map abs r.items ≡ merge_all (merged B.algebra ctx.now B.CAP way) (map abs xs.now) (map abs ys.now)) }
{
    let mut out = Vec::with_capacity(alloc, xs.len())?;
    for i in 0..xs.len() {
        put(
            &mut out,
            merged_with(alloc, ctx, way, &xs[i], other_at(ys, i))?,
        )?;
    }
    Ok(out)
}

/// The value at a place, if there is one.
fn other_at<B: Base>(ys: &[AbstractValue<B>], i: usize) -> Option<&AbstractValue<B>>
    ensures { option_map (λ y. abs y.now) result ≡ slice_get (map abs ys.now) i }
{
    match ys.get(i) {
        Some(y) => Some(y),
        None => None,
    }
}

/// A value merged with another, if there is one.
fn merged_with<B: Base>(
    alloc: Global,
    ctx: &B::Ctx,
    way: Way,
    x: &AbstractValue<B>,
    y: Option<&AbstractValue<B>>,
) -> Result<AbstractValue<B>, NoMemory>
    requires left { Fits B.algebra ctx.now B.CAP (abs x.now) }
    requires right { IfSome y (λ y. Fits B.algebra ctx.now B.CAP (abs y.now)) }
    ensures { IfOk result (λ r. abs r ≡ merged_with (merged B.algebra ctx.now B.CAP way) (abs x.now) (option_map (λ y. abs y.now) y.entry)) }
{
    match y {
        Some(y) => x.merge(alloc, ctx, way, y),
        None => x.copy(alloc, ctx),
    }
}

/// Whether the values of a list absorb those of another, up to the end of the shorter one.
pub(crate) fn lists_absorb<B: Base>(
    ctx: &B::Ctx,
    xs: &[AbstractValue<B>],
    ys: &[AbstractValue<B>],
) -> bool
    requires old { ListFits B.algebra ctx.now B.CAP (map abs xs.now) }
    requires new { ListFits B.algebra ctx.now B.CAP (map abs ys.now) }
    ensures { result ≡ all_absorb (absorbs_of B.algebra ctx.now) (map abs xs.now) (map abs ys.now) }
{
    for i in 0..xs.len().min(ys.len()) {
        if !xs[i].absorbs(ctx, &ys[i]) {
            return false;
        }
    }
    true
}
