//! Group arguments: for each function, by its number, a list or none.

ghost use Rattle.std.specs.Prelude.{◌≡◌, map, option_map, IfOk, IfSome};
ghost use Rattle.abstract_value_laws.specs.Calls.{absorbs_of};
ghost use Rattle.support_tail_fixpoint.specs.Groups.{each_absorbs, held, join_some, merge_each, only, some_absorbs};
ghost use Rattle.abstract_value.specs.View.{abs};
ghost use Rattle.abstract_value.specs.Ways.{merged};
ghost use Rattle.abstract_semantics.specs.Calls.{all_absorb};
ghost use Rattle.abstract_semantics.specs.Terms.{merge_all};
ghost use Rattle.eval_group_turns.specs.Fitting.{EachFits, ListFits};
ghost use Rattle.eval_group_turns.specs.Views.{all_abs, each_abs, group_args};

use super::lists::{copy_list, lists_absorb, merge_lists};
use abstract_value::{AbstractValue, Way, put};
use base_trait::Base;
use std::alloc::{AllocError as NoMemory, Global};

/// Group arguments that hold a list for one function alone.
pub fn only<B: Base>(
    alloc: Global,
    fun: u32,
    args: Vec<AbstractValue<B>>,
) -> Result<Vec<Option<Vec<AbstractValue<B>>>>, NoMemory>
    ensures { IfOk result (λ r. group_args r ≡ only fun (all_abs args)) }
{
    let mut out = Vec::with_capacity(alloc, fun as usize + 1)?;
    for _function in 0..fun {
        put(&mut out, None)?;
    }
    put(&mut out, Some(args))?;
    Ok(out)
}

/// The list of a function, if there is one.
pub fn arguments_of<B: Base>(
    args: &[Option<Vec<AbstractValue<B>>>],
    fun: usize,
) -> Option<&Vec<AbstractValue<B>>>
    ensures { option_map (λ xs. all_abs xs.now) result ≡ held (each_abs args.now) fun }
{
    match args.get(fun) {
        Some(Some(xs)) => Some(xs),
        Some(None) => None,
        None => None,
    }
}

/// The same group arguments once more.
pub fn copy_groups<B: Base>(
    alloc: Global,
    ctx: &B::Ctx,
    args: &[Option<Vec<AbstractValue<B>>>],
) -> Result<Vec<Option<Vec<AbstractValue<B>>>>, NoMemory>
    ensures { IfOk result (λ r. group_args r ≡ each_abs args.now) }
{
    let mut out = Vec::with_capacity(alloc, args.len())?;
    for xs in args {
        put(&mut out, copy_arguments(alloc, ctx, xs)?)?;
    }
    Ok(out)
}

/// The same list once more, if there is one.
fn copy_arguments<B: Base>(
    alloc: Global,
    ctx: &B::Ctx,
    xs: &Option<Vec<AbstractValue<B>>>,
) -> Result<Option<Vec<AbstractValue<B>>>, NoMemory>
    ensures { IfOk result (λ r. option_map all_abs r ≡ option_map all_abs xs.now) }
{
    match xs {
        Some(xs) => Ok(Some(copy_list(alloc, ctx, xs)?)),
        None => Ok(None),
    }
}

/// Group arguments merged, function by function. A list that the other side lacks comes as it is.
pub fn merge_groups<B: Base>(
    alloc: Global,
    ctx: &B::Ctx,
    way: Way,
    xs: &[Option<Vec<AbstractValue<B>>>],
    ys: &[Option<Vec<AbstractValue<B>>>],
) -> Result<Vec<Option<Vec<AbstractValue<B>>>>, NoMemory>
    requires left { EachFits B.algebra ctx.now B.CAP (each_abs xs.now) }
    requires right { EachFits B.algebra ctx.now B.CAP (each_abs ys.now) }
    ensures { IfOk result (λ r. group_args r ≡ merge_each (merge_all (merged B.algebra ctx.now B.CAP way)) (each_abs xs.now) (each_abs ys.now)) }
{
    let mut out = Vec::new(alloc);
    for i in 0..xs.len().max(ys.len()) {
        put(
            &mut out,
            merge_held(alloc, ctx, way, arguments_of(xs, i), arguments_of(ys, i))?,
        )?;
    }
    Ok(out)
}

/// Two lists merged, either of which may be missing.
fn merge_held<B: Base>(
    alloc: Global,
    ctx: &B::Ctx,
    way: Way,
    x: Option<&Vec<AbstractValue<B>>>,
    y: Option<&Vec<AbstractValue<B>>>,
) -> Result<Option<Vec<AbstractValue<B>>>, NoMemory>
    requires left { IfSome x (λ xs. ListFits B.algebra ctx.now B.CAP (all_abs xs.now)) }
    requires right { IfSome y (λ ys. ListFits B.algebra ctx.now B.CAP (all_abs ys.now)) }
    ensures { IfOk result (λ r. option_map all_abs r ≡ join_some (merge_all (merged B.algebra ctx.now B.CAP way)) (option_map (λ xs. all_abs xs.now) x.entry) (option_map (λ ys. all_abs ys.now) y.entry)) }
{
    match (x, y) {
        (Some(x), Some(y)) => Ok(Some(merge_lists(alloc, ctx, way, x, y)?)),
        (Some(x), None) => Ok(Some(copy_list(alloc, ctx, x)?)),
        (None, Some(y)) => Ok(Some(copy_list(alloc, ctx, y)?)),
        (None, None) => Ok(None),
    }
}

/// Whether group arguments absorb others, function by function. A list absorbs one that is missing.
pub fn groups_absorb<B: Base>(
    ctx: &B::Ctx,
    xs: &[Option<Vec<AbstractValue<B>>>],
    ys: &[Option<Vec<AbstractValue<B>>>],
) -> bool
    requires old { EachFits B.algebra ctx.now B.CAP (each_abs xs.now) }
    requires new { EachFits B.algebra ctx.now B.CAP (each_abs ys.now) }
    ensures { result ≡ each_absorbs (all_absorb (absorbs_of B.algebra ctx.now)) (each_abs xs.now) (each_abs ys.now) }
{
    for i in 0..ys.len() {
        if !held_absorbs::<B>(ctx, arguments_of(xs, i), arguments_of(ys, i)) {
            return false;
        }
    }
    true
}

/// Whether a list absorbs another, either of which may be missing.
fn held_absorbs<B: Base>(
    ctx: &B::Ctx,
    x: Option<&Vec<AbstractValue<B>>>,
    y: Option<&Vec<AbstractValue<B>>>,
) -> bool
    requires old { IfSome x (λ xs. ListFits B.algebra ctx.now B.CAP (all_abs xs.now)) }
    requires new { IfSome y (λ ys. ListFits B.algebra ctx.now B.CAP (all_abs ys.now)) }
    ensures { result ≡ some_absorbs (all_absorb (absorbs_of B.algebra ctx.now)) (option_map (λ xs. all_abs xs.now) x.entry) (option_map (λ ys. all_abs ys.now) y.entry) }
{
    match (x, y) {
        (Some(x), Some(y)) => lists_absorb(ctx, x, y),
        (None, Some(_y)) => false,
        (_, None) => true,
    }
}
