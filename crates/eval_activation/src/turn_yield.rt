//! What turns give.

ghost use Rattle.std.specs.Prelude.{◌≡◌, ◌<◌, Some, length, map, option_map, is_some, All, IfOk, IfSome};
ghost use Rattle.abstract_value_laws.specs.Calls.{join_of};
ghost use Rattle.abstract_value_laws.specs.Fits.{Fits};
ghost use Rattle.abstract_value.specs.View.{abs};
ghost use Rattle.abstract_semantics.specs.Terms as terms;
ghost use Rattle.support_tail_fixpoint.specs.Answer.{next_of, out_of};
ghost use Rattle.support_tail_fixpoint.specs.Groups.{join_some, merge_each};
ghost use Rattle.eval_group_turns.specs.Fitting.{EachFits};
ghost use Rattle.eval_memo.specs.Ready.{IsReady, YieldFits};
ghost use Rattle.eval_memo.specs.Settings as of;
ghost use Rattle.eval_memo.specs.Settings.{group_of, spec_of};
ghost use Rattle.eval_activation.specs.Views.{group_args, yield};

use abstract_value::{AbstractValue, Way};
use base_trait::Base;
use eval_group_turns::{merge_groups, only};
use eval_memo::{Known, Setting, are_arguments};
use std::alloc::{AllocError as NoMemory, Global};

/// The join of the leaves of a turn, and the joined group arguments of the calls within the group that it asks for:
/// of each function, by its number, an argument list or none.
#[derive(Drop)]
pub struct TurnYield<B: Base> {
    pub out: Option<AbstractValue<B>>,
    pub next: Option<Vec<Option<Vec<AbstractValue<B>>>>>,
}

/// A value in tail position.
pub fn leaf<B: Base>(
    setting: &Setting<B>,
    group: u32,
    v: Option<AbstractValue<B>>,
) -> Option<TurnYield<B>>
    requires { IfSome v (λ v. Fits B.algebra setting.now.ctx.now B.CAP (abs v)) }
    ensures value { option_map yield result ≡ option_map terms.leaf (option_map abs v) }
    ensures fits { IfSome result (λ v. YieldFits B.algebra B.CAP setting.now group (yield v)) }
{
    match v {
        Some(v) => Some(TurnYield {
            out: Some(v),
            next: None,
        }),
        None => None,
    }
}

/// The value of a leaf.
pub fn value_in<B: Base>(given: Option<TurnYield<B>>) -> Option<AbstractValue<B>>
    ensures { option_map abs result ≡ out_of (option_map yield given) }
{
    match given {
        Some(given) => given.out,
        None => None,
    }
}

/// Whether a turn that gave this asks for another.
pub fn asks_again<B: Base>(given: &Option<TurnYield<B>>) -> bool
    ensures { result ≡ is_some (next_of (option_map yield given.now)) }
{
    match given {
        Some(given) => given.next.is_some(),
        None => false,
    }
}

/// A call within the group, where the arguments have the types of the parameters.
pub fn call_in_group<B: Base>(
    alloc: Global,
    setting: &Setting<B>,
    group: u32,
    fun: u32,
    args: Vec<AbstractValue<B>>,
) -> Result<Option<TurnYield<B>>, NoMemory>
    requires there { fun < length (spec_of setting.now).funs }
    requires of_group { group_of setting.now fun ≡ group }
    requires args { All (λ v. Fits B.algebra setting.now.ctx.now B.CAP (abs v)) args.items }
    ensures value { IfOk result (λ r. option_map yield r ≡ terms.asked_with (spec_of setting.now) fun (map abs args.items)) }
    ensures fits { IfOk result (λ r. IfSome r (λ v. YieldFits B.algebra B.CAP setting.now group (yield v))) }
{
    if !are_arguments(setting.spec, fun, &args) {
        return Ok(None);
    }
    let next = only(alloc, fun, args)?;
    Ok(Some(TurnYield {
        out: None,
        next: Some(next),
    }))
}

/// The join of what is given twice, either of which may be missing.
#[inline(never)]
pub fn join_given<B: Base, K: Known<B>>(
    alloc: Global,
    setting: &Setting<B>,
    group: u32,
    x: Option<TurnYield<B>>,
    y: Option<TurnYield<B>>,
) -> Result<Option<TurnYield<B>>, NoMemory>
    requires setting { IsReady B.algebra B.CAP setting.now K.spec (K.calls setting.now.ctx.now) }
    requires left { IfSome x (λ v. YieldFits B.algebra B.CAP setting.now group (yield v)) }
    requires right { IfSome y (λ v. YieldFits B.algebra B.CAP setting.now group (yield v)) }
    ensures value { IfOk result (λ r. option_map yield r ≡ join_some (of.join_yields B.algebra B.CAP (K.calls setting.now.ctx.now) setting.now) (option_map yield x) (option_map yield y)) }
    ensures fits { IfOk result (λ r. IfSome r (λ v. YieldFits B.algebra B.CAP setting.now group (yield v))) }
{
    match (x, y) {
        (Some(x), Some(y)) => Ok(Some(TurnYield {
            out: joined_out(alloc, setting.ctx, x.out, y.out)?,
            next: joined_next(alloc, setting.ctx, x.next, y.next)?,
        })),
        (Some(x), None) => Ok(Some(x)),
        (None, y) => Ok(y),
    }
}

/// The join of two leaves, either of which may be missing.
fn joined_out<B: Base>(
    alloc: Global,
    ctx: &B::Ctx,
    x: Option<AbstractValue<B>>,
    y: Option<AbstractValue<B>>,
) -> Result<Option<AbstractValue<B>>, NoMemory>
    requires left { IfSome x (λ v. Fits B.algebra ctx.now B.CAP (abs v)) }
    requires right { IfSome y (λ v. Fits B.algebra ctx.now B.CAP (abs v)) }
    ensures { IfOk result (λ r. option_map abs r ≡ join_some (join_of B.algebra ctx.now B.CAP) (option_map abs x) (option_map abs y)) }
{
    match (x, y) {
        (Some(x), Some(y)) => Ok(Some(x.join(alloc, ctx, &y)?)),
        (Some(x), None) => Ok(Some(x)),
        (None, y) => Ok(y),
    }
}

/// The join of group arguments, either of which may be missing.
fn joined_next<B: Base>(
    alloc: Global,
    ctx: &B::Ctx,
    x: Option<Vec<Option<Vec<AbstractValue<B>>>>>,
    y: Option<Vec<Option<Vec<AbstractValue<B>>>>>,
) -> Result<Option<Vec<Option<Vec<AbstractValue<B>>>>>, NoMemory>
    requires left { IfSome x (λ args. EachFits B.algebra ctx.now B.CAP (group_args args)) }
    requires right { IfSome y (λ args. EachFits B.algebra ctx.now B.CAP (group_args args)) }
    ensures { IfOk result (λ r. option_map group_args r ≡ join_some (merge_each (terms.merge_all (join_of B.algebra ctx.now B.CAP))) (option_map group_args x) (option_map group_args y)) }
{
    match (x, y) {
        (Some(x), Some(y)) => Ok(Some(merge_groups(alloc, ctx, Way::Join, &x, &y)?)),
        (Some(x), None) => Ok(Some(x)),
        (None, y) => Ok(y),
    }
}
