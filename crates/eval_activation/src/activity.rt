//! An activation between its turns.

ghost use Rattle.std.specs.Prelude.{◌≡◌, ◌<◌, [], length, map, option_map, IfOk, IfSome, IsTrue};
ghost use Rattle.abstract_value.specs.View.{abs};
ghost use Rattle.support_tail_fixpoint.specs.Answer.{next_of, out_of};
ghost use Rattle.support_tail_fixpoint.specs.Groups as groups;
ghost use Rattle.abstract_semantics.specs.Calls.{AreArguments};
ghost use Rattle.eval_activation.specs.Activities.{After, Goes, Taken, due, measure};
ghost use Rattle.eval_memo.specs.Ready.{IsReady};
ghost use Rattle.eval_memo.specs.Settings.{spec_of};
ghost use Rattle.eval_activation.specs.Views.{all_abs, group_args, yield};
ghost use Rattle.eval_activation.specs.declared.activity.ActivationStep.TheVariants.{Again};

use crate::turn_yield::TurnYield;
use abstract_value::AbstractValue;
use base_trait::Base;
use eval_group_turns::{Specified, Turning, only};
use eval_memo::{Known, Setting, copy_all, group_of};
use std::alloc::{AllocError as NoMemory, Global};
use std::marker::PhantomData;
use support_tail_fixpoint::{Driver, DriverRequest};

/// An activation of a function.
#[derive(Drop)]
pub struct Activity<B: Base, K: Specified> {
    pub driver: Driver<Turning<B, K>>,
    pub turns: Turning<B, K>,
}

/// What follows a turn: another, the value of the activation, or that no turn is left.
#[derive(Drop)]
pub enum ActivationStep<B: Base> {
    Again,
    Done(Option<AbstractValue<B>>),
    OutOfFuel,
}

/// An activation before its first turn, on arguments, which are copied.
#[inline(never)]
pub fn begin<B: Base, K: Known<B>>(
    alloc: Global,
    setting: &Setting<B>,
    fun: u32,
    args: &[AbstractValue<B>],
) -> Result<Activity<B, K>, NoMemory>
    requires setting { IsReady B.algebra B.CAP setting.now K.spec (K.calls setting.now.ctx.now) }
    requires there { fun < length (spec_of setting.now).funs }
    requires args { AreArguments B.algebra setting.now.ctx.now B.CAP (spec_of setting.now) fun (map abs args.now) }
    ensures goes { IfOk result (λ a. Goes B.algebra B.CAP setting.now (K.calls setting.now.ctx.now) fun (map abs args.now) a []) }
    ensures first { IfOk result (λ a. due a ≡ groups.only fun (map abs args.now)) }
{
    let turns = Turning {
        ctx: B::copy_ctx(alloc, setting.ctx)?,
        group: group_of(setting.spec, fun),
        at: setting.at,
        origin: copy_all(alloc, setting.ctx, args)?,
        of: PhantomData,
    };
    let first = only(alloc, fun, copy_all(alloc, setting.ctx, args)?)?;
    let driver = Driver::new(first, setting.policy);
    Ok(Activity { driver, turns })
}

/// The group arguments of the turn that is due.
pub fn args_of<B: Base, K: Known<B>>(activity: &Activity<B, K>) -> &[Option<Vec<AbstractValue<B>>>]
    requires running { IsTrue activity.now.driver.running }
    ensures { map (option_map all_abs) result.now ≡ due activity.now }
{
    activity.driver.args()
}

/// The two sides of what a turn gives.
fn sides<B: Base>(
    given: Option<TurnYield<B>>,
) -> (
    Option<AbstractValue<B>>,
    Option<Vec<Option<Vec<AbstractValue<B>>>>>,
)
    ensures out { option_map abs result.0 ≡ out_of (option_map yield given) }
    ensures next { option_map group_args result.1 ≡ next_of (option_map yield given) }
{
    match given {
        Some(given) => (given.out, given.next),
        None => (None, None),
    }
}

/// What follows a turn that gave this. After an error nothing is known of the activation.
#[inline(never)]
pub fn advance<B: Base, K: Known<B>>(
    alloc: Global,
    setting: &Setting<B>,
    fun: u32,
    activity: &mut Activity<B, K>,
    given: Option<TurnYield<B>>,
) -> Result<ActivationStep<B>, NoMemory>
    requires setting { IsReady B.algebra B.CAP setting.now K.spec (K.calls setting.now.ctx.now) }
    requires there { fun < length (spec_of setting.now).funs }
    requires taken { Taken B.algebra B.CAP setting.now (K.calls setting.now.ctx.now) fun activity.old (option_map yield given) }
    ensures after { IfOk result (λ s. After B.algebra B.CAP setting.now (K.calls setting.now.ctx.now) fun activity.old (option_map yield given) s activity.new) }
    ensures falls { IfOk result (λ s. s ≡ Again → measure B.algebra B.CAP K.spec activity.new < measure B.algebra B.CAP K.spec activity.old) }
{
    let (out, next) = sides(given);
    match activity.driver.give(alloc, &mut activity.turns, out, next)? {
        DriverRequest::Turn => Ok(ActivationStep::Again),
        DriverRequest::Out(leaves) => Ok(ActivationStep::Done(leaves)),
        DriverRequest::OutOfFuel => Ok(ActivationStep::OutOfFuel),
    }
}
