//! Calls of functions.

ghost use Rattle.std.specs.Prelude.{◌≡◌, ◌++◌, ◌+◌, ◌<◌, length, map, IfOk, IfSome, OnOk};
ghost use Rattle.base_trait.specs.Lists.{IsGrown};
ghost use Rattle.base_trait.specs.Uses.{uses_of};
ghost use Rattle.abstract_value_laws.specs.Fits.{Fits};
ghost use Rattle.abstract_value.specs.View.{abs};
ghost use Rattle.abstract_semantics.specs.Answers.{behind};
ghost use Rattle.abstract_semantics.specs.Calls.{AreArguments};
ghost use Rattle.abstract_semantics.specs.CallAnswers.{answers};
ghost use Rattle.eval_memo.specs.Given.{Gives};
ghost use Rattle.eval_memo.specs.Memos.{Holds, Stands, entries};
ghost use Rattle.eval_memo.specs.Ready.{IsReady};
ghost use Rattle.eval_memo.specs.Settings.{spec_of};
ghost use Rattle.evaluator.specs.Calls.{IsRight, MayEvaluate, calls_of};

use crate::evaluate::{evaluate_activation, value_of_call};
use crate::known::{Defined, Placed};
use abstract_value::AbstractValue;
use base_trait::{Base, Log};
use eval_memo::{EvalError, Memo, Setting, append, memo_new};
use std::alloc::{AllocError as NoMemory, Global};
use std::marker::Brand;
use std::sync::ledger::{Blank, Ledger};
use support_step_counter::Steps;

/// How many branches and plans may stand within one another, over all calls that are underway. A call of another group
/// counts as one more. Deeper evaluations answer `NoMemory`, since each takes up to 7 KiB of the stack, over the base that takes most.
const MOST_NESTED: u32 = 1_200;

/// The value of a call, or none; its reads are added to the log.
///
/// The memo is one of the same setting. A call that it holds is not evaluated again; one of a function of the specification that is new
/// is kept there, and ticks one step. `OutOfFuel` names the function of the first activation that had no turn left. After an error the memo
/// and the log may have grown. Where more than 1,200 branches and plans stand within one another, over all calls
/// that are underway, each of which counts as one more, there is no memory for them.
pub fn eval<B: Base, L: Ledger>(
    alloc: Global,
    setting: &Setting<B>,
    function: u32,
    args: Vec<AbstractValue<B>>,
    memo: &mut Memo<B>,
    steps: &mut Steps<L>,
    log: &mut Log,
) -> Result<Option<AbstractValue<B>>, EvalError>
    requires ready { MayEvaluate B.algebra B.CAP setting.now }
    requires args { AreArguments B.algebra setting.now.ctx.now B.CAP (spec_of setting.now) function (map abs args.items) }
    requires memo { IsRight B.algebra B.CAP setting.now (entries memo.old) }
    ensures value { Gives abs result (uses_of log.new) (behind (uses_of log.old) (calls_of B.algebra B.CAP setting.now function (map abs args.items))) }
    ensures fits { IfOk result (λ r. IfSome r (λ v. Fits B.algebra setting.now.ctx.now B.CAP (abs v))) }
    ensures memo { IsRight B.algebra B.CAP setting.now (entries memo.new) }
    ensures counted { length (entries memo.new) + steps.old ≡ length (entries memo.old) + steps.new }
    ensures grown { IsGrown (uses_of log.old) (uses_of log.new) }
    ensures kept { IsGrown (entries memo.old) (entries memo.new) }
    ensures held { IfOk result (λ _. function < length (spec_of setting.now).funs → Holds function (map abs args.items) (entries memo.new)) }
    ensures known { Holds function (map abs args.items) (entries memo.old) → entries memo.new ≡ entries memo.old }
{
    evaluate_known::<B, Brand, L>(alloc, setting, function, args, memo, steps, log)
}

/// The same with a memo and a counter of its own.
pub fn eval_anew<B: Base>(
    alloc: Global,
    setting: &Setting<B>,
    function: u32,
    args: Vec<AbstractValue<B>>,
    log: &mut Log,
) -> Result<Option<AbstractValue<B>>, EvalError>
    requires ready { MayEvaluate B.algebra B.CAP setting.now }
    requires args { AreArguments B.algebra setting.now.ctx.now B.CAP (spec_of setting.now) function (map abs args.items) }
    ensures value { Gives abs result (uses_of log.new) (behind (uses_of log.old) (calls_of B.algebra B.CAP setting.now function (map abs args.items))) }
    ensures fits { IfOk result (λ r. IfSome r (λ v. Fits B.algebra setting.now.ctx.now B.CAP (abs v))) }
    ensures grown { IsGrown (uses_of log.old) (uses_of log.new) }
{
    evaluate_counted::<B, Brand>(alloc, setting, function, args, Blank::new(1), log)
}

/// The same, where the counter is of this blank.
fn evaluate_counted<B: Base, L: Ledger>(
    alloc: Global,
    setting: &Setting<B>,
    function: u32,
    args: Vec<AbstractValue<B>>,
    blank: Blank,
    log: &mut Log,
) -> Result<Option<AbstractValue<B>>, EvalError>
    requires name { blank.name ≡ L.name }
    requires parts { blank.parts ≡ L.parts }
    requires some { 0 < blank.parts }
    requires ready { MayEvaluate B.algebra B.CAP setting.now }
    requires args { AreArguments B.algebra setting.now.ctx.now B.CAP (spec_of setting.now) function (map abs args.items) }
    ensures value { Gives abs result (uses_of log.new) (behind (uses_of log.old) (calls_of B.algebra B.CAP setting.now function (map abs args.items))) }
    ensures fits { IfOk result (λ r. IfSome r (λ v. Fits B.algebra setting.now.ctx.now B.CAP (abs v))) }
    ensures grown { IsGrown (uses_of log.old) (uses_of log.new) }
{
    let mut memo = memo_new(alloc);
    let mut steps: Steps<L> = Steps::new(blank);
    let value = evaluate_unkept::<B, Brand, L>(
        alloc, setting, function, args, &mut memo, &mut steps, log,
    );
    drop(memo);
    value
}

/// The same as `evaluate_known`, where the call itself is not kept, since nobody can ask for it again.
fn evaluate_unkept<B: Base, K: Placed, L: Ledger>(
    alloc: Global,
    setting: &Setting<B>,
    function: u32,
    args: Vec<AbstractValue<B>>,
    memo: &mut Memo<B>,
    steps: &mut Steps<L>,
    log: &mut Log,
) -> Result<Option<AbstractValue<B>>, EvalError>
    requires ready { IsReady B.algebra B.CAP setting.now K.spec (answers B.algebra setting.now.ctx.now B.CAP K.spec K.at K.policy) }
    requires args { AreArguments B.algebra setting.now.ctx.now B.CAP (spec_of setting.now) function (map abs args.items) }
    requires memo { Stands (answers B.algebra setting.now.ctx.now B.CAP K.spec K.at K.policy) K.before K.ticked (entries memo.old) steps.old }
    ensures value { Gives abs result (uses_of log.new) (behind (uses_of log.old) (answers B.algebra setting.now.ctx.now B.CAP K.spec K.at K.policy function (map abs args.items))) }
    ensures fits { IfOk result (λ r. IfSome r (λ v. Fits B.algebra setting.now.ctx.now B.CAP (abs v))) }
    ensures grown { IsGrown (uses_of log.old) (uses_of log.new) }
{
    if function as usize >= setting.spec.funs.len() {
        drop(args);
        return Ok(None);
    }
    let mut own = Log::new(alloc);
    let result = evaluate_activation::<B, Defined<K>, L>(
        alloc,
        setting,
        MOST_NESTED,
        function,
        &args,
        memo,
        steps,
        &mut own,
    );
    drop(args);
    match result {
        Ok(value) => Ok(add_reads::<B>(alloc, own, value, log)?),
        Err(error) => {
            drop(own);
            Err(error)
        }
    }
}

/// The value, once the reads of its own log are added.
fn add_reads<B: Base>(
    alloc: Global,
    own: Log,
    value: Option<AbstractValue<B>>,
    log: &mut Log,
) -> Result<Option<AbstractValue<B>>, NoMemory>
    ensures value { IfOk result (λ r. r ≡ value) }
    ensures log { OnOk result (uses_of log.new ≡ uses_of log.old ++ uses_of own) }
    ensures grown { IsGrown (uses_of log.old) (uses_of log.new) }
{
    let result = append(alloc, log, &own);
    drop(own);
    match result {
        Ok(()) => Ok(value),
        Err(error) => {
            drop(value);
            Err(error)
        }
    }
}

/// The same as `eval`, where what is known of the setting, of the memo and of the steps is picked by the caller's proof.
fn evaluate_known<B: Base, K: Placed, L: Ledger>(
    alloc: Global,
    setting: &Setting<B>,
    function: u32,
    args: Vec<AbstractValue<B>>,
    memo: &mut Memo<B>,
    steps: &mut Steps<L>,
    log: &mut Log,
) -> Result<Option<AbstractValue<B>>, EvalError>
    requires ready { IsReady B.algebra B.CAP setting.now K.spec (answers B.algebra setting.now.ctx.now B.CAP K.spec K.at K.policy) }
    requires args { AreArguments B.algebra setting.now.ctx.now B.CAP (spec_of setting.now) function (map abs args.items) }
    requires memo { Stands (answers B.algebra setting.now.ctx.now B.CAP K.spec K.at K.policy) K.before K.ticked (entries memo.old) steps.old }
    ensures value { Gives abs result (uses_of log.new) (behind (uses_of log.old) (answers B.algebra setting.now.ctx.now B.CAP K.spec K.at K.policy function (map abs args.items))) }
    ensures fits { IfOk result (λ r. IfSome r (λ v. Fits B.algebra setting.now.ctx.now B.CAP (abs v))) }
    ensures memo { Stands (answers B.algebra setting.now.ctx.now B.CAP K.spec K.at K.policy) K.before K.ticked (entries memo.new) steps.new }
    ensures grown { IsGrown (uses_of log.old) (uses_of log.new) }
    ensures kept { IsGrown (entries memo.old) (entries memo.new) }
    ensures held { IfOk result (λ _. function < length (spec_of setting.now).funs → Holds function (map abs args.items) (entries memo.new)) }
    ensures known { Holds function (map abs args.items) (entries memo.old) → entries memo.new ≡ entries memo.old }
{
    if function as usize >= setting.spec.funs.len() {
        drop(args);
        return Ok(None);
    }
    value_of_call::<B, Defined<K>, L>(
        alloc,
        setting,
        MOST_NESTED,
        function,
        args,
        memo,
        steps,
        log,
    )
}
