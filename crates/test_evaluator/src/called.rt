//! Calls of functions, each made twice with one memo.

ghost use Rattle.std.specs.Prelude.{◌≡◌, ◌<◌, map};
ghost use Rattle.abstract_value.specs.View.{abs};
ghost use Rattle.abstract_semantics.specs.Calls.{AreArguments};
ghost use Rattle.eval_memo.specs.Memos.{entries};
ghost use Rattle.eval_memo.specs.Settings.{spec_of};
ghost use Rattle.evaluator.specs.Calls.{IsRight, MayEvaluate};

use crate::text::push_given;
use abstract_value::AbstractValue;
use base_trait::Log;
use eval_memo::{Memo, Setting, copy_all, memo_len, memo_new};
use evaluator::eval;
use std::alloc::{AllocError as NoMemory, Global};
use std::marker::Brand;
use std::sync::ledger::{Blank, Ledger};
use support_step_counter::Steps;
use text_words::BaseText;

/// Appends what a call gives. As many steps are ticked as entries are added to the memo.
fn push_call<B: BaseText, L: Ledger>(
    alloc: Global,
    out: &mut String,
    what: &str,
    setting: &Setting<B>,
    function: u32,
    args: &[AbstractValue<B>],
    memo: &mut Memo<B>,
    steps: &mut Steps<L>,
) -> Result<(), NoMemory>
    requires ready { MayEvaluate B.algebra B.CAP setting.now }
    requires args { AreArguments B.algebra setting.now.ctx.now B.CAP (spec_of setting.now) function (map abs args.now) }
    requires memo { IsRight B.algebra B.CAP setting.now (entries memo.old) }
    ensures { IsRight B.algebra B.CAP setting.now (entries memo.new) }
{
    let before = memo_len(memo);
    let args = copy_all(alloc, setting.ctx, args)?;
    let mut log = Log::new(alloc);
    let given = eval::<B, L>(alloc, setting, function, args, memo, steps, &mut log);
    let kept = memo_len(memo);
    let ticked = kept.saturating_sub(before);
    match write!(out, "    {what}: {ticked} ticked, {kept} kept, ") {
        Ok(()) => push_given(out, setting.spec, &given, &log),
        Err(error) => Err(error),
    }
}

/// Appends what a call gives twice.
fn push_calls<B: BaseText, L: Ledger>(
    alloc: Global,
    out: &mut String,
    setting: &Setting<B>,
    function: u32,
    args: &[AbstractValue<B>],
    memo: &mut Memo<B>,
    steps: &mut Steps<L>,
) -> Result<(), NoMemory>
    requires ready { MayEvaluate B.algebra B.CAP setting.now }
    requires args { AreArguments B.algebra setting.now.ctx.now B.CAP (spec_of setting.now) function (map abs args.now) }
    requires memo { IsRight B.algebra B.CAP setting.now (entries memo.old) }
{
    push_call(alloc, out, "once", setting, function, args, memo, steps)?;
    push_call(alloc, out, "again", setting, function, args, memo, steps)
}

/// What a call gives twice, where the counter is of this blank.
fn counted<B: BaseText, L: Ledger>(
    alloc: Global,
    setting: &Setting<B>,
    function: u32,
    args: &[AbstractValue<B>],
    blank: Blank,
) -> Result<String, NoMemory>
    requires name { blank.name ≡ L.name }
    requires parts { blank.parts ≡ L.parts }
    requires some { 0 < blank.parts }
    requires ready { MayEvaluate B.algebra B.CAP setting.now }
    requires args { AreArguments B.algebra setting.now.ctx.now B.CAP (spec_of setting.now) function (map abs args.now) }
{
    let mut memo = memo_new(alloc);
    let mut steps: Steps<L> = Steps::new(blank);
    let mut out = String::new(alloc);
    push_calls(
        alloc, &mut out, setting, function, args, &mut memo, &mut steps,
    )?;
    Ok(out)
}

/// What a call gives twice, with a memo and a counter of its own.
pub(crate) fn called<B: BaseText>(
    alloc: Global,
    setting: &Setting<B>,
    function: u32,
    args: &[AbstractValue<B>],
) -> Result<String, NoMemory>
    requires ready { MayEvaluate B.algebra B.CAP setting.now }
    requires args { AreArguments B.algebra setting.now.ctx.now B.CAP (spec_of setting.now) function (map abs args.now) }
{
    counted::<B, Brand>(alloc, setting, function, args, Blank::new(1))
}
