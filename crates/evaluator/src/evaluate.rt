//! The evaluator: nodes, turns and calls.

ghost use Rattle.std.specs.Prelude.{◌≡◌, ◌++◌, [], ◌∷◌, ◌<◌, Some, None, true, false, length, map, option_map, All, IfOk, IfSome};
ghost use Rattle.base_trait.specs.Uses.{uses_of};
ghost use Rattle.abstract_value_laws.specs.Fits.{Fits};
ghost use Rattle.abstract_value.specs.View.{abs};
ghost use Rattle.abstract_semantics.specs.Calls.{AreArguments};
ghost use Rattle.support_tail_fixpoint.specs.Answer.{gives};
ghost use Rattle.support_tail_fixpoint.specs.Groups.{only};
ghost use Rattle.eval_activation.specs.Views.{all_abs, yield};
ghost use Rattle.eval_code.specs.Asks.{AsksWithin, EndAsksWithin};
ghost use Rattle.eval_code.specs.Code as code;
ghost use Rattle.eval_code.specs.Views.{end, node, stretch, tail};
ghost use Rattle.eval_memo.specs.Memos.{entries};
ghost use Rattle.eval_memo.specs.Ready.{AreGroupArgs, ArgsOf, YieldFits};
ghost use Rattle.eval_memo.specs.Settings as of;
ghost use Rattle.eval_memo.specs.Settings.{group_of, spec_of};
ghost use Rattle.eval_nodes.specs.Plain.{call_value};
ghost use Rattle.eval_plans.specs.Plans.{PlanFits};
ghost use Rattle.eval_plans.specs.Views.{plan as plan_of};
ghost use Rattle.evaluator.specs.Arms as arms_are;
ghost use Rattle.evaluator.specs.Arms.{ArmsAskWithin, BranchAsksWithin, IsChoice};
ghost use Rattle.evaluator.specs.Runs.{MayRun, Runs, RunsCall, RunsNodes};
ghost use Rattle.evaluator.specs.Views.{arms as arms_of, branch as branch_of};

use crate::arms::{Arms, Branch, arm_at};
use crate::choices::{plan_end, plan_node};
use crate::joins::joined_all;
use crate::lists::{append_all, pushed};
use crate::slots::{ask_turn, copy_slot, frame_of, push_value};
use abstract_value::AbstractValue;
use base_trait::{Base, Log};
use eval_activation::{
    ActivationStep, Activity, TurnYield, advance, args_of, asks_again, begin, join_given, leaf,
    value_in,
};
use eval_code::{End, Node, Stretch, Tail};
use eval_memo::{EvalError, Known, Memo, Setting, body_of, group_of, recall_call, record_call};
use eval_nodes::{copies, plain_value, read_on};
use eval_plans::Plan;
use std::alloc::Global;
use std::sync::ledger::Ledger;
use support_step_counter::Steps;

/// How much room a call takes besides that of the tail of its function. It takes about twice as much stack as a tail does.
const CALL: u32 = 1;

/// Runs nodes one after another, each of which writes the next slot. Says whether all had values.
#[cycle(eval)]
fn run_nodes<B: Base, K: Known<B>, L: Ledger>(
    alloc: Global,
    setting: &Setting<B>,
    room: u32,
    frame: &mut Vec<AbstractValue<B>>,
    nodes: &[Node],
    memo: &mut Memo<B>,
    steps: &mut Steps<L>,
    log: &mut Log,
) -> Result<bool, EvalError>
    requires known { MayRun B.algebra B.CAP setting.now K.spec (K.calls setting.now.ctx.now) K.before K.ticked frame.old.items (entries memo.old) steps.old }
    ensures { RunsNodes B.algebra B.CAP setting.now K.spec (K.calls setting.now.ctx.now) K.before K.ticked result (uses_of log.old) (uses_of log.new) (arms_are.frame_behind B.algebra B.CAP (K.calls setting.now.ctx.now) setting.now (map abs frame.old.items) (code.nodes (map node nodes.now)) (uses_of log.old)) frame.old.items frame.new.items (entries memo.old) (entries memo.new) steps.new }
{
    for n in nodes {
        match evaluate_node::<B, K, L>(alloc, setting, room, frame, n, memo, steps, log)? {
            Some(v) => push_value(frame, v)?,
            None => return Ok(false),
        }
    }
    Ok(true)
}

/// The value of a node. Its operands are read in place.
#[cycle(eval)]
fn evaluate_node<B: Base, K: Known<B>, L: Ledger>(
    alloc: Global,
    setting: &Setting<B>,
    room: u32,
    frame: &mut Vec<AbstractValue<B>>,
    n: &Node,
    memo: &mut Memo<B>,
    steps: &mut Steps<L>,
    log: &mut Log,
) -> Result<Option<AbstractValue<B>>, EvalError>
    requires known { MayRun B.algebra B.CAP setting.now K.spec (K.calls setting.now.ctx.now) K.before K.ticked frame.old.items (entries memo.old) steps.old }
    ensures { Runs B.algebra B.CAP setting.now K.spec (K.calls setting.now.ctx.now) K.before K.ticked abs (λ v. Fits B.algebra setting.now.ctx.now B.CAP (abs v)) result (uses_of log.old) (uses_of log.new) (arms_are.value_of_node B.algebra B.CAP (K.calls setting.now.ctx.now) setting.now (map abs frame.old.items) (node n.now) (uses_of log.old)) frame.old.items frame.new.items (entries memo.old) (entries memo.new) steps.new }
{
    match n {
        Node::If { .. } | Node::Choose { .. } => {
            evaluate_choice::<B, K, L>(alloc, setting, room, frame, n, memo, steps, log)
        }
        Node::Call { fun, args } => {
            evaluate_call::<B, K, L>(alloc, setting, room, frame, *fun, args, memo, steps, log)
        }
        Node::Get { map, x, key } => {
            Ok(read_on(alloc, setting.ctx, frame, *map, *x, *key, log)?)
        }
        Node::Flag(_)
        | Node::Word { .. }
        | Node::Un { .. }
        | Node::Bin { .. }
        | Node::Test { .. }
        | Node::Cast { .. }
        | Node::Make { .. }
        | Node::Put { .. } => {
            Ok(plain_value(alloc, setting.ctx, setting.spec, setting.at, frame, n)?)
        }
    }
}

/// The joined values of the arms of a node that may follow. (A stretch asks for no turn, so that the group says nothing.)
#[cycle(eval)]
fn evaluate_choice<B: Base, K: Known<B>, L: Ledger>(
    alloc: Global,
    setting: &Setting<B>,
    room: u32,
    frame: &mut Vec<AbstractValue<B>>,
    n: &Node,
    memo: &mut Memo<B>,
    steps: &mut Steps<L>,
    log: &mut Log,
) -> Result<Option<AbstractValue<B>>, EvalError>
    requires known { MayRun B.algebra B.CAP setting.now K.spec (K.calls setting.now.ctx.now) K.before K.ticked frame.old.items (entries memo.old) steps.old }
    requires choice { IsChoice (node n.now) }
    ensures { Runs B.algebra B.CAP setting.now K.spec (K.calls setting.now.ctx.now) K.before K.ticked abs (λ v. Fits B.algebra setting.now.ctx.now B.CAP (abs v)) result (uses_of log.old) (uses_of log.new) (arms_are.value_of_node B.algebra B.CAP (K.calls setting.now.ctx.now) setting.now (map abs frame.old.items) (node n.now) (uses_of log.old)) frame.old.items frame.new.items (entries memo.old) (entries memo.new) steps.new }
{
    let Some(plan) = plan_node(alloc, setting.ctx, frame, n)? else {
        return Ok(None);
    };
    let arms = Arms::OfNode(n);
    let given = evaluate_plan::<B, K, L>(
        alloc, setting, room, 0, frame, arms, plan, memo, steps, log,
    )?;
    Ok(value_in(given))
}

/// The value of a call on slots. A function that is not there has none.
#[cycle(eval)]
fn evaluate_call<B: Base, K: Known<B>, L: Ledger>(
    alloc: Global,
    setting: &Setting<B>,
    room: u32,
    frame: &[AbstractValue<B>],
    fun: u32,
    args: &[u32],
    memo: &mut Memo<B>,
    steps: &mut Steps<L>,
    log: &mut Log,
) -> Result<Option<AbstractValue<B>>, EvalError>
    requires known { MayRun B.algebra B.CAP setting.now K.spec (K.calls setting.now.ctx.now) K.before K.ticked frame.now (entries memo.old) steps.old }
    ensures { Runs B.algebra B.CAP setting.now K.spec (K.calls setting.now.ctx.now) K.before K.ticked abs (λ v. Fits B.algebra setting.now.ctx.now B.CAP (abs v)) result (uses_of log.old) (uses_of log.new) (call_value (K.calls setting.now.ctx.now) (map abs frame.now) fun args.now (uses_of log.old)) [] [] (entries memo.old) (entries memo.new) steps.new }
{
    if fun as usize >= setting.spec.funs.len() {
        return Ok(None);
    }
    let Some(args) = copies(alloc, setting.ctx, frame, args)? else {
        return Ok(None);
    };
    value_of_call::<B, K, L>(alloc, setting, room, fun, args, memo, steps, log)
}

/// The value of a stretch. Its slots are let go behind it. Where no room is left to nest it in what is underway, memory has run out.
#[cycle(eval)]
fn evaluate_stretch<B: Base, K: Known<B>, L: Ledger>(
    alloc: Global,
    setting: &Setting<B>,
    room: u32,
    frame: &mut Vec<AbstractValue<B>>,
    s: &Stretch,
    memo: &mut Memo<B>,
    steps: &mut Steps<L>,
    log: &mut Log,
) -> Result<Option<AbstractValue<B>>, EvalError>
    requires known { MayRun B.algebra B.CAP setting.now K.spec (K.calls setting.now.ctx.now) K.before K.ticked frame.old.items (entries memo.old) steps.old }
    ensures { Runs B.algebra B.CAP setting.now K.spec (K.calls setting.now.ctx.now) K.before K.ticked abs (λ v. Fits B.algebra setting.now.ctx.now B.CAP (abs v)) result (uses_of log.old) (uses_of log.new) (arms_are.value_of_stretch B.algebra B.CAP (K.calls setting.now.ctx.now) setting.now (map abs frame.old.items) (stretch s.now) (uses_of log.old)) frame.old.items frame.new.items (entries memo.old) (entries memo.new) steps.new }
{
    if room == 0 {
        return Err(EvalError::NoMemory);
    }
    let outer = frame.len();
    let all = run_nodes::<B, K, L>(alloc, setting, room - 1, frame, &s.nodes, memo, steps, log)?;
    if !all {
        frame.truncate(outer);
        return Ok(None);
    }
    let v = copy_slot(alloc, setting.ctx, frame, s.slot)?;
    frame.truncate(outer);
    Ok(v)
}

/// What a tail gives to a turn. Its slots are let go behind it. Where no room is left to nest it in what is underway, memory has run out.
#[cycle(eval)]
fn evaluate_tail<B: Base, K: Known<B>, L: Ledger>(
    alloc: Global,
    setting: &Setting<B>,
    room: u32,
    group: u32,
    frame: &mut Vec<AbstractValue<B>>,
    t: &Tail,
    memo: &mut Memo<B>,
    steps: &mut Steps<L>,
    log: &mut Log,
) -> Result<Option<TurnYield<B>>, EvalError>
    requires known { MayRun B.algebra B.CAP setting.now K.spec (K.calls setting.now.ctx.now) K.before K.ticked frame.old.items (entries memo.old) steps.old }
    requires asks { AsksWithin (length (spec_of setting.now).funs) (group_of setting.now) group (tail t.now) }
    ensures { Runs B.algebra B.CAP setting.now K.spec (K.calls setting.now.ctx.now) K.before K.ticked yield (λ y. YieldFits B.algebra B.CAP setting.now group (yield y)) result (uses_of log.old) (uses_of log.new) (arms_are.given_tail B.algebra B.CAP (K.calls setting.now.ctx.now) setting.now (map abs frame.old.items) (tail t.now) (uses_of log.old)) frame.old.items frame.new.items (entries memo.old) (entries memo.new) steps.new }
{
    if room == 0 {
        return Err(EvalError::NoMemory);
    }
    let room = room - 1;
    let outer = frame.len();
    let all = run_nodes::<B, K, L>(alloc, setting, room, frame, &t.nodes, memo, steps, log)?;
    if !all {
        frame.truncate(outer);
        return Ok(None);
    }
    let given = evaluate_end::<B, K, L>(
        alloc, setting, room, group, frame, &t.end, memo, steps, log,
    )?;
    frame.truncate(outer);
    Ok(given)
}

/// What follows the nodes of a tail.
#[cycle(eval)]
fn evaluate_end<B: Base, K: Known<B>, L: Ledger>(
    alloc: Global,
    setting: &Setting<B>,
    room: u32,
    group: u32,
    frame: &mut Vec<AbstractValue<B>>,
    e: &End,
    memo: &mut Memo<B>,
    steps: &mut Steps<L>,
    log: &mut Log,
) -> Result<Option<TurnYield<B>>, EvalError>
    requires known { MayRun B.algebra B.CAP setting.now K.spec (K.calls setting.now.ctx.now) K.before K.ticked frame.old.items (entries memo.old) steps.old }
    requires asks { EndAsksWithin (length (spec_of setting.now).funs) (group_of setting.now) group (end e.now) }
    ensures { Runs B.algebra B.CAP setting.now K.spec (K.calls setting.now.ctx.now) K.before K.ticked yield (λ y. YieldFits B.algebra B.CAP setting.now group (yield y)) result (uses_of log.old) (uses_of log.new) (arms_are.given_end B.algebra B.CAP (K.calls setting.now.ctx.now) setting.now (map abs frame.old.items) (end e.now) (uses_of log.old)) frame.old.items frame.new.items (entries memo.old) (entries memo.new) steps.new }
{
    match e {
        End::Slot(s) => {
            let v = copy_slot(alloc, setting.ctx, frame, *s)?;
            Ok(leaf(setting, group, v))
        }
        End::Again { fun, args } => Ok(ask_turn(alloc, setting, group, frame, *fun, args)?),
        End::If { .. } | End::Pick { .. } => {
            let Some(plan) = plan_end(alloc, setting.ctx, frame, e)? else {
                return Ok(None);
            };
            let arms = Arms::OfEnd(e);
            evaluate_plan::<B, K, L>(
                alloc, setting, room, group, frame, arms, plan, memo, steps, log,
            )
        }
    }
}

/// What the arms give that a plan names. Where no room is left to nest it in what is underway, memory has run out.
///
/// It goes on in a loop at the second of two, so that many literals of one position take no more stack than one.
#[cycle(eval)]
fn evaluate_plan<B: Base, K: Known<B>, L: Ledger>(
    alloc: Global,
    setting: &Setting<B>,
    room: u32,
    group: u32,
    frame: &mut Vec<AbstractValue<B>>,
    arms: Arms<'_>,
    plan: Plan<B>,
    memo: &mut Memo<B>,
    steps: &mut Steps<L>,
    log: &mut Log,
) -> Result<Option<TurnYield<B>>, EvalError>
    requires known { MayRun B.algebra B.CAP setting.now K.spec (K.calls setting.now.ctx.now) K.before K.ticked frame.old.items (entries memo.old) steps.old }
    requires asks { ArmsAskWithin (length (spec_of setting.now).funs) (group_of setting.now) group (arms_of arms) }
    requires plan { PlanFits B.algebra setting.now.ctx.now B.CAP (plan_of plan) }
    ensures { Runs B.algebra B.CAP setting.now K.spec (K.calls setting.now.ctx.now) K.before K.ticked yield (λ y. YieldFits B.algebra B.CAP setting.now group (yield y)) result (uses_of log.old) (uses_of log.new) (arms_are.given_plan B.algebra B.CAP (K.calls setting.now.ctx.now) setting.now (map abs frame.old.items) (arms_of arms.entry) (plan_of plan) (uses_of log.old)) frame.old.items frame.new.items (entries memo.old) (entries memo.new) steps.new }
{
    if room == 0 {
        drop(plan);
        return Err(EvalError::NoMemory);
    }
    let room = room - 1;
    let mut firsts = Vec::new(alloc);
    let mut rest = plan;
    loop {
        match rest {
            Plan::Nothing => {
                return Ok(joined_all::<B, K>(alloc, setting, group, firsts, None)?);
            }
            Plan::Arm(number, named) => {
                let last = match evaluate_arm::<B, K, L>(
                    alloc, setting, room, group, frame, arms, number, named, memo, steps, log,
                ) {
                    Ok(last) => last,
                    Err(error) => {
                        drop(firsts);
                        return Err(error);
                    }
                };
                return Ok(joined_all::<B, K>(alloc, setting, group, firsts, last)?);
            }
            Plan::Both(first, second) => {
                let plan = Box::into_inner(first);
                let given = match evaluate_plan::<B, K, L>(
                    alloc, setting, room, group, frame, arms, plan, memo, steps, log,
                ) {
                    Ok(given) => given,
                    Err(error) => {
                        drop(firsts);
                        drop(second);
                        return Err(error);
                    }
                };
                firsts = match pushed(firsts, given) {
                    Ok(firsts) => firsts,
                    Err(_) => {
                        drop(second);
                        return Err(EvalError::NoMemory);
                    }
                };
                rest = Box::into_inner(second);
            }
        }
    }
}

/// What an arm gives, with the values of its variables in the next slots.
#[cycle(eval)]
fn evaluate_arm<B: Base, K: Known<B>, L: Ledger>(
    alloc: Global,
    setting: &Setting<B>,
    room: u32,
    group: u32,
    frame: &mut Vec<AbstractValue<B>>,
    arms: Arms<'_>,
    number: u32,
    named: Vec<AbstractValue<B>>,
    memo: &mut Memo<B>,
    steps: &mut Steps<L>,
    log: &mut Log,
) -> Result<Option<TurnYield<B>>, EvalError>
    requires known { MayRun B.algebra B.CAP setting.now K.spec (K.calls setting.now.ctx.now) K.before K.ticked frame.old.items (entries memo.old) steps.old }
    requires asks { ArmsAskWithin (length (spec_of setting.now).funs) (group_of setting.now) group (arms_of arms) }
    requires named { All (Fits B.algebra setting.now.ctx.now B.CAP) (map abs named.items) }
    ensures { Runs B.algebra B.CAP setting.now K.spec (K.calls setting.now.ctx.now) K.before K.ticked yield (λ y. YieldFits B.algebra B.CAP setting.now group (yield y)) result (uses_of log.old) (uses_of log.new) (arms_are.given_arm B.algebra B.CAP (K.calls setting.now.ctx.now) setting.now (map abs frame.old.items) (arms_of arms.entry) number (map abs named.items) (uses_of log.old)) frame.old.items frame.new.items (entries memo.old) (entries memo.new) steps.new }
{
    let Some(branch) = arm_at(arms, number as usize) else {
        drop(named);
        return Ok(None);
    };
    let outer = frame.len();
    append_all(frame, named)?;
    let given = evaluate_branch::<B, K, L>(
        alloc, setting, room, group, frame, branch, memo, steps, log,
    )?;
    frame.truncate(outer);
    Ok(given)
}

/// What a branch gives to a turn: the value of a stretch is a leaf.
#[cycle(eval)]
fn evaluate_branch<B: Base, K: Known<B>, L: Ledger>(
    alloc: Global,
    setting: &Setting<B>,
    room: u32,
    group: u32,
    frame: &mut Vec<AbstractValue<B>>,
    branch: Branch<'_>,
    memo: &mut Memo<B>,
    steps: &mut Steps<L>,
    log: &mut Log,
) -> Result<Option<TurnYield<B>>, EvalError>
    requires known { MayRun B.algebra B.CAP setting.now K.spec (K.calls setting.now.ctx.now) K.before K.ticked frame.old.items (entries memo.old) steps.old }
    requires asks { BranchAsksWithin (length (spec_of setting.now).funs) (group_of setting.now) group (branch_of branch) }
    ensures { Runs B.algebra B.CAP setting.now K.spec (K.calls setting.now.ctx.now) K.before K.ticked yield (λ y. YieldFits B.algebra B.CAP setting.now group (yield y)) result (uses_of log.old) (uses_of log.new) (arms_are.given_branch B.algebra B.CAP (K.calls setting.now.ctx.now) setting.now (map abs frame.old.items) (branch_of branch.entry) (uses_of log.old)) frame.old.items frame.new.items (entries memo.old) (entries memo.new) steps.new }
{
    match branch {
        Branch::Value(s) => {
            let v = evaluate_stretch::<B, K, L>(alloc, setting, room, frame, s, memo, steps, log)?;
            Ok(leaf(setting, group, v))
        }
        Branch::Turn(t) => {
            evaluate_tail::<B, K, L>(alloc, setting, room, group, frame, t, memo, steps, log)
        }
    }
}

/// What a turn of a group gives: the bodies of the functions that have arguments, in the order of their numbers.
#[cycle(eval)]
fn evaluate_turn<B: Base, K: Known<B>, L: Ledger>(
    alloc: Global,
    setting: &Setting<B>,
    room: u32,
    group: u32,
    args: &[Option<Vec<AbstractValue<B>>>],
    memo: &mut Memo<B>,
    steps: &mut Steps<L>,
    log: &mut Log,
) -> Result<Option<TurnYield<B>>, EvalError>
    requires known { MayRun B.algebra B.CAP setting.now K.spec (K.calls setting.now.ctx.now) K.before K.ticked [] (entries memo.old) steps.old }
    requires args { AreGroupArgs B.algebra B.CAP setting.now group (map (option_map all_abs) args.now) }
    ensures { Runs B.algebra B.CAP setting.now K.spec (K.calls setting.now.ctx.now) K.before K.ticked yield (λ y. YieldFits B.algebra B.CAP setting.now group (yield y)) result (uses_of log.old) (uses_of log.new) (of.group_turn B.algebra B.CAP (K.calls setting.now.ctx.now) setting.now group (map (option_map all_abs) args.now) (uses_of log.old)) [] [] (entries memo.old) (entries memo.new) steps.new }
{
    let mut out = None;
    for i in 0..args.len() {
        out = evaluate_member::<B, K, L>(
            alloc, setting, room, group, i, &args[i], out, memo, steps, log,
        )?;
    }
    Ok(out)
}

/// What a function of the group gives, where it has arguments, joined with what is given already.
#[cycle(eval)]
fn evaluate_member<B: Base, K: Known<B>, L: Ledger>(
    alloc: Global,
    setting: &Setting<B>,
    room: u32,
    group: u32,
    number: usize,
    args: &Option<Vec<AbstractValue<B>>>,
    first: Option<TurnYield<B>>,
    memo: &mut Memo<B>,
    steps: &mut Steps<L>,
    log: &mut Log,
) -> Result<Option<TurnYield<B>>, EvalError>
    requires known { MayRun B.algebra B.CAP setting.now K.spec (K.calls setting.now.ctx.now) K.before K.ticked [] (entries memo.old) steps.old }
    requires args { IfSome (option_map all_abs args.now) (ArgsOf B.algebra B.CAP setting.now group number) }
    requires first { IfSome first (λ y. YieldFits B.algebra B.CAP setting.now group (yield y)) }
    ensures { Runs B.algebra B.CAP setting.now K.spec (K.calls setting.now.ctx.now) K.before K.ticked yield (λ y. YieldFits B.algebra B.CAP setting.now group (yield y)) result (uses_of log.old) (uses_of log.new) (of.given_bodies B.algebra B.CAP (K.calls setting.now.ctx.now) setting.now group number (option_map yield first) (option_map all_abs args.now ∷ []) (uses_of log.old)) [] [] (entries memo.old) (entries memo.new) steps.new }
{
    match args {
        Some(args) => evaluate_body::<B, K, L>(
            alloc, setting, room, group, number, args, first, memo, steps, log,
        ),
        None => Ok(first),
    }
}

/// What a function of the group gives on arguments, joined with what is given already.
#[cycle(eval)]
fn evaluate_body<B: Base, K: Known<B>, L: Ledger>(
    alloc: Global,
    setting: &Setting<B>,
    room: u32,
    group: u32,
    number: usize,
    args: &[AbstractValue<B>],
    first: Option<TurnYield<B>>,
    memo: &mut Memo<B>,
    steps: &mut Steps<L>,
    log: &mut Log,
) -> Result<Option<TurnYield<B>>, EvalError>
    requires known { MayRun B.algebra B.CAP setting.now K.spec (K.calls setting.now.ctx.now) K.before K.ticked [] (entries memo.old) steps.old }
    requires args { ArgsOf B.algebra B.CAP setting.now group number (map abs args.now) }
    requires first { IfSome first (λ y. YieldFits B.algebra B.CAP setting.now group (yield y)) }
    ensures { Runs B.algebra B.CAP setting.now K.spec (K.calls setting.now.ctx.now) K.before K.ticked yield (λ y. YieldFits B.algebra B.CAP setting.now group (yield y)) result (uses_of log.old) (uses_of log.new) (of.given_bodies B.algebra B.CAP (K.calls setting.now.ctx.now) setting.now group number (option_map yield first) (Some (map abs args.now) ∷ []) (uses_of log.old)) [] [] (entries memo.old) (entries memo.new) steps.new }
{
    let mut frame = match frame_of(alloc, setting.ctx, args) {
        Ok(frame) => frame,
        Err(_) => {
            drop(first);
            return Err(EvalError::NoMemory);
        }
    };
    let t = body_of::<B, K>(setting, number);
    let given = evaluate_tail::<B, K, L>(
        alloc, setting, room, group, &mut frame, t, memo, steps, log,
    );
    drop(frame);
    match given {
        Ok(given) => Ok(join_given::<B, K>(alloc, setting, group, first, given)?),
        Err(error) => {
            drop(first);
            Err(error)
        }
    }
}

/// The value of a call, with its own reads behind those before. A call that is held is not evaluated again; one that is new is kept.
#[cycle(eval)]
pub(crate) fn value_of_call<B: Base, K: Known<B>, L: Ledger>(
    alloc: Global,
    setting: &Setting<B>,
    room: u32,
    fun: u32,
    args: Vec<AbstractValue<B>>,
    memo: &mut Memo<B>,
    steps: &mut Steps<L>,
    log: &mut Log,
) -> Result<Option<AbstractValue<B>>, EvalError>
    requires known { MayRun B.algebra B.CAP setting.now K.spec (K.calls setting.now.ctx.now) K.before K.ticked [] (entries memo.old) steps.old }
    requires there { fun < length (spec_of setting.now).funs }
    requires args { All (Fits B.algebra setting.now.ctx.now B.CAP) (map abs args.items) }
    ensures { RunsCall B.algebra B.CAP setting.now K.spec (K.calls setting.now.ctx.now) K.before K.ticked fun (map abs args.items) result (uses_of log.old) (uses_of log.new) (entries memo.old) (entries memo.new) steps.new }
{
    match recall_call::<B, K>(alloc, setting, memo, fun, &args, log) {
        Ok(None) => {}
        Ok(Some(value)) => {
            drop(args);
            return Ok(value);
        }
        Err(_) => {
            drop(args);
            return Err(EvalError::NoMemory);
        }
    }
    let mut own = Log::new(alloc);
    let room = room.saturating_sub(CALL);
    match evaluate_activation::<B, K, L>(alloc, setting, room, fun, &args, memo, steps, &mut own) {
        Ok(value) => {
            Ok(record_call::<B, K, L>(alloc, setting, fun, args, value, own, memo, steps, log)?)
        }
        Err(error) => {
            drop(own);
            drop(args);
            Err(error)
        }
    }
}

/// The value of an activation. Where its first turn asks for no other, that is all, and there is no driver.
#[cycle(eval)]
pub(crate) fn evaluate_activation<B: Base, K: Known<B>, L: Ledger>(
    alloc: Global,
    setting: &Setting<B>,
    room: u32,
    fun: u32,
    args: &[AbstractValue<B>],
    memo: &mut Memo<B>,
    steps: &mut Steps<L>,
    own: &mut Log,
) -> Result<Option<AbstractValue<B>>, EvalError>
    requires known { MayRun B.algebra B.CAP setting.now K.spec (K.calls setting.now.ctx.now) K.before K.ticked [] (entries memo.old) steps.old }
    requires there { fun < length (spec_of setting.now).funs }
    requires args { AreArguments B.algebra setting.now.ctx.now B.CAP (spec_of setting.now) fun (map abs args.now) }
    requires own { uses_of own.old ≡ [] }
    ensures { Runs B.algebra B.CAP setting.now K.spec (K.calls setting.now.ctx.now) K.before K.ticked abs (λ v. Fits B.algebra setting.now.ctx.now B.CAP (abs v)) result (uses_of own.old) (uses_of own.new) (K.calls setting.now.ctx.now fun (map abs args.now)) [] [] (entries memo.old) (entries memo.new) steps.new }
{
    let group = group_of(setting.spec, fun);
    let number = fun as usize;
    let given = evaluate_body::<B, K, L>(
        alloc, setting, room, group, number, args, None, memo, steps, own,
    )?;
    if asks_again(&given) {
        return evaluate_further_turns::<B, K, L>(
            alloc, setting, room, fun, args, given, memo, steps, own,
        );
    }
    Ok(value_in(given))
}

/// The value of an activation whose first turn gave this.
#[cycle(eval)]
fn evaluate_further_turns<B: Base, K: Known<B>, L: Ledger>(
    alloc: Global,
    setting: &Setting<B>,
    room: u32,
    fun: u32,
    args: &[AbstractValue<B>],
    first: Option<TurnYield<B>>,
    memo: &mut Memo<B>,
    steps: &mut Steps<L>,
    own: &mut Log,
) -> Result<Option<AbstractValue<B>>, EvalError>
    requires known { MayRun B.algebra B.CAP setting.now K.spec (K.calls setting.now.ctx.now) K.before K.ticked [] (entries memo.old) steps.old }
    requires there { fun < length (spec_of setting.now).funs }
    requires args { AreArguments B.algebra setting.now.ctx.now B.CAP (spec_of setting.now) fun (map abs args.now) }
    requires first { of.group_turn B.algebra B.CAP (K.calls setting.now.ctx.now) setting.now (group_of setting.now fun) (only fun (map abs args.now)) [] ≡ gives (option_map yield first) (uses_of own.old) }
    ensures { Runs B.algebra B.CAP setting.now K.spec (K.calls setting.now.ctx.now) K.before K.ticked abs (λ v. Fits B.algebra setting.now.ctx.now B.CAP (abs v)) result (uses_of own.old) (uses_of own.new) (K.calls setting.now.ctx.now fun (map abs args.now)) [] [] (entries memo.old) (entries memo.new) steps.new }
{
    let group = group_of(setting.spec, fun);
    let mut given = first;
    let mut activity: Activity<B, K> = match begin::<B, K>(alloc, setting, fun, args) {
        Ok(activity) => activity,
        Err(_) => {
            drop(given);
            return Err(EvalError::NoMemory);
        }
    };
    loop {
        match advance::<B, K>(alloc, setting, fun, &mut activity, given) {
            Ok(ActivationStep::Again) => {}
            Ok(ActivationStep::Done(value)) => {
                drop(activity);
                return Ok(value);
            }
            Ok(ActivationStep::OutOfFuel) => {
                drop(activity);
                return Err(EvalError::OutOfFuel { function: fun });
            }
            Err(_) => {
                drop(activity);
                return Err(EvalError::NoMemory);
            }
        }
        let args = args_of(&activity);
        given = match evaluate_turn::<B, K, L>(
            alloc, setting, room, group, args, memo, steps, own,
        ) {
            Ok(given) => given,
            Err(error) => {
                drop(activity);
                return Err(error);
            }
        };
    }
}
