//! Plans of the arms that may follow nodes and ends.

ghost use Rattle.std.specs.Prelude.{◌≡◌, map, option_map, slice_get, All, IfOk};
ghost use Rattle.spec_match_compiler.specs.Views.{tree};
ghost use Rattle.abstract_value_laws.specs.Fits.{Fits};
ghost use Rattle.abstract_value.specs.View.{abs};
ghost use Rattle.eval_code.specs.Views.{end, node};
ghost use Rattle.eval_plans.specs.Views.{plan as plain_plan};
ghost use Rattle.evaluator.specs.Arms as of;

use abstract_value::AbstractValue;
use base_trait::Base;
use eval_code::{End, Node};
use eval_nodes::at_slot;
use eval_operations::flag_of;
use eval_plans::{Plan, either_of_two, plan_decision};
use spec_match_compiler::Decision;
use std::alloc::{AllocError as NoMemory, Global};

/// Which arms of a node may follow: those that its condition may take, or that its decision may pick. Nothing where their slot is not
/// written.
#[inline(never)]
pub(crate) fn plan_node<B: Base>(
    alloc: Global,
    ctx: &B::Ctx,
    frame: &[AbstractValue<B>],
    n: &Node,
) -> Result<Option<Plan<B>>, NoMemory>
    requires frame { All (λ v. Fits B.algebra ctx.now B.CAP (abs v)) frame.now }
    ensures { IfOk result (λ r. option_map plain_plan r ≡ of.node_plan B.algebra ctx.now (map abs frame.now) (node n.now)) }
{
    match n {
        Node::If {
            c,
            yes: _yes,
            no: _no,
        } => plan_condition(alloc, ctx, frame, *c),
        Node::Choose { x, by, arms: _arms } => plan_choice(alloc, ctx, frame, *x, by),
        _ => Ok(None),
    }
}

/// Which tails of an end may follow.
#[inline(never)]
pub(crate) fn plan_end<B: Base>(
    alloc: Global,
    ctx: &B::Ctx,
    frame: &[AbstractValue<B>],
    e: &End,
) -> Result<Option<Plan<B>>, NoMemory>
    requires frame { All (λ v. Fits B.algebra ctx.now B.CAP (abs v)) frame.now }
    ensures { IfOk result (λ r. option_map plain_plan r ≡ of.end_plan B.algebra ctx.now (map abs frame.now) (end e.now)) }
{
    match e {
        End::If {
            c,
            yes: _yes,
            no: _no,
        } => plan_condition(alloc, ctx, frame, *c),
        End::Pick { x, by, arms: _arms } => plan_choice(alloc, ctx, frame, *x, by),
        _ => Ok(None),
    }
}

/// The arms that a condition may take: 0 where it may be true, and 1 where it may be false.
fn plan_condition<B: Base>(
    alloc: Global,
    ctx: &B::Ctx,
    frame: &[AbstractValue<B>],
    c: u32,
) -> Result<Option<Plan<B>>, NoMemory>
    requires frame { All (λ v. Fits B.algebra ctx.now B.CAP (abs v)) frame.now }
    ensures { IfOk result (λ r. option_map plain_plan r ≡ of.condition_plan (slice_get (map abs frame.now) c)) }
{
    match at_slot(ctx, frame, c) {
        Some(c) => Ok(Some(either_of_two(alloc, flag_of(c))?)),
        None => Ok(None),
    }
}

/// The arms that a decision on a slot may pick.
fn plan_choice<B: Base>(
    alloc: Global,
    ctx: &B::Ctx,
    frame: &[AbstractValue<B>],
    x: u32,
    by: &Decision,
) -> Result<Option<Plan<B>>, NoMemory>
    requires frame { All (λ v. Fits B.algebra ctx.now B.CAP (abs v)) frame.now }
    ensures { IfOk result (λ r. option_map plain_plan r ≡ of.decision_plan B.algebra ctx.now (slice_get (map abs frame.now) x) (tree by.now)) }
{
    match at_slot(ctx, frame, x) {
        Some(x) => Ok(Some(plan_decision(alloc, ctx, x, by)?)),
        None => Ok(None),
    }
}
