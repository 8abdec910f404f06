//! Plans of the branches that conditions and decisions may take.

ghost use Rattle.std.specs.Prelude.{◌≡◌, [], ◌∷◌, map, option_map, IfOk};
ghost use Rattle.spec_match_compiler.specs.Decisions.{trees};
ghost use Rattle.spec_match_compiler.specs.Views.{bound, tree};
ghost use Rattle.abstract_value_laws.specs.Fits.{Fits};
ghost use Rattle.abstract_value.specs.View.{abs, cases_if, cases_of};
ghost use Rattle.abstract_semantics.specs.Choices as choices;
ghost use Rattle.eval_plans.specs.Plans as of;
ghost use Rattle.eval_plans.specs.Views.{plan};

use crate::plan::Plan;
use abstract_value::{AbstractValue, Constructors, put};
use base_trait::{Base, Tri};
use eval_operations::{abs_named, cases_there, flag_there, word_there};
use spec_match_compiler::{Decision, Path};
use std::alloc::{AllocError as NoMemory, Global};

/// The first branch and the second, those that a condition may take.
pub fn either_of_two<B: Base>(alloc: Global, o: Tri) -> Result<Plan<B>, NoMemory>
    ensures { IfOk result (λ r. plan r ≡ of.either o (of.arm 0 []) (of.arm 1 [])) }
{
    match (o.may_true, o.may_false) {
        (true, true) => both(alloc, single_branch(alloc, 0), single_branch(alloc, 1)),
        (true, false) => Ok(single_branch(alloc, 0)),
        (false, true) => Ok(single_branch(alloc, 1)),
        (false, false) => Ok(Plan::Nothing),
    }
}

/// One branch, with no more variables.
fn single_branch<B: Base>(alloc: Global, number: u32) -> Plan<B>
    ensures { plan result ≡ of.arm number [] }
{
    Plan::Arm(number, Vec::new(alloc))
}

/// One plan and then another.
fn both<B: Base>(alloc: Global, first: Plan<B>, second: Plan<B>) -> Result<Plan<B>, NoMemory>
    ensures { IfOk result (λ r. plan r ≡ of.both (plan first) (plan second)) }
{
    match Box::new(alloc, first) {
        Ok(first) => match Box::new(alloc, second) {
            Ok(second) => Ok(Plan::Both(first, second)),
            Err(_failed) => Err(NoMemory),
        },
        Err(_failed) => Err(NoMemory),
    }
}

/// One plan and then another, where the first may be none.
fn then_plan<B: Base>(alloc: Global, first: Plan<B>, second: Plan<B>) -> Result<Plan<B>, NoMemory>
    ensures { IfOk result (λ r. plan r ≡ of.plan_then (plan first) (plan second)) }
{
    match first {
        Plan::Nothing => Ok(second),
        Plan::Arm(number, named) => both(alloc, Plan::Arm(number, named), second),
        Plan::Both(one, other) => both(alloc, Plan::Both(one, other), second),
    }
}

/// The arm of a row, where all that its variables name is there.
fn row_plan<B: Base>(
    alloc: Global,
    ctx: &B::Ctx,
    x: &AbstractValue<B>,
    row: u32,
    binds: &[(u32, Path)],
) -> Result<Plan<B>, NoMemory>
    requires fits { Fits B.algebra ctx.now B.CAP (abs x.now) }
    ensures { IfOk result (λ r. plan r ≡ of.row_plan row (choices.abs_named (abs x.now) (map bound binds.now))) }
{
    match abs_named(alloc, ctx, x, binds)? {
        Some(named) => Ok(Plan::Arm(row, named)),
        None => Ok(Plan::Nothing),
    }
}

/// These plans, and one more behind them.
fn with_plan<B: Base>(mut firsts: Vec<Plan<B>>, first: Plan<B>) -> Result<Vec<Plan<B>>, NoMemory>
    ensures { IfOk result (λ r. (q : of.Plan B.Word B.Note) → of.all_both (map plan r.items) q ≡ of.all_both (map plan firsts.items) (of.both (plan first) q)) }
{
    put(&mut firsts, first)?;
    Ok(firsts)
}

/// Plans one after another, and a last one.
fn all_both<B: Base>(
    alloc: Global,
    mut firsts: Vec<Plan<B>>,
    last: Plan<B>,
) -> Result<Plan<B>, NoMemory>
    ensures { IfOk result (λ r. plan r ≡ of.all_both (map plan firsts.items) (plan last)) }
{
    let mut out = last;
    while let Some(first) = firsts.pop() {
        out = both(alloc, first, out)?;
    }
    Ok(out)
}

/// The arms that a decision may pick. What it cannot come to is not looked at.
///
/// It goes on in a loop where an answer is no, so that many literals of one position take no more stack than one.
#[cycle(plan_decision)]
pub fn plan_decision<B: Base>(
    alloc: Global,
    ctx: &B::Ctx,
    x: &AbstractValue<B>,
    by: &Decision,
) -> Result<Plan<B>, NoMemory>
    requires fits { Fits B.algebra ctx.now B.CAP (abs x.now) }
    ensures { IfOk result (λ r. plan r ≡ of.planned B.algebra ctx.now (abs x.now) (tree by.now)) }
{
    let mut firsts = Vec::new(alloc);
    let mut rest = by;
    loop {
        match rest {
            Decision::Row { row, binds } => {
                let last = row_plan(alloc, ctx, x, *row, binds)?;
                return all_both(alloc, firsts, last);
            }
            Decision::OnCase { at, arms } => {
                let last = present_plan(alloc, ctx, x, arms, cases_there(x, at))?;
                return all_both(alloc, firsts, last);
            }
            Decision::OnWord { at, value, yes, no } => {
                let o = word_there(alloc, ctx, x, at, *value)?;
                match (o.may_true, o.may_false) {
                    (true, true) => {
                        firsts = with_plan(firsts, plan_decision(alloc, ctx, x, yes)?)?;
                        rest = no;
                    }
                    (true, false) => rest = yes,
                    (false, true) => rest = no,
                    (false, false) => return all_both(alloc, firsts, Plan::Nothing),
                }
            }
            Decision::OnFlag { at, yes, no } => {
                let o = flag_there(x, at);
                match (o.may_true, o.may_false) {
                    (true, true) => {
                        firsts = with_plan(firsts, plan_decision(alloc, ctx, x, yes)?)?;
                        rest = no;
                    }
                    (true, false) => rest = yes,
                    (false, true) => rest = no,
                    (false, false) => return all_both(alloc, firsts, Plan::Nothing),
                }
            }
        }
    }
}

/// Those of the decisions whose constructors are present, if what is decided by has constructors.
#[cycle(plan_decision)]
fn present_plan<B: Base>(
    alloc: Global,
    ctx: &B::Ctx,
    x: &AbstractValue<B>,
    arms: &[Decision],
    present: Option<&Constructors<AbstractValue<B>>>,
) -> Result<Plan<B>, NoMemory>
    requires fits { Fits B.algebra ctx.now B.CAP (abs x.now) }
    ensures { IfOk result (λ r. plan r ≡ of.present_plan B.algebra ctx.now (abs x.now) of.nothing (trees (map tree arms.now)) (cases_if (option_map (λ cs. cs.now) present.entry))) }
{
    match present {
        Some(cases) => some_plan(alloc, ctx, x, arms, cases),
        None => Ok(Plan::Nothing),
    }
}

/// Those of the decisions whose constructors are present.
#[cycle(plan_decision)]
fn some_plan<B: Base>(
    alloc: Global,
    ctx: &B::Ctx,
    x: &AbstractValue<B>,
    arms: &[Decision],
    present: &Constructors<AbstractValue<B>>,
) -> Result<Plan<B>, NoMemory>
    requires fits { Fits B.algebra ctx.now B.CAP (abs x.now) }
    ensures { IfOk result (λ r. plan r ≡ of.present_plan B.algebra ctx.now (abs x.now) of.nothing (trees (map tree arms.now)) (cases_of present.now)) }
{
    match present.alone() {
        Some((number, _fields)) => arm_plan(alloc, ctx, x, arms, number),
        None => each_plan(alloc, ctx, x, arms, present),
    }
}

/// The decision of the one constructor that is present, if there is one.
#[cycle(plan_decision)]
fn arm_plan<B: Base>(
    alloc: Global,
    ctx: &B::Ctx,
    x: &AbstractValue<B>,
    arms: &[Decision],
    number: usize,
) -> Result<Plan<B>, NoMemory>
    requires fits { Fits B.algebra ctx.now B.CAP (abs x.now) }
    ensures { IfOk result (λ r. plan r ≡ of.arm_plan B.algebra ctx.now (abs x.now) (trees (map tree arms.now)) number) }
{
    if number >= arms.len() {
        return Ok(Plan::Nothing);
    }
    plan_decision(alloc, ctx, x, &arms[number])
}

/// Those of the decisions whose constructors are present, one after another.
#[cycle(plan_decision)]
fn each_plan<B: Base>(
    alloc: Global,
    ctx: &B::Ctx,
    x: &AbstractValue<B>,
    arms: &[Decision],
    present: &Constructors<AbstractValue<B>>,
) -> Result<Plan<B>, NoMemory>
    requires fits { Fits B.algebra ctx.now B.CAP (abs x.now) }
    ensures { IfOk result (λ r. plan r ≡ of.present_plan B.algebra ctx.now (abs x.now) of.nothing (trees (map tree arms.now)) (cases_of present.now)) }
{
    let mut plan = Plan::Nothing;
    for i in 0..arms.len().min(present.len()) {
        plan = with_arm(alloc, ctx, x, plan, present.fields(i).is_some(), &arms[i])?;
    }
    Ok(plan)
}

/// A plan and then the decision of a constructor, where this is present.
#[cycle(plan_decision)]
fn with_arm<B: Base>(
    alloc: Global,
    ctx: &B::Ctx,
    x: &AbstractValue<B>,
    first: Plan<B>,
    present: bool,
    arm: &Decision,
) -> Result<Plan<B>, NoMemory>
    requires fits { Fits B.algebra ctx.now B.CAP (abs x.now) }
    ensures { IfOk result (λ r. plan r ≡ of.with_arm B.algebra ctx.now (abs x.now) (plan first) present (tree arm.now)) }
{
    if !present {
        return Ok(first);
    }
    let second = plan_decision(alloc, ctx, x, arm)?;
    then_plan(alloc, first, second)
}
