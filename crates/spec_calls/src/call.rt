//! Calls in typed terms.

ghost use Rattle.std.specs.Prelude.{◌≡◌, ◌++◌, false, map, OnOk, IfOk};
ghost use Rattle.spec_ir.specs.Terms.{arms as arm_trees, terms};
ghost use Rattle.spec_ir.specs.Views as view;
ghost use Rattle.spec_match_compiler.specs.Views.{pat};
ghost use Rattle.spec_calls.specs.Calls as spec;

use spec_ir::Term;
use spec_match_compiler::Pattern;
use std::alloc::{AllocError, Global};

/// A call of a function, by its number, and whether it stands in tail position.
#[derive(Clone, Copy, Debug, PartialEq, Eq, Drop)]
pub struct Call {
    pub fun: u32,
    pub tail: bool,
}

/// Adds the calls of a term that stands in tail position or doesn't.
#[cycle(calls)]
pub fn calls(term: &Term, tail: bool, out: &mut Vec<Call>) -> Result<(), AllocError>
    ensures { OnOk result (out.new.items ≡ out.old.items ++ spec.calls tail (view.term term.now)) }
{
    match term {
        Term::Var(_) | Term::Flag(_) | Term::Word { .. } => Ok(()),
        Term::Un { x, .. } | Term::Cast { x, .. } => calls(x, false, out),
        Term::Bin { x, y, .. } => calls_of_two(x, y, out),
        Term::Test { x, y, .. } => calls_of_two(x, y, out),
        Term::Let { x, then } => {
            calls(x, false, out)?;
            calls(then, tail, out)
        }
        Term::If { c, yes, no } => calls_of_choice(c, yes, no, tail, out),
        Term::Match { x, arms } => {
            calls(x, false, out)?;
            arm_calls(arms, tail, out)
        }
        Term::Make { args, .. } => all_calls(args, out),
        Term::Call { fun, args } => {
            all_calls(args, out)?;
            Ok(out.push(Call { fun: *fun, tail })?)
        }
        Term::Get { x, key, .. } => calls_of_two(x, key, out),
        Term::Put { x, key, v, .. } => {
            calls_of_two(x, key, out)?;
            calls(v, false, out)
        }
    }
}

/// Adds the calls of two terms outside tail position.
#[cycle(calls)]
fn calls_of_two(x: &Term, y: &Term, out: &mut Vec<Call>) -> Result<(), AllocError>
    ensures { OnOk result (out.new.items ≡ out.old.items ++ (spec.calls false (view.term x.now) ++ spec.calls false (view.term y.now))) }
{
    calls(x, false, out)?;
    calls(y, false, out)
}

/// Adds the calls of a condition and of two branches.
#[cycle(calls)]
fn calls_of_choice(
    c: &Term,
    yes: &Term,
    no: &Term,
    tail: bool,
    out: &mut Vec<Call>,
) -> Result<(), AllocError>
    ensures { OnOk result (out.new.items ≡ out.old.items ++ spec.calls false (view.term c.now) ++ spec.calls tail (view.term yes.now) ++ spec.calls
        tail (view.term no.now)) }
{
    calls(c, false, out)?;
    calls(yes, tail, out)?;
    calls(no, tail, out)
}

/// Adds the calls of arguments.
#[cycle(calls)]
fn all_calls(args: &[Term], out: &mut Vec<Call>) -> Result<(), AllocError>
    ensures { OnOk result (out.new.items ≡ out.old.items ++ spec.all_calls (terms (map view.term args.now))) }
{
    for arg in args {
        calls(arg, false, out)?;
    }
    Ok(())
}

/// Adds the calls of arms.
#[cycle(calls)]
fn arm_calls(arms: &[(Pattern, Term)], tail: bool, out: &mut Vec<Call>) -> Result<(), AllocError>
    ensures { OnOk result (out.new.items ≡ out.old.items ++ spec.arm_calls tail (arm_trees (map (λ a. (pat a.0, view.term a.1)) arms.now))) }
{
    for arm in arms {
        calls(&arm.1, tail, out)?;
    }
    Ok(())
}
