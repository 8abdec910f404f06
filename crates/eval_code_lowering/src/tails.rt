//! The code of terms in tail position, and of functions.

ghost use Rattle.std.specs.Prelude.{◌≡◌, ◌++◌, ◌+◌, map, IfOk, OnOk};
ghost use Rattle.spec_ir.specs.CoreTerms as terms;
ghost use Rattle.spec_ir.specs.Views.{core, fun_of, specification};
ghost use Rattle.spec_match_compiler.specs.Views.{tree};
ghost use Rattle.semantics.specs.Direct.{group_of};
ghost use Rattle.eval_code.specs.Code as plain;
ghost use Rattle.eval_code.specs.Views.{code, end, fun_code, tail};
ghost use Rattle.eval_code.specs.Lowered as of;
ghost use Rattle.eval_code.specs.Lowered.{IsCodeOf};
ghost use Rattle.eval_code_lowering.specs.Writing.{Ends, IsSame};

use crate::decisions::copy_decision;
use crate::lowering::{lower_all, lower_term};
use crate::named::{names_of, push_slots, taken};
use crate::writer::Writer;
use eval_code::{End, EvaluatorCode, FunctionCode, Tail};
use spec_ir::{Core, Fun, Spec};
use spec_match_compiler::Decision;
use std::alloc::{AllocError as NoMemory, Global};
use std::mem;

/// The group of a function; 0 where there is none.
fn group_of(spec: &Spec, fun: u32) -> u32
    ensures { result ≡ group_of (specification spec.now) fun }
{
    match spec.funs.get(fun as usize) {
        Some(f) => f.group,
        None => 0,
    }
}

/// Writes the nodes of a term in tail position; gives what follows them.
#[cycle(tails)]
fn lower_end(spec: &Spec, group: u32, to: &mut Writer, t: &Core) -> Result<End, NoMemory>
    ensures { IfOk result (λ r. Ends to.old to.new (end r) (of.lowered_tail (group_of (specification spec.now)) group to.old.scope.items to.old.next (core t.now))) }
{
    match t {
        Core::Let { x, then } => {
            let slot = lower_term(to, x)?;
            let outer = to.scope.len();
            to.scope.push(slot)?;
            let last = lower_end(spec, group, to, then)?;
            to.scope.truncate(outer);
            Ok(last)
        }
        Core::If { c, yes, no } => {
            let c = lower_term(to, c)?;
            let yes = lower_boxed(spec, group, to, yes)?;
            let no = lower_boxed(spec, group, to, no)?;
            Ok(End::If { c, yes, no })
        }
        Core::Choose { x, by, arms } => {
            let x = lower_term(to, x)?;
            let arms = lower_tails(spec, group, to, by, arms)?;
            let by = copy_decision(to.alloc, by)?;
            Ok(End::Pick { x, by, arms })
        }
        Core::Call { fun, args } => {
            if group_of(spec, *fun) == group {
                let args = lower_all(to, args)?;
                Ok(End::Again { fun: *fun, args })
            } else {
                lower_leaf(to, t)
            }
        }
        Core::Var(_)
        | Core::Flag(_)
        | Core::Word { .. }
        | Core::Un { .. }
        | Core::Bin { .. }
        | Core::Test { .. }
        | Core::Cast { .. }
        | Core::Make { .. }
        | Core::Get { .. }
        | Core::Put { .. } => lower_leaf(to, t),
    }
}

/// Writes a value in tail position.
fn lower_leaf(to: &mut Writer, t: &Core) -> Result<End, NoMemory>
    ensures { IfOk result (λ r. Ends to.old to.new (end r) (of.at_end (of.lowered to.old.scope.items to.old.next (core t.now)))) }
{
    let slot = lower_term(to, t)?;
    Ok(End::Slot(slot))
}

/// A term as a tail of its own.
#[cycle(tails)]
fn lower_tail(spec: &Spec, group: u32, to: &mut Writer, t: &Core) -> Result<Tail, NoMemory>
    ensures tail { IfOk result (λ r. tail r ≡ of.tail_of (of.lowered_tail (group_of (specification spec.now)) group to.old.scope.items to.old.next (core t.now))) }
    ensures same { OnOk result (IsSame to.old to.new) }
{
    let next = to.next;
    let outer = mem::replace(&mut to.nodes, Vec::new(to.alloc));
    let end = lower_end(spec, group, to, t)?;
    let nodes = mem::replace(&mut to.nodes, outer);
    to.next = next;
    Ok(Tail { nodes, end })
}

/// The same, in a box.
#[cycle(tails)]
fn lower_boxed(spec: &Spec, group: u32, to: &mut Writer, t: &Core) -> Result<Box<Tail>, NoMemory>
    ensures tail { IfOk result (λ r. tail r.value ≡ of.tail_of (of.lowered_tail (group_of (specification spec.now)) group to.old.scope.items to.old.next (core t.now))) }
    ensures same { OnOk result (IsSame to.old to.new) }
{
    let tail = lower_tail(spec, group, to, t)?;
    Ok(Box::new(to.alloc, tail)?)
}

/// The arms of a choice, each a tail in which its variables are the next slots.
#[cycle(tails)]
fn lower_tails(
    spec: &Spec,
    group: u32,
    to: &mut Writer,
    by: &Decision,
    arms: &[Core],
) -> Result<Vec<Tail>, NoMemory>
    ensures tails { IfOk result (λ r. plain.tails (map tail r.items) ≡ of.lowered_tails (group_of (specification spec.now)) group to.old.scope.items to.old.next (tree by.now) 0 (terms.cores (map core arms.now))) }
    ensures same { OnOk result (IsSame to.old to.new) }
{
    let named = names_of(to.alloc, by, arms.len())?;
    let mut out = Vec::new(to.alloc);
    for i in 0..arms.len() {
        let count = taken(&named, i);
        let arm = lower_arm(spec, group, to, count, &arms[i])?;
        out.push(arm)?;
    }
    Ok(out)
}

/// One of them, with so many variables.
#[cycle(tails)]
fn lower_arm(
    spec: &Spec,
    group: u32,
    to: &mut Writer,
    count: usize,
    t: &Core,
) -> Result<Tail, NoMemory>
    ensures tail { IfOk result (λ r. tail r ≡ of.tail_of (of.lowered_tail (group_of (specification spec.now)) group (to.old.scope.items ++ of.slots_from to.old.next count) (to.old.next + count) (core t.now))) }
    ensures same { OnOk result (IsSame to.old to.new) }
{
    let next = to.next;
    let outer = to.scope.len();
    to.next = push_slots(&mut to.scope, next, count)?;
    let tail = lower_tail(spec, group, to, t)?;
    to.scope.truncate(outer);
    to.next = next;
    Ok(tail)
}

/// The code of a function.
fn lower_fun(alloc: Global, spec: &Spec, fun: &Fun) -> Result<FunctionCode, NoMemory>
    ensures { IfOk result (λ r. fun_code r ≡ of.lowered_fun (specification spec.now) (fun_of fun.now)) }
{
    let mut scope = Vec::new(alloc);
    let params = push_slots(&mut scope, 0, fun.params.len())?;
    let mut to = Writer {
        alloc,
        scope,
        next: params,
        nodes: Vec::new(alloc),
    };
    let body = lower_tail(spec, fun.group, &mut to, &fun.core)?;
    Ok(FunctionCode { params, body })
}

/// The code of a checked specification.
pub fn lower(alloc: Global, spec: &Spec) -> Result<EvaluatorCode, NoMemory>
    ensures { IfOk result (λ r. IsCodeOf (code r) (specification spec.now)) }
{
    let mut funs = Vec::new(alloc);
    for fun in &spec.funs {
        funs.push(lower_fun(alloc, spec, fun)?)?;
    }
    Ok(EvaluatorCode { funs })
}
