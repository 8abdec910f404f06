//! The code of core terms.

ghost use Rattle.std.specs.Prelude.{◌≡◌, ◌+◌, ◌++◌, map, IfOk, OnOk};
ghost use Rattle.spec_ir.specs.CoreTerms as terms;
ghost use Rattle.spec_ir.specs.Views.{core};
ghost use Rattle.spec_match_compiler.specs.Views.{tree};
ghost use Rattle.eval_code.specs.Views.{stretch};
ghost use Rattle.eval_code.specs.Code as plain;
ghost use Rattle.eval_code.specs.Lowered as of;
ghost use Rattle.eval_code_lowering.specs.Writing.{AllWrite, IsSame, Writes};

use crate::decisions::copy_decision;
use crate::named::{names_of, push_slots, slot_of, taken};
use crate::writer::{Writer, put};
use eval_code::{Node, Stretch};
use spec_ir::Core;
use spec_match_compiler::Decision;
use std::alloc::AllocError as NoMemory;
use std::mem;

/// Writes the nodes of a term; gives the slot of its value.
#[cycle(lower)]
pub(crate) fn lower_term(to: &mut Writer, t: &Core) -> Result<u32, NoMemory>
    ensures { IfOk result (λ r. Writes to.old to.new r (of.lowered to.old.scope.items to.old.next (core t.now))) }
{
    match t {
        Core::Var(n) => Ok(slot_of(&to.scope, *n)),
        Core::Flag(b) => put(to, Node::Flag(*b)),
        Core::Word { w, v } => put(to, Node::Word { w: *w, v: *v }),
        Core::Un { op, w, x } => {
            let x = lower_term(to, x)?;
            put(to, Node::Un { op: *op, w: *w, x })
        }
        Core::Bin { op, w, x, y } => {
            let x = lower_term(to, x)?;
            let y = lower_term(to, y)?;
            put(
                to,
                Node::Bin {
                    op: *op,
                    w: *w,
                    x,
                    y,
                },
            )
        }
        Core::Test { c, w, x, y } => {
            let x = lower_term(to, x)?;
            let y = lower_term(to, y)?;
            put(to, Node::Test { c: *c, w: *w, x, y })
        }
        Core::Cast {
            kind,
            from,
            to: width,
            x,
        } => {
            let x = lower_term(to, x)?;
            put(
                to,
                Node::Cast {
                    kind: *kind,
                    from: *from,
                    to: *width,
                    x,
                },
            )
        }
        Core::Let { x, then } => lower_let(to, x, then),
        Core::If { c, yes, no } => {
            let c = lower_term(to, c)?;
            let yes = lower_stretch(to, yes)?;
            let no = lower_stretch(to, no)?;
            put(to, Node::If { c, yes, no })
        }
        Core::Choose { x, by, arms } => {
            let x = lower_term(to, x)?;
            let arms = lower_arms(to, by, arms)?;
            let by = copy_decision(to.alloc, by)?;
            put(to, Node::Choose { x, by, arms })
        }
        Core::Make { ty, case, args } => {
            let args = lower_all(to, args)?;
            put(
                to,
                Node::Make {
                    ty: *ty,
                    case: *case,
                    args,
                },
            )
        }
        Core::Call { fun, args } => {
            let args = lower_all(to, args)?;
            put(to, Node::Call { fun: *fun, args })
        }
        Core::Get { map, x, key } => {
            let x = lower_term(to, x)?;
            let key = lower_term(to, key)?;
            put(to, Node::Get { map: *map, x, key })
        }
        Core::Put { map, x, key, v } => lower_put(to, *map, x, key, v),
    }
}

/// Writes a term, and another one in which a variable more names its slot.
#[cycle(lower)]
fn lower_let(to: &mut Writer, x: &Core, then: &Core) -> Result<u32, NoMemory>
    ensures { IfOk result (λ r. Writes to.old to.new r (of.lowered to.old.scope.items to.old.next (terms.let_in (core x.now) (core then.now)))) }
{
    let slot = lower_term(to, x)?;
    let outer = to.scope.len();
    to.scope.push(slot)?;
    let value = lower_term(to, then)?;
    to.scope.truncate(outer);
    Ok(value)
}

/// Writes a change of a map.
#[cycle(lower)]
fn lower_put(to: &mut Writer, map: u32, x: &Core, key: &Core, v: &Core) -> Result<u32, NoMemory>
    ensures { IfOk result (λ r. Writes to.old to.new r (of.lowered to.old.scope.items to.old.next (terms.put map (core x.now) (core key.now) (core v.now)))) }
{
    let x = lower_term(to, x)?;
    let key = lower_term(to, key)?;
    let v = lower_term(to, v)?;
    put(to, Node::Put { map, x, key, v })
}

/// Writes terms, one after another; gives the slots of their values.
#[cycle(lower)]
pub(crate) fn lower_all(to: &mut Writer, ts: &[Core]) -> Result<Vec<u32>, NoMemory>
    ensures { IfOk result (λ r. AllWrite to.old to.new r.items (of.all_lowered to.old.scope.items to.old.next (terms.cores (map core ts.now)))) }
{
    let mut slots = Vec::new(to.alloc);
    for t in ts {
        let slot = lower_term(to, t)?;
        slots.push(slot)?;
    }
    Ok(slots)
}

/// A term as a stretch of its own.
#[cycle(lower)]
fn lower_stretch(to: &mut Writer, t: &Core) -> Result<Stretch, NoMemory>
    ensures stretch { IfOk result (λ r. stretch r ≡ of.stretch_of (of.lowered to.old.scope.items to.old.next (core t.now))) }
    ensures same { OnOk result (IsSame to.old to.new) }
{
    let next = to.next;
    let outer = mem::replace(&mut to.nodes, Vec::new(to.alloc));
    let slot = lower_term(to, t)?;
    let nodes = mem::replace(&mut to.nodes, outer);
    to.next = next;
    Ok(Stretch { nodes, slot })
}

/// The arms of a choice, each a stretch in which its variables are the next slots.
#[cycle(lower)]
fn lower_arms(to: &mut Writer, by: &Decision, arms: &[Core]) -> Result<Vec<Stretch>, NoMemory>
    ensures stretches { IfOk result (λ r. plain.stretches (map stretch r.items) ≡ of.lowered_arms to.old.scope.items to.old.next (tree by.now) 0 (terms.cores (map core arms.now))) }
    ensures same { OnOk result (IsSame to.old to.new) }
{
    let named = names_of(to.alloc, by, arms.len())?;
    let mut out = Vec::new(to.alloc);
    for i in 0..arms.len() {
        let count = taken(&named, i);
        let arm = lower_arm(to, count, &arms[i])?;
        out.push(arm)?;
    }
    Ok(out)
}

/// One of them, with so many variables.
#[cycle(lower)]
fn lower_arm(to: &mut Writer, count: usize, t: &Core) -> Result<Stretch, NoMemory>
    ensures stretch { IfOk result (λ r. stretch r ≡ of.stretch_of (of.lowered (to.old.scope.items ++ of.slots_from to.old.next count) (to.old.next + count) (core t.now))) }
    ensures same { OnOk result (IsSame to.old to.new) }
{
    let next = to.next;
    let outer = to.scope.len();
    to.next = push_slots(&mut to.scope, next, count)?;
    let stretch = lower_stretch(to, t)?;
    to.scope.truncate(outer);
    to.next = next;
    Ok(stretch)
}
