//! The values of nodes that compute them from slots alone.

ghost use Rattle.std.specs.Prelude.{◌≡◌, map, option_map, option_and_then, slice_get, All, IfOk, IfSome};
ghost use Rattle.base_trait.specs.Lists.{IsGrown};
ghost use Rattle.base_trait.specs.Uses.{uses_of};
ghost use Rattle.support_tail_fixpoint.specs.Answer.{gives};
ghost use Rattle.spec_ir.specs.Views.{specification};
ghost use Rattle.semantics_values.specs.Types.{environment_of};
ghost use Rattle.semantics_laws.specs.Places.{all_of};
ghost use Rattle.abstract_value_laws.specs.Fits.{Fits};
ghost use Rattle.abstract_value.specs.View.{abs};
ghost use Rattle.abstract_semantics.specs.Steps as steps;
ghost use Rattle.eval_code.specs.Views.{node};
ghost use Rattle.eval_nodes.specs.Plain as of;

use crate::operands::{at_slot, copies};
use abstract_value::AbstractValue;
use base_trait::{Base, Log};
use eval_code::Node;
use eval_operations::{
    access_map, binary, compare_words, flag, make_value, resize_word, unary, update_map, word,
};
use spec_ir::{CastKind, Spec};
use std::alloc::{AllocError as NoMemory, Global};
use word_operations::{BinaryOperation, UnaryOperation, WordComparison};

/// The value of a node that is plain. Its operands are read in place.
#[inline(never)]
pub fn plain_value<B: Base>(
    alloc: Global,
    ctx: &B::Ctx,
    spec: &Spec,
    at: u32,
    frame: &[AbstractValue<B>],
    n: &Node,
) -> Result<Option<AbstractValue<B>>, NoMemory>
    requires frame { All (λ v. Fits B.algebra ctx.now B.CAP (abs v)) frame.now }
    ensures value { IfOk result (λ r. option_map abs r ≡ of.plain_value B.algebra ctx.now B.CAP (specification spec.now) at (map abs frame.now) (node n.now)) }
    ensures fits { IfOk result (λ r. IfSome r (λ v. Fits B.algebra ctx.now B.CAP (abs v))) }
{
    match n {
        Node::Flag(b) => Ok(Some(flag(*b))),
        Node::Word { w, v } => word(alloc, ctx, *w, *v),
        Node::Un { op, w, x } => unary_on(alloc, ctx, frame, *op, *w, *x),
        Node::Bin { op, w, x, y } => binary_on(alloc, ctx, frame, *op, *w, *x, *y),
        Node::Test { c, w, x, y } => Ok(compared_on(ctx, frame, *c, *w, *x, *y)),
        Node::Cast { kind, from, to, x } => resized_on(alloc, ctx, frame, *kind, *from, *to, *x),
        Node::Make { ty, case, args } => made_on(alloc, ctx, spec, frame, *ty, *case, args),
        Node::Put { map, x, key, v } => updated_on(alloc, ctx, at, frame, *map, *x, *key, *v),
        Node::If { .. } | Node::Choose { .. } | Node::Call { .. } | Node::Get { .. } => Ok(None),
    }
}

/// An operation on a slot.
fn unary_on<B: Base>(
    alloc: Global,
    ctx: &B::Ctx,
    frame: &[AbstractValue<B>],
    op: UnaryOperation,
    w: u32,
    x: u32,
) -> Result<Option<AbstractValue<B>>, NoMemory>
    requires frame { All (λ v. Fits B.algebra ctx.now B.CAP (abs v)) frame.now }
    ensures value { IfOk result (λ r. option_map abs r ≡ option_and_then (steps.unary B.algebra ctx.now op w) (slice_get (map abs frame.now) x)) }
    ensures fits { IfOk result (λ r. IfSome r (λ v. Fits B.algebra ctx.now B.CAP (abs v))) }
{
    match at_slot(ctx, frame, x) {
        Some(x) => unary(alloc, ctx, op, w, x),
        None => Ok(None),
    }
}

/// An operation on two slots.
fn binary_on<B: Base>(
    alloc: Global,
    ctx: &B::Ctx,
    frame: &[AbstractValue<B>],
    op: BinaryOperation,
    w: u32,
    x: u32,
    y: u32,
) -> Result<Option<AbstractValue<B>>, NoMemory>
    requires frame { All (λ v. Fits B.algebra ctx.now B.CAP (abs v)) frame.now }
    ensures value { IfOk result (λ r. option_map abs r ≡ of.two_on (steps.binary B.algebra ctx.now op w) (slice_get (map abs frame.now) x) (slice_get (map abs frame.now) y)) }
    ensures fits { IfOk result (λ r. IfSome r (λ v. Fits B.algebra ctx.now B.CAP (abs v))) }
{
    let Some(x) = at_slot(ctx, frame, x) else {
        return Ok(None);
    };
    match at_slot(ctx, frame, y) {
        Some(y) => binary(alloc, ctx, op, w, x, y),
        None => Ok(None),
    }
}

/// A comparison of two slots.
fn compared_on<B: Base>(
    ctx: &B::Ctx,
    frame: &[AbstractValue<B>],
    c: WordComparison,
    w: u32,
    x: u32,
    y: u32,
) -> Option<AbstractValue<B>>
    requires frame { All (λ v. Fits B.algebra ctx.now B.CAP (abs v)) frame.now }
    ensures value { option_map abs result ≡ of.two_on (steps.compared B.algebra ctx.now c w) (slice_get (map abs frame.now) x) (slice_get (map abs frame.now) y) }
    ensures fits { IfSome result (λ v. Fits B.algebra ctx.now B.CAP (abs v)) }
{
    let Some(x) = at_slot(ctx, frame, x) else {
        return None;
    };
    match at_slot(ctx, frame, y) {
        Some(y) => compare_words(ctx, c, w, x, y),
        None => None,
    }
}

/// A slot at another width.
fn resized_on<B: Base>(
    alloc: Global,
    ctx: &B::Ctx,
    frame: &[AbstractValue<B>],
    kind: CastKind,
    from: u32,
    to: u32,
    x: u32,
) -> Result<Option<AbstractValue<B>>, NoMemory>
    requires frame { All (λ v. Fits B.algebra ctx.now B.CAP (abs v)) frame.now }
    ensures value { IfOk result (λ r. option_map abs r ≡ option_and_then (steps.resized B.algebra ctx.now kind from to) (slice_get (map abs frame.now) x)) }
    ensures fits { IfOk result (λ r. IfSome r (λ v. Fits B.algebra ctx.now B.CAP (abs v))) }
{
    match at_slot(ctx, frame, x) {
        Some(x) => resize_word(alloc, ctx, kind, from, to, x),
        None => Ok(None),
    }
}

/// A constructor value of slots.
fn made_on<B: Base>(
    alloc: Global,
    ctx: &B::Ctx,
    spec: &Spec,
    frame: &[AbstractValue<B>],
    ty: u32,
    case: u32,
    args: &[u32],
) -> Result<Option<AbstractValue<B>>, NoMemory>
    requires frame { All (λ v. Fits B.algebra ctx.now B.CAP (abs v)) frame.now }
    ensures value { IfOk result (λ r. option_map abs r ≡ option_and_then (steps.made_of (environment_of (specification spec.now)) ty case) (all_of (slice_get (map abs frame.now)) args.now)) }
    ensures fits { IfOk result (λ r. IfSome r (λ v. Fits B.algebra ctx.now B.CAP (abs v))) }
{
    match copies(alloc, ctx, frame, args)? {
        Some(fields) => make_value(alloc, ctx, spec, ty, case, fields),
        None => Ok(None),
    }
}

/// A map with a cell changed, of three slots: map, key and word.
fn updated_on<B: Base>(
    alloc: Global,
    ctx: &B::Ctx,
    at: u32,
    frame: &[AbstractValue<B>],
    number: u32,
    x: u32,
    key: u32,
    v: u32,
) -> Result<Option<AbstractValue<B>>, NoMemory>
    requires frame { All (λ v. Fits B.algebra ctx.now B.CAP (abs v)) frame.now }
    ensures value { IfOk result (λ r. option_map abs r ≡ of.three_on (steps.updated B.algebra ctx.now B.CAP at number) (slice_get (map abs frame.now) x) (slice_get (map abs frame.now) key) (slice_get (map abs frame.now) v)) }
    ensures fits { IfOk result (λ r. IfSome r (λ v. Fits B.algebra ctx.now B.CAP (abs v))) }
{
    let Some(x) = at_slot(ctx, frame, x) else {
        return Ok(None);
    };
    let Some(key) = at_slot(ctx, frame, key) else {
        return Ok(None);
    };
    match at_slot(ctx, frame, v) {
        Some(v) => {
            let x = x.copy(alloc, ctx)?;
            update_map(alloc, ctx, at, number, x, key, v)
        }
        None => Ok(None),
    }
}

/// The word of the cells that a node reads in a map of a map type, of two slots: map and key. The read is added to the log.
#[inline(never)]
pub fn read_on<B: Base>(
    alloc: Global,
    ctx: &B::Ctx,
    frame: &[AbstractValue<B>],
    number: u32,
    x: u32,
    key: u32,
    log: &mut Log,
) -> Result<Option<AbstractValue<B>>, NoMemory>
    requires frame { All (λ v. Fits B.algebra ctx.now B.CAP (abs v)) frame.now }
    ensures value { IfOk result (λ r. of.read_value B.algebra ctx.now number (slice_get (map abs frame.now) x) (slice_get (map abs frame.now) key) (uses_of log.old) ≡ gives (option_map abs r) (uses_of log.new)) }
    ensures fits { IfOk result (λ r. IfSome r (λ v. Fits B.algebra ctx.now B.CAP (abs v))) }
    // Where memory runs out a front of the use may have been added.
    ensures grown { IsGrown (uses_of log.old) (uses_of log.new) }
{
    let Some(x) = at_slot(ctx, frame, x) else {
        return Ok(None);
    };
    match at_slot(ctx, frame, key) {
        Some(key) => access_map(alloc, ctx, number, x, key, log),
        None => Ok(None),
    }
}
