//! Operations on words; nothing where the values are no words of the width.

ghost use Rattle.std.specs.Prelude.{◌≡◌, true, option_map, IfOk, IfSome};
ghost use Rattle.word_operations.specs.Width.{IsWidth};
ghost use Rattle.semantics.specs.Steps.{casts};
ghost use Rattle.abstract_value_laws.specs.Fits.{Fits};
ghost use Rattle.abstract_value.specs.View.{abs};
ghost use Rattle.abstract_semantics.specs.Steps as of;

use abstract_value::AbstractValue;
use base_trait::Base;
use spec_ir::CastKind;
use std::alloc::{AllocError as NoMemory, Global};
use word_operations::{BinaryOperation, UnaryOperation, WordComparison};

/// An operation on one word.
pub fn unary<B: Base>(
    alloc: Global,
    ctx: &B::Ctx,
    op: UnaryOperation,
    w: u32,
    x: &AbstractValue<B>,
) -> Result<Option<AbstractValue<B>>, NoMemory>
    requires fits { Fits B.algebra ctx.now B.CAP (abs x.now) }
    ensures value { IfOk result (λ r. option_map abs r ≡ of.unary B.algebra ctx.now op w (abs x.now)) }
    ensures fits { IfOk result (λ r. IfSome r (λ v. Fits B.algebra ctx.now B.CAP (abs v))) }
{
    match x {
        AbstractValue::Word { w: u, x } if *u == w => Ok(Some(AbstractValue::Word {
            w,
            x: B::op1(alloc, ctx, op, w, x)?,
        })),
        _ => Ok(None),
    }
}

/// An operation on two words.
pub fn binary<B: Base>(
    alloc: Global,
    ctx: &B::Ctx,
    op: BinaryOperation,
    w: u32,
    x: &AbstractValue<B>,
    y: &AbstractValue<B>,
) -> Result<Option<AbstractValue<B>>, NoMemory>
    requires left { Fits B.algebra ctx.now B.CAP (abs x.now) }
    requires right { Fits B.algebra ctx.now B.CAP (abs y.now) }
    ensures value { IfOk result (λ r. option_map abs r ≡ of.binary B.algebra ctx.now op w (abs x.now) (abs y.now)) }
    ensures fits { IfOk result (λ r. IfSome r (λ v. Fits B.algebra ctx.now B.CAP (abs v))) }
{
    match (x, y) {
        (AbstractValue::Word { w: u, x }, AbstractValue::Word { w: v, x: y })
            if *u == w && *v == w => {
            Ok(Some(AbstractValue::Word {
                w,
                x: B::op2(alloc, ctx, op, w, x, y)?,
            }))
        }
        _ => Ok(None),
    }
}

/// A comparison of two words: each truth value that it may have.
pub fn compare_words<B: Base>(
    ctx: &B::Ctx,
    c: WordComparison,
    w: u32,
    x: &AbstractValue<B>,
    y: &AbstractValue<B>,
) -> Option<AbstractValue<B>>
    requires left { Fits B.algebra ctx.now B.CAP (abs x.now) }
    requires right { Fits B.algebra ctx.now B.CAP (abs y.now) }
    ensures value { option_map abs result ≡ of.compared B.algebra ctx.now c w (abs x.now) (abs y.now) }
    ensures fits { IfSome result (λ v. Fits B.algebra ctx.now B.CAP (abs v)) }
{
    match (x, y) {
        (AbstractValue::Word { w: u, x }, AbstractValue::Word { w: v, x: y })
            if *u == w && *v == w => { Some(AbstractValue::Flag(B::cmp(ctx, c, w, x, y))) }
        _ => None,
    }
}

/// A word of another width.
pub fn resize_word<B: Base>(
    alloc: Global,
    ctx: &B::Ctx,
    kind: CastKind,
    from: u32,
    to: u32,
    x: &AbstractValue<B>,
) -> Result<Option<AbstractValue<B>>, NoMemory>
    requires fits { Fits B.algebra ctx.now B.CAP (abs x.now) }
    ensures value { IfOk result (λ r. option_map abs r ≡ of.resized B.algebra ctx.now kind from to (abs x.now)) }
    ensures fits { IfOk result (λ r. IfSome r (λ v. Fits B.algebra ctx.now B.CAP (abs v))) }
{
    match x {
        AbstractValue::Word { w, x } if *w == from && casts(kind, from, to) => Ok(Some(
            AbstractValue::Word {
                w: to,
                x: cast::<B>(alloc, ctx, kind, from, to, x)?,
            },
        )),
        _ => Ok(None),
    }
}

/// A word cast to another width.
fn cast<B: Base>(
    alloc: Global,
    ctx: &B::Ctx,
    kind: CastKind,
    from: u32,
    to: u32,
    x: &B::Word,
) -> Result<B::Word, NoMemory>
    requires width { IsWidth from }
    requires casts { casts kind from to ≡ true }
    requires word { B.algebra.words.fits ctx.now from x.now }
    ensures value { IfOk result (λ r. r ≡ of.cast_of B.algebra ctx.now kind from to x.now) }
    ensures width { IsWidth to }
    ensures fits { IfOk result (λ r. B.algebra.words.fits ctx.now to r) }
{
    match kind {
        CastKind::Zero => B::zext(alloc, ctx, from, to, x),
        CastKind::Sign => B::sext(alloc, ctx, from, to, x),
        CastKind::Cut => B::trunc(alloc, ctx, from, to, x),
    }
}

/// Whether a word of one width can be cast to another.
fn casts(kind: CastKind, from: u32, to: u32) -> bool
    ensures { result ≡ casts kind from to }
{
    match kind {
        CastKind::Zero | CastKind::Sign => from <= to && to <= 64,
        CastKind::Cut => 1 <= to && to <= from,
    }
}
