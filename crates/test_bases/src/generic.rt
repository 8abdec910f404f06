//! Code over any base, with what its laws say of it.

ghost use Rattle.std.specs.Prelude.{◌≡◌, ◌<◌, ◌^◌, ℕ, List, IfOk, IsTrue, ◌⊎◌};
ghost use Rattle.word_operations.specs.Op2.{op2_of};
ghost use Rattle.word_operations.specs.declared.kinds.BinaryOperation.TheVariants.{Add};
ghost use Rattle.word_operations.specs.Width.{IsWidth};

use base_trait::Base;
use std::alloc::{AllocError as NoMemory, Global};
use test_case_lines::{Notation, Read, Unread, both, given, parts, width};
use word_operations::BinaryOperation;

/// The sum of a word with the join of two others describes each sum.
fn sum_with_either<B: Base>(
    alloc: Global,
    ctx: &B::Ctx,
    w: u32,
    x: &B::Word,
    y: &B::Word,
    z: &B::Word,
) -> Result<B::Word, NoMemory>
    requires width { IsWidth w }
    requires joins { IsTrue B.algebra.joins }
    requires first { B.algebra.words.fits ctx.now w x.now }
    requires second { B.algebra.words.fits ctx.now w y.now }
    requires third { B.algebra.words.fits ctx.now w z.now }
    ensures fits { IfOk result (λ r. B.algebra.words.fits ctx.now w r) }
    ensures sums { IfOk result (λ r. (valuation : List ℕ) (m n : ℕ) → B.algebra.words.describes valuation w m x.now
        → B.algebra.words.describes valuation w n y.now ⊎ B.algebra.words.describes valuation w n z.now
        → B.algebra.words.describes valuation w (op2_of Add w m n) r) }
{
    let either = B::join(alloc, ctx, w, y, z)?;
    let sum = B::op2(alloc, ctx, BinaryOperation::Add, w, x, &either)?;
    Ok(sum)
}

/// The text of the sum of a word with the join of two others.
fn sum_text<N: Notation>(
    alloc: Global,
    ctx: &<N::Of as Base>::Ctx,
    w: u32,
    x: &<N::Of as Base>::Word,
    y: &<N::Of as Base>::Word,
    z: &<N::Of as Base>::Word,
) -> Result<String, NoMemory>
    requires width { IsWidth w }
    requires joins { IsTrue N.Of.algebra.joins }
    requires first { N.Of.algebra.words.fits ctx.now w x.now }
    requires second { N.Of.algebra.words.fits ctx.now w y.now }
    requires third { N.Of.algebra.words.fits ctx.now w z.now }
{
    N::text(alloc, w, &sum_with_either::<N::Of>(alloc, ctx, w, x, y, z)?)
}

/// The two words of a text.
fn two_words<N: Notation>(
    alloc: Global,
    ctx: &<N::Of as Base>::Ctx,
    w: u32,
    text: &str,
) -> Read<(<N::Of as Base>::Word, <N::Of as Base>::Word)>
    requires { IsWidth w }
    ensures first { IfOk result (λ x. N.Of.algebra.words.fits ctx.now w x.0) }
    ensures second { IfOk result (λ x. N.Of.algebra.words.fits ctx.now w x.1) }
{
    let (first, second) = parts(text);
    both(
        N::word(alloc, ctx, w, first)?,
        N::word(alloc, ctx, w, second),
    )
}

/// What the sum of a word with the join of two others gives, if the case is one.
pub(crate) fn sum_of_words<N: Notation>(
    alloc: Global,
    ctx: &<N::Of as Base>::Ctx,
    case: &str,
) -> Read<String>
    requires { IsTrue N.Of.algebra.joins }
{
    let (name, rest) = parts(case);
    let (bits, rest) = parts(rest);
    let (first, rest) = parts(rest);
    match (name, width(bits)) {
        ("SumWithEither", Some(w)) => {
            let x = N::word(alloc, ctx, w, first)?;
            match both(x, two_words::<N>(alloc, ctx, w, rest)) {
                Ok((x, yz)) => given(sum_text::<N>(alloc, ctx, w, &x, &yz.0, &yz.1)),
                Err(error) => Err(error),
            }
        }
        _ => Err(Unread::No),
    }
}
