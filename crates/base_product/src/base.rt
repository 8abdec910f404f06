//! The base of pairs.

use super::beside::pair_results;
use super::members::allowed;
use super::pair::Pair;
use base_trait::{Base, Tri};
use std::alloc::{AllocError as NoMemory, Global};
use std::marker::PhantomData;
use word_operations::{BinaryOperation, UnaryOperation, WordComparison};

/// The words, notes and contexts of two bases. A pair stands for the numbers that both parts stand for.
///
/// The examples have sets of at most 2 numbers beside sets of at most 1, or beside intervals. Parts do not sharpen
/// each other, so a result is not always the best: `({1, 9}, [0, 5])` stands for 1 alone and stays as it is.
pub struct Paired<A: Base, B: Base> {
    parts: PhantomData<(A, B)>,
}

impl<A: Base, B: Base> Base for Paired<A, B> {
    ghost use Rattle.std.specs.Prelude.{ℕ, max};
    ghost use Rattle.base_trait.specs.PairedNotes.{paired_calls};
    ghost use Rattle.base_product.specs.Instance.{paired_laws, same_pairs, paired_capacity};
    ghost use Rattle.base_product.specs.Meaning.{paired};

    type Word = Pair<A::Word, B::Word>;

    type Note = Pair<A::Note, B::Note>;

    type Ctx = Pair<A::Ctx, B::Ctx>;

    const CAP: u64 = if A::CAP < B::CAP { B::CAP } else { A::CAP };

    ghost CAP = { max A.CAP B.CAP };

    ghost algebra = { paired A.algebra B.algebra };

    /// The number in both parts: 5 is `({5}, {5})`. Best where it is so in one part.
    fn constant(alloc: Global, ctx: &Self::Ctx, w: u32, v: u64) -> Result<Self::Word, NoMemory> {
        pair_results(
            A::constant(alloc, &ctx.0, w, v),
            B::constant(alloc, &ctx.1, w, v),
        )
    }

    /// Any in both parts: `(any, any)`, at 8 bits 0 to 255.
    fn any(alloc: Global, ctx: &Self::Ctx, w: u32) -> Result<Self::Word, NoMemory> {
        pair_results(A::any(alloc, &ctx.0, w), B::any(alloc, &ctx.1, w))
    }

    /// The ranges of both parts: of 3 to 4 it is `({3, 4}, any)`, which stands for 3 and 4. It holds no other
    /// number where one part holds none.
    fn range(
        alloc: Global,
        ctx: &Self::Ctx,
        w: u32,
        low: u64,
        high: u64,
    ) -> Result<Self::Word, NoMemory> {
        pair_results(
            A::range(alloc, &ctx.0, w, low, high),
            B::range(alloc, &ctx.1, w, low, high),
        )
    }

    /// Both parts, each by itself: at 8 bits Neg of `({1, 2}, any)` is `({254, 255}, any)`. Not always the best: of
    /// `({1, 9}, [0, 5])`, which is 1, it is `({247, 255}, [0, 255])`, which has 247 too.
    fn op1(
        alloc: Global,
        ctx: &Self::Ctx,
        op: UnaryOperation,
        w: u32,
        x: &Self::Word,
    ) -> Result<Self::Word, NoMemory> {
        pair_results(
            A::op1(alloc, &ctx.0, op, w, &x.0),
            B::op1(alloc, &ctx.1, op, w, &x.1),
        )
    }

    /// Both parts, each by itself: `({1, 2}, any)` and `({3}, {3})` add up to `({4, 5}, any)`. Not always the best:
    /// at 8 bits `({1, 9}, [0, 5])` less `({1}, [1, 1])` is `({0, 8}, [0, 255])`, which has 8 too.
    fn op2(
        alloc: Global,
        ctx: &Self::Ctx,
        op: BinaryOperation,
        w: u32,
        x: &Self::Word,
        y: &Self::Word,
    ) -> Result<Self::Word, NoMemory> {
        pair_results(
            A::op2(alloc, &ctx.0, op, w, &x.0, &y.0),
            B::op2(alloc, &ctx.1, op, w, &x.1, &y.1),
        )
    }

    /// What both parts allow: `({1}, any)` is surely below `({2}, any)`. Not always exact: `({1, 9}, [0, 5])`,
    /// which is 1, may be equal to `({9}, [0, 255])`.
    fn cmp(ctx: &Self::Ctx, c: WordComparison, w: u32, x: &Self::Word, y: &Self::Word) -> Tri {
        let first = A::cmp(&ctx.0, c, w, &x.0, &y.0);
        let second = B::cmp(&ctx.1, c, w, &x.1, &y.1);
        Tri {
            may_true: first.may_true && second.may_true,
            may_false: first.may_false && second.may_false,
        }
    }

    /// Both parts, each by itself: from 4 to 8 bits `({7, 8}, any)` is `({7, 8}, any)`, which is 7 and 8. Exact
    /// where both parts are.
    fn zext(
        alloc: Global,
        ctx: &Self::Ctx,
        from: u32,
        to: u32,
        x: &Self::Word,
    ) -> Result<Self::Word, NoMemory> {
        pair_results(
            A::zext(alloc, &ctx.0, from, to, &x.0),
            B::zext(alloc, &ctx.1, from, to, &x.1),
        )
    }

    /// Both parts, each by itself: from 4 to 8 bits `({7, 8}, any)` is `({7, 248}, any)`, which is 7 and 248. Exact
    /// where both parts are.
    fn sext(
        alloc: Global,
        ctx: &Self::Ctx,
        from: u32,
        to: u32,
        x: &Self::Word,
    ) -> Result<Self::Word, NoMemory> {
        pair_results(
            A::sext(alloc, &ctx.0, from, to, &x.0),
            B::sext(alloc, &ctx.1, from, to, &x.1),
        )
    }

    /// Both parts, each by itself: from 8 to 4 bits `({1, 17}, any)` is `({1}, any)`. Not always the best:
    /// `({1, 18}, [0, 17])`, which is 1, becomes `({1, 2}, [0, 15])`, which has 2 too.
    fn trunc(
        alloc: Global,
        ctx: &Self::Ctx,
        from: u32,
        to: u32,
        x: &Self::Word,
    ) -> Result<Self::Word, NoMemory> {
        pair_results(
            A::trunc(alloc, &ctx.0, from, to, &x.0),
            B::trunc(alloc, &ctx.1, from, to, &x.1),
        )
    }

    /// The joins of both parts: `({1}, {1})` and `({2}, {2})` join to `({1, 2}, any)`. It is the least as far as
    /// `absorbs` can tell.
    fn join(
        alloc: Global,
        ctx: &Self::Ctx,
        w: u32,
        x: &Self::Word,
        y: &Self::Word,
    ) -> Result<Self::Word, NoMemory> {
        pair_results(
            A::join(alloc, &ctx.0, w, &x.0, &y.0),
            B::join(alloc, &ctx.1, w, &x.1, &y.1),
        )
    }

    /// The widenings of both parts: where the pair grows, the rank of one part falls. `({1}, {1})` with
    /// `({2}, {2})` is `(any, any)`, and the join would be less.
    fn widen(
        alloc: Global,
        ctx: &Self::Ctx,
        w: u32,
        old: &Self::Word,
        new: &Self::Word,
    ) -> Result<Self::Word, NoMemory> {
        pair_results(
            A::widen(alloc, &ctx.0, w, &old.0, &new.0),
            B::widen(alloc, &ctx.1, w, &old.1, &new.1),
        )
    }

    /// Whether both parts absorb: `({1, 2}, any)` absorbs `({2}, {2})`. If so the old pair has each number of the
    /// new; `({1, 2}, {1})` does not absorb `({1}, any)`, though both stand for 1.
    fn absorbs(ctx: &Self::Ctx, w: u32, old: &Self::Word, new: &Self::Word) -> bool {
        A::absorbs(&ctx.0, w, &old.0, &new.0) && B::absorbs(&ctx.1, w, &old.1, &new.1)
    }

    /// The sum of both ranks: 2 of `({1}, {1})`, 1 of `({1}, any)` and 0 of `(any, any)`.
    fn rank(ctx: &Self::Ctx, w: u32, x: &Self::Word) -> u64 {
        A::rank(&ctx.0, w, &x.0).saturating_add(B::rank(&ctx.1, w, &x.1))
    }

    /// The first part's number, or else the second's: of `({1, 2}, {1})` it is 1. Of `({1, 9}, [0, 5])` there is
    /// none, though it stands for 1 alone.
    fn exact(ctx: &Self::Ctx, w: u32, x: &Self::Word) -> Option<u64> {
        match A::exact(&ctx.0, w, &x.0) {
            Some(number) => Some(number),
            None => B::exact(&ctx.1, w, &x.1),
        }
    }

    /// What both parts allow, and exact where both are: `({1, 9}, [0, 5])` may be 1, and neither 2 nor 9.
    fn may(ctx: &Self::Ctx, w: u32, x: &Self::Word, k: u64) -> bool {
        A::may(&ctx.0, w, &x.0, k) && B::may(&ctx.1, w, &x.1, k)
    }

    /// The first part's list, or else the second's, less what the other part excludes: `({1, 9}, [0, 5])` is 1 at
    /// the limit 2. At the limit 1 there is no list, as the parts have 2 and 6 members.
    fn members(
        alloc: Global,
        ctx: &Self::Ctx,
        w: u32,
        x: &Self::Word,
        limit: u32,
    ) -> Result<Option<Vec<u64>>, NoMemory> {
        match A::members(alloc, &ctx.0, w, &x.0, limit)? {
            Some(numbers) => allowed::<B>(alloc, &ctx.1, w, &x.1, numbers),
            None => match B::members(alloc, &ctx.1, w, &x.1, limit)? {
                Some(numbers) => allowed::<A>(alloc, &ctx.0, w, &x.0, numbers),
                None => Ok(None),
            },
        }
    }

    /// The same pair once more: of `({1}, any)` it is `({1}, any)`.
    fn copy(alloc: Global, ctx: &Self::Ctx, x: &Self::Word) -> Result<Self::Word, NoMemory> {
        pair_results(A::copy(alloc, &ctx.0, &x.0), B::copy(alloc, &ctx.1, &x.1))
    }

    ghost capacity = { paired_capacity A.CAP B.CAP A.algebra.joins B.algebra.joins A.capacity B.capacity };

    ghost same_calls = { paired_calls A.algebra.notes A.Note.notes B.algebra.notes B.Note.notes A.same_calls B.same_calls };

    ghost laws = { paired_laws A.algebra B.algebra A.laws B.laws };

    ghost same_words = { same_pairs A.Word.eq B.Word.eq A.same_words B.same_words };

    ghost same_notes = { same_pairs A.Note.eq B.Note.eq A.same_notes B.same_notes };
}
