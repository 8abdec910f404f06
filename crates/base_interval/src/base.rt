//! The base of intervals.

use super::compare::compare;
use super::join::join;
use super::members::{exact, members};
use super::operations::{op1, op2};
use super::range::Range;
use super::sext::sext;
use super::trunc::trunc;
use super::widen::{rank, widen};
use base_trait::{Base, MOST_LISTED, Tri};
use std::alloc::{AllocError as NoMemory, Global};
use word_operations::{BinaryOperation, UnaryOperation, WordComparison};

/// An interval of numbers; of definitions nothing is told. But for lists of members it takes no memory.
pub struct Interval;

impl Base for Interval {
    ghost use Rattle.std.specs.Prelude.{◌≡◌, ◌<◌, ◌≤◌, ◌^◌, IfOk, IsOk, refl};
    ghost use Rattle.std.proofs.Common.{rules};
    ghost use Rattle.std.specs.Cmp.Rules.{comparing};
    ghost use Rattle.word_operations.specs.Width.{IsWidth};
    ghost use Rattle.base_trait.specs.Laws.{IsExtension};
    ghost use Rattle.base_trait.specs.Notes.{own_calls};
    ghost use Rattle.base_trait.specs.NoNotes.{no_notes};
    ghost use Rattle.base_trait.specs.Precision.{most_listed};
    ghost use Rattle.base_interval.specs.Join.{join_of};
    ghost use Rattle.base_interval.specs.Instance.{interval_laws};
    ghost use Rattle.base_interval.specs.Meaning.{interval};
    ghost use Rattle.base_interval.specs.Operations.{op1_range, op2_range};
    ghost use Rattle.base_interval.specs.Range.{all, Fits, from_to, one};
    ghost use Rattle.base_interval.specs.Sext.{sext_of};
    ghost use Rattle.base_interval.specs.Trunc.{trunc_of};
    ghost use Rattle.base_interval.specs.Widen.{widen_of};

    type Word = Range;

    type Note = ();

    type Ctx = ();

    const CAP: u64 = MOST_LISTED;

    ghost CAP = { most_listed };

    ghost algebra = { interval };

    /// The number alone, which is best: 5 is `[5, 5]`.
    fn constant(_alloc: Global, _ctx: &(), w: u32, v: u64) -> Result<Range, NoMemory>
        requires width { IsWidth w }
        requires number { v < 2 ^ w }
        ensures value { IfOk result (λ r. r ≡ one v) }
        ensures fits { IfOk result (λ r. Fits w r) }
        ensures ok { IsOk result }
    {
        Ok(Range::one(v))
    }

    /// Every number of the width: in 8 bits `[0, 255]`.
    fn any(_alloc: Global, _ctx: &(), w: u32) -> Result<Range, NoMemory>
        requires width { IsWidth w }
        ensures value { IfOk result (λ r. r ≡ all w) }
        ensures fits { IfOk result (λ r. Fits w r) }
        ensures ok { IsOk result }
    {
        Ok(Range::all(w))
    }

    /// The numbers from `low` to `high` and no others, which is best: of 5 to 6 it is `[5, 6]`.
    fn range(_alloc: Global, _ctx: &(), w: u32, low: u64, high: u64) -> Result<Range, NoMemory>
        requires width { IsWidth w }
        requires order { low ≤ high }
        requires number { high < 2 ^ w }
        ensures value { IfOk result (λ r. r ≡ from_to low high) }
        ensures fits { IfOk result (λ r. Fits w r) }
        ensures ok { IsOk result }
    {
        Ok(Range::from_to(low, high))
    }

    /// The least interval of the results. In 8 bits Neg of `[1, 3]` is `[253, 255]`. Of `[0, 3]`, whose results are
    /// 0 and 253 to 255, it is `[0, 255]`.
    fn op1(
        _alloc: Global,
        _ctx: &(),
        op: UnaryOperation,
        w: u32,
        x: &Range,
    ) -> Result<Range, NoMemory>
        requires width { IsWidth w }
        requires word { Fits w x.now }
        ensures value { IfOk result (λ r. r ≡ op1_range op w x.now) }
        ensures fits { IfOk result (λ r. Fits w r) }
        ensures ok { IsOk result }
    {
        Ok(op1(op, w, *x))
    }

    /// An interval that holds each result; of two single numbers the result alone. Of sums and differences it is
    /// the least: in 8 bits `[250, 252] + [10, 20]` is `[4, 16]`. Of the others it is not always: `[5, 5] & [3, 4]`
    /// is `[0, 4]`, and the results are 1 and 4.
    fn op2(
        _alloc: Global,
        _ctx: &(),
        op: BinaryOperation,
        w: u32,
        x: &Range,
        y: &Range,
    ) -> Result<Range, NoMemory>
        requires width { IsWidth w }
        requires left { Fits w x.now }
        requires right { Fits w y.now }
        ensures value { IfOk result (λ r. r ≡ op2_range op w x.now y.now) }
        ensures fits { IfOk result (λ r. Fits w r) }
        ensures ok { IsOk result }
    {
        Ok(op2(op, w, *x, *y))
    }

    /// Exactly the truth values of all pairs. `[1, 9] < [5, 5]` may be both.
    fn cmp(_ctx: &(), c: WordComparison, w: u32, x: &Range, y: &Range) -> Tri {
        compare(c, w, *x, *y)
    }

    /// The same numbers, which is best: from 4 to 8 bits `[6, 9]` stays `[6, 9]`.
    fn zext(_alloc: Global, _ctx: &(), from: u32, to: u32, x: &Range) -> Result<Range, NoMemory>
        requires widths { IsExtension from to }
        requires word { Fits from x.now }
        ensures value { IfOk result (λ r. r ≡ x.now) }
        ensures fits { IfOk result (λ r. Fits to r) }
        ensures ok { IsOk result }
    {
        Ok(*x)
    }

    /// The least interval of the results: from 4 to 8 bits `[6, 9]`, whose results are 6, 7, 248 and 249, is
    /// `[6, 249]`.
    fn sext(_alloc: Global, _ctx: &(), from: u32, to: u32, x: &Range) -> Result<Range, NoMemory>
        requires widths { IsExtension from to }
        requires word { Fits from x.now }
        ensures value { IfOk result (λ r. r ≡ sext_of from to x.now) }
        ensures fits { IfOk result (λ r. Fits to r) }
        ensures ok { IsOk result }
    {
        Ok(sext(from, to, *x))
    }

    /// The least interval of the results: from 8 to 4 bits `[33, 36]` is `[1, 4]`. `[30, 33]`, whose results are
    /// 14, 15, 0 and 1, is `[0, 15]`.
    fn trunc(_alloc: Global, _ctx: &(), from: u32, to: u32, x: &Range) -> Result<Range, NoMemory>
        requires widths { IsExtension to from }
        requires word { Fits from x.now }
        ensures value { IfOk result (λ r. r ≡ trunc_of to x.now) }
        ensures fits { IfOk result (λ r. Fits to r) }
        ensures ok { IsOk result }
    {
        Ok(trunc(to, *x))
    }

    /// The hull, the least interval that holds both: of `[1, 3]` and `[8, 9]` it is `[1, 9]`, which has 4 to 7 too.
    fn join(_alloc: Global, _ctx: &(), w: u32, x: &Range, y: &Range) -> Result<Range, NoMemory>
        requires width { IsWidth w }
        requires left { Fits w x.now }
        requires right { Fits w y.now }
        ensures value { IfOk result (λ r. r ≡ join_of x.now y.now) }
        ensures fits { IfOk result (λ r. Fits w r) }
        ensures ok { IsOk result }
    {
        Ok(join(*x, *y))
    }

    /// Keeps each old end that the new interval does not pass; another becomes 0 or the greatest number. In 8 bits
    /// `[3, 5]` with `[3, 6]` is `[3, 255]`. The least would be `[3, 6]`, but so each end moves at most once.
    fn widen(_alloc: Global, _ctx: &(), w: u32, old: &Range, new: &Range) -> Result<Range, NoMemory>
        requires width { IsWidth w }
        requires left { Fits w old.now }
        requires right { Fits w new.now }
        ensures value { IfOk result (λ r. r ≡ widen_of w old.now new.now) }
        ensures fits { IfOk result (λ r. Fits w r) }
        ensures ok { IsOk result }
    {
        Ok(widen(w, *old, *new))
    }

    /// Exactly whether each number of the new interval is one of the old. `[1, 6]` absorbs `[2, 3]`, and not
    /// `[5, 7]`.
    fn absorbs(_ctx: &(), _w: u32, old: &Range, new: &Range) -> bool {
        old.takes_in(*new)
    }

    /// How many ends can still be passed: in 8 bits 2 of `[3, 5]`, 1 of `[3, 255]` and 0 of `[0, 255]`.
    fn rank(_ctx: &(), w: u32, x: &Range) -> u64 {
        rank(w, *x)
    }

    /// The number, exactly where the interval has one alone: 5 of `[5, 5]`, and none of `[5, 6]`.
    fn exact(_ctx: &(), _w: u32, x: &Range) -> Option<u64> {
        exact(*x)
    }

    /// Exactly whether the interval has the number: `[3, 5]` has 4, and not 6.
    fn may(_ctx: &(), _w: u32, x: &Range, k: u64) -> bool {
        x.has(k)
    }

    /// Exactly its numbers, ascending, or none where they are more than `limit`. `[3, 5]` at the limit 3 is
    /// 3, 4, 5, and at the limit 2 there is no list.
    fn members(
        alloc: Global,
        _ctx: &(),
        _w: u32,
        x: &Range,
        limit: u32,
    ) -> Result<Option<Vec<u64>>, NoMemory> {
        members(alloc, *x, limit)
    }

    /// The same interval once more: of `[3, 5]` it is `[3, 5]`.
    fn copy(_alloc: Global, _ctx: &(), x: &Range) -> Result<Range, NoMemory>
        ensures value { IfOk result (λ r. r ≡ x.now) }
        ensures ok { IsOk result }
    {
        Ok(*x)
    }

    ghost capacity = { refl };

    ghost same_calls = { own_calls no_notes };

    ghost laws = { interval_laws };

    ghost same_words = { λ x y e. Prim.search (comparing, rules) };

    ghost same_notes = { λ x y e. Prim.search (comparing, rules) };
}
