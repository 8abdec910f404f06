//! The base of known bits.

use super::casts::{sext, trunc, zext};
use super::compare::compare;
use super::join::{absorbs, join};
use super::known::{Known, without};
use super::members::members;
use super::operations::{of_one, of_two};
use super::range::range;
use base_trait::{Base, MOST_LISTED, Tri};
use std::alloc::{AllocError as NoMemory, Global};
use word_operations::{BinaryOperation, UnaryOperation, WordComparison};

/// Words of known and unknown bits; of definitions nothing is told. But for lists of members it takes no
/// memory.
pub struct Bits;

impl Base for Bits {
    ghost use Rattle.std.specs.Prelude.{◌≡◌, ◌<◌, ◌≤◌, ◌^◌, IfOk, IsOk, refl};
    ghost use Rattle.std.proofs.Common.{rules};
    ghost use Rattle.std.specs.Cmp.Rules.{comparing};
    ghost use Rattle.word_operations.specs.Casts.{zext_of, sext_of, trunc_of};
    ghost use Rattle.word_operations.specs.Width.{IsWidth};
    ghost use Rattle.base_trait.specs.Laws.{IsExtension};
    ghost use Rattle.base_trait.specs.NoNotes.{no_notes};
    ghost use Rattle.base_trait.specs.Notes.{own_calls};
    ghost use Rattle.base_trait.specs.Precision.{most_listed};
    ghost use Rattle.base_bits.specs.Join.{join_of};
    ghost use Rattle.base_bits.specs.Known.{any, exact, Fits};
    ghost use Rattle.base_bits.specs.Instance.{bits_laws};
    ghost use Rattle.base_bits.specs.Meaning.{bits, op1_known, op2_known};
    ghost use Rattle.base_bits.specs.Moved.{moved};
    ghost use Rattle.base_bits.specs.Range.{range_of};

    type Word = Known;

    type Note = ();

    type Ctx = ();

    const CAP: u64 = MOST_LISTED;

    ghost CAP = { most_listed };

    ghost algebra = { bits };

    /// The word whose bits are all known, which is best: 5 is `v` 5 `m` 0, and stands for 5 alone.
    fn constant(_alloc: Global, _ctx: &(), w: u32, v: u64) -> Result<Known, NoMemory>
        requires width { IsWidth w }
        requires number { v < 2 ^ w }
        ensures value { IfOk result (λ r. r ≡ exact v) }
        ensures fits { IfOk result (λ r. Fits w r) }
        ensures ok { IsOk result }
    {
        Ok(Known::exact(v))
    }

    /// The word of no known bit: at 8 bits `v` 0 `m` 255, which is 0 to 255.
    fn any(_alloc: Global, _ctx: &(), w: u32) -> Result<Known, NoMemory>
        requires width { IsWidth w }
        ensures value { IfOk result (λ r. r ≡ any w) }
        ensures fits { IfOk result (λ r. Fits w r) }
        ensures ok { IsOk result }
    {
        Ok(Known::any(w))
    }

    /// The bits above the highest one in which `low` and `high` differ: of 5 to 6 it is 4 to 7. Best: on the way
    /// from `low` to `high` one step, here that from 5 to 6, changes each of the other bits.
    fn range(_alloc: Global, _ctx: &(), w: u32, low: u64, high: u64) -> Result<Known, NoMemory>
        requires width { IsWidth w }
        requires order { low ≤ high }
        requires number { high < 2 ^ w }
        ensures value { IfOk result (λ r. r ≡ range_of low high) }
        ensures fits { IfOk result (λ r. Fits w r) }
        ensures ok { IsOk result }
    {
        Ok(range(low, high))
    }

    /// Not is best: of 4 bits, that of 4 or 12 is 11 or 3. Neg is 0 less the word, and as good as differences are:
    /// that of 4 or 12 is 12 or 4.
    fn op1(
        _alloc: Global,
        _ctx: &(),
        op: UnaryOperation,
        w: u32,
        x: &Known,
    ) -> Result<Known, NoMemory>
        requires width { IsWidth w }
        requires word { Fits w x.now }
        ensures value { IfOk result (λ r. r ≡ op1_known op w x.now) }
        ensures fits { IfOk result (λ r. Fits w r) }
        ensures ok { IsOk result }
    {
        Ok(of_one(op, w, *x))
    }

    /// And, Or, Xor and shifts by an exact number are best. Sums and differences know a bit where both words and
    /// the carry are known: 0 to 3 and 4 add up to 4 to 7. That is best by Vishwanathan and others, CGO 2022, and
    /// not proved here. The others give any unless both are exact: 0 or 1 times 2 is any, not 0 or 2.
    fn op2(
        _alloc: Global,
        _ctx: &(),
        op: BinaryOperation,
        w: u32,
        x: &Known,
        y: &Known,
    ) -> Result<Known, NoMemory>
        requires width { IsWidth w }
        requires left { Fits w x.now }
        requires right { Fits w y.now }
        ensures value { IfOk result (λ r. r ≡ op2_known op w x.now y.now) }
        ensures fits { IfOk result (λ r. Fits w r) }
        ensures ok { IsOk result }
    {
        Ok(of_two(op, w, *x, *y))
    }

    /// Equal where they agree on the bits that both know; below by the least and the greatest numbers. 4 to 7 are
    /// never below 4, and may be below 6 or not. Exact, as both ends are numbers of the words.
    fn cmp(_ctx: &(), c: WordComparison, w: u32, x: &Known, y: &Known) -> Tri {
        compare(c, w, *x, *y)
    }

    /// The new bits are known 0. Best: from 4 to 8 bits, 4 to 7 stay 4 to 7.
    fn zext(_alloc: Global, _ctx: &(), from: u32, to: u32, x: &Known) -> Result<Known, NoMemory>
        requires widths { IsExtension from to }
        requires word { Fits from x.now }
        ensures value { IfOk result (λ r. r ≡ moved (zext_of from to) x.now) }
        ensures fits { IfOk result (λ r. Fits to r) }
        ensures ok { IsOk result }
    {
        Ok(zext(from, to, *x))
    }

    /// The new bits are copies of the sign bit, unknown where it is. Best: from 4 to 8 bits, 0 or 8 is 0 to 248
    /// in steps of 8.
    fn sext(_alloc: Global, _ctx: &(), from: u32, to: u32, x: &Known) -> Result<Known, NoMemory>
        requires widths { IsExtension from to }
        requires word { Fits from x.now }
        ensures value { IfOk result (λ r. r ≡ moved (sext_of from to) x.now) }
        ensures fits { IfOk result (λ r. Fits to r) }
        ensures ok { IsOk result }
    {
        Ok(sext(from, to, *x))
    }

    /// The lowest bits. Best: 256 to 259 are 0 to 3 at 8 bits.
    fn trunc(_alloc: Global, _ctx: &(), from: u32, to: u32, x: &Known) -> Result<Known, NoMemory>
        requires widths { IsExtension to from }
        requires word { Fits from x.now }
        ensures value { IfOk result (λ r. r ≡ moved (trunc_of from to) x.now) }
        ensures fits { IfOk result (λ r. Fits to r) }
        ensures ok { IsOk result }
    {
        Ok(trunc(from, to, *x))
    }

    /// The bits that both know alike. Best: 4 and 6 join to 4 or 6, and 3 and 4 to 0 to 7.
    fn join(_alloc: Global, _ctx: &(), w: u32, x: &Known, y: &Known) -> Result<Known, NoMemory>
        requires width { IsWidth w }
        requires left { Fits w x.now }
        requires right { Fits w y.now }
        ensures value { IfOk result (λ r. r ≡ join_of x.now y.now) }
        ensures fits { IfOk result (λ r. Fits w r) }
        ensures ok { IsOk result }
    {
        Ok(join(*x, *y))
    }

    /// The join, so best: each step that changes the word loses a bit. 4 with 6 is 4 or 6, and that with 5 is
    /// 4 to 7.
    fn widen(_alloc: Global, _ctx: &(), w: u32, old: &Known, new: &Known) -> Result<Known, NoMemory>
        requires width { IsWidth w }
        requires left { Fits w old.now }
        requires right { Fits w new.now }
        ensures value { IfOk result (λ r. r ≡ join_of old.now new.now) }
        ensures fits { IfOk result (λ r. Fits w r) }
        ensures ok { IsOk result }
    {
        Ok(join(*old, *new))
    }

    /// Whether the new word knows each bit that the old one knows, and alike. So exactly where each number of the
    /// new one is one of the old: 4 to 7 absorb 5, and not 8.
    fn absorbs(_ctx: &(), _w: u32, old: &Known, new: &Known) -> bool {
        absorbs(*old, *new)
    }

    /// The number of known bits: at 8 bits 8 of one number, 6 of 4 to 7, and 0 of any.
    fn rank(_ctx: &(), w: u32, x: &Known) -> u64 {
        (w - x.m.count_ones()) as u64
    }

    /// The number, exactly where each bit is known: 5 of 5 alone, and none of 4 to 7.
    fn exact(_ctx: &(), _w: u32, x: &Known) -> Option<u64> {
        if x.is_exact() { Some(x.v) } else { None }
    }

    /// Exactly whether the word stands for the number, which has the known bits: 4 to 7 may be 6, and not 8.
    fn may(_ctx: &(), _w: u32, x: &Known, k: u64) -> bool {
        without(k, x.m) == x.v
    }

    /// Exactly its numbers, ascending, or none where they are more than `limit`; there are 2 to the number of
    /// unknown bits. 4 to 7 at the limit 4 is 4, 5, 6, 7, and at the limit 3 there is no list.
    fn members(
        alloc: Global,
        _ctx: &(),
        w: u32,
        x: &Known,
        limit: u32,
    ) -> Result<Option<Vec<u64>>, NoMemory> {
        members(alloc, w, *x, limit)
    }

    /// The same word once more: of 4 to 7 it is 4 to 7.
    fn copy(_alloc: Global, _ctx: &(), x: &Known) -> Result<Known, NoMemory>
        ensures value { IfOk result (λ r. r ≡ x.now) }
        ensures ok { IsOk result }
    {
        Ok(*x)
    }

    ghost capacity = { refl };

    ghost same_calls = { own_calls no_notes };

    ghost laws = { bits_laws };

    ghost same_words = { λ x y e. Prim.search (comparing, rules) };

    ghost same_notes = { λ x y e. Prim.search (comparing, rules) };
}
