//! The base of small sets and strided intervals.

use super::changes::{Change, change_word};
use super::comparisons::compare_words;
use super::context::Stops;
use super::joins::{join, widen};
use super::numbers::of_stretch;
use super::operations::op2_of_words;
use super::reading::{exact, may, members, rank};
use super::stretch::Stretch;
use super::width::greatest;
use super::word::{StridedSet, absorbs};
use base_kset::KSet;
use base_trait::{Base, MOST_LISTED, Tri};
use std::alloc::{AllocError as NoMemory, Global};
use word_operations::{BinaryOperation, UnaryOperation, WordComparison};

/// A set of at most 16 numbers, or every `step`th number between two ends; of definitions nothing is told. But for
/// lists of members it takes no memory.
pub struct Strides;

impl Base for Strides {
    ghost use Rattle.std.specs.Prelude.{◌≡◌, ◌∷◌, [], ◌-◌, ◌<◌, ◌≤◌, ◌^◌, IfOk, IsOk, refl};
    ghost use Rattle.std.proofs.Common.{rules};
    ghost use Rattle.std.specs.Cmp.Rules.{comparing};
    ghost use Rattle.word_operations.specs.Op1.{op1_of};
    ghost use Rattle.word_operations.specs.Op2.{op2_of};
    ghost use Rattle.word_operations.specs.Casts.{sext_of, trunc_of};
    ghost use Rattle.word_operations.specs.Width.{IsWidth};
    ghost use Rattle.base_trait.specs.Laws.{IsExtension};
    ghost use Rattle.base_trait.specs.NoNotes.{no_notes};
    ghost use Rattle.base_trait.specs.Notes.{own_calls};
    ghost use Rattle.base_trait.specs.Precision.{most_listed};
    ghost use Rattle.base_strides.specs.Instance.{strides_laws};
    ghost use Rattle.base_strides.specs.Meaning.{Fits, join_of, of_stretch, on_one, on_two, strides, widen_of};
    ghost use Rattle.base_strides.specs.Rows.{op1_row, op2_row, sext_row, trunc_row};
    ghost use Rattle.base_strides.specs.Stretch.{stretch};
    ghost use Rattle.base_strides.specs.Views.{same_word_is};
    ghost use Rattle.base_strides.specs.Words.{Listed};

    type Word = StridedSet;

    type Note = ();

    type Ctx = Stops;

    const CAP: u64 = MOST_LISTED;

    ghost CAP = { most_listed };

    ghost algebra = { strides };

    /// The set of one number, which is best: 5 is `{5}`.
    fn constant(alloc: Global, _ctx: &Stops, w: u32, v: u64) -> Result<StridedSet, NoMemory>
        requires width { IsWidth w }
        requires number { v < 2 ^ w }
        ensures value { IfOk result (λ r. r ≡ Listed (v ∷ [])) }
        ensures fits { IfOk result (λ r. Fits w r) }
        ensures ok { IsOk result }
    {
        let set = KSet::<16>::constant(alloc, &(), w, v)?;
        Ok(StridedSet::of_set(set))
    }

    /// Every number of the width: at 8 bits 0, 1, .., 255, and at widths up to 4 a set.
    fn any(alloc: Global, _ctx: &Stops, w: u32) -> Result<StridedSet, NoMemory>
        requires width { IsWidth w }
        ensures value { IfOk result (λ r. r ≡ of_stretch (stretch 0 1 (2 ^ w - 1))) }
        ensures fits { IfOk result (λ r. Fits w r) }
        ensures ok { IsOk result }
    {
        of_stretch(alloc, w, Stretch::new(0, 1, greatest(w)))
    }

    /// The numbers from `low` to `high` and no others, which is best: of 3 to 5 it is `{3, 4, 5}`.
    fn range(
        alloc: Global,
        _ctx: &Stops,
        w: u32,
        low: u64,
        high: u64,
    ) -> Result<StridedSet, NoMemory>
        requires width { IsWidth w }
        requires order { low ≤ high }
        requires number { high < 2 ^ w }
        ensures value { IfOk result (λ r. r ≡ of_stretch (stretch low 1 high)) }
        ensures fits { IfOk result (λ r. Fits w r) }
        ensures ok { IsOk result }
    {
        of_stretch(alloc, w, Stretch::new(low, 1, high))
    }

    /// The set of all results of a set, which is best. Of a stretch the step stays: in 8 bits Neg of 4, 8, .., 200 is
    /// 56, 60, .., 252.
    fn op1(
        alloc: Global,
        _ctx: &Stops,
        op: UnaryOperation,
        w: u32,
        x: &StridedSet,
    ) -> Result<StridedSet, NoMemory>
        requires width { IsWidth w }
        requires word { Fits w x.now }
        ensures value { IfOk result (λ r. r ≡ on_one (op1_of op w) (op1_row op w) x.now) }
        ensures fits { IfOk result (λ r. Fits w r) }
        ensures ok { IsOk result }
    {
        change_word(alloc, Change::Operation { op, w }, x)
    }

    /// Of two sets that of all results where it has at most 16 numbers, which is best, else the least stretch that
    /// holds them. Else a stretch of the results on both spans, and a set where it has at most 16 numbers: in 8 bits
    /// 0, 4, .., 64 and `{1, 3}` have the sum 1, 3, .., 67.
    fn op2(
        alloc: Global,
        _ctx: &Stops,
        op: BinaryOperation,
        w: u32,
        x: &StridedSet,
        y: &StridedSet,
    ) -> Result<StridedSet, NoMemory>
        requires width { IsWidth w }
        requires left { Fits w x.now }
        requires right { Fits w y.now }
        ensures value { IfOk result (λ r. r ≡ on_two (op2_of op w) (op2_row op w) x.now y.now) }
        ensures fits { IfOk result (λ r. Fits w r) }
        ensures ok { IsOk result }
    {
        op2_of_words(alloc, op, w, x, y)
    }

    /// Of two sets exactly the truth values of all pairs. Else those of the ends; equality may be true only where
    /// the steps leave it: 0, 4, .., 64 and 1, 5, .., 65 are never equal.
    fn cmp(_ctx: &Stops, c: WordComparison, w: u32, x: &StridedSet, y: &StridedSet) -> Tri {
        compare_words(c, w, x, y)
    }

    /// The same numbers, which is best.
    fn zext(
        alloc: Global,
        _ctx: &Stops,
        from: u32,
        to: u32,
        x: &StridedSet,
    ) -> Result<StridedSet, NoMemory>
        requires widths { IsExtension from to }
        requires word { Fits from x.now }
        ensures value { IfOk result (λ r. r ≡ x.now) }
        ensures fits { IfOk result (λ r. Fits to r) }
        ensures ok { IsOk result }
    {
        x.copy(alloc)
    }

    /// The set of all results of a set, which is best: from 4 to 8 bits `{7, 8}` becomes `{7, 248}`. So is that of a
    /// stretch whose ends have one sign bit: from 8 to 16 bits 128, 132, .., 252 becomes 65408, 65412, .., 65532. Of
    /// another stretch all numbers between the ends.
    fn sext(
        alloc: Global,
        _ctx: &Stops,
        from: u32,
        to: u32,
        x: &StridedSet,
    ) -> Result<StridedSet, NoMemory>
        requires widths { IsExtension from to }
        requires word { Fits from x.now }
        ensures value { IfOk result (λ r. r ≡ on_one (sext_of from to) (sext_row from to) x.now) }
        ensures fits { IfOk result (λ r. Fits to r) }
        ensures ok { IsOk result }
    {
        change_word(alloc, Change::Sign { from, to }, x)
    }

    /// The set of all results of a set, which is best: from 8 to 4 bits `{1, 17}` becomes `{1}`. Of a stretch those of
    /// its class: from 16 to 8 bits 250, 254, .., 346 becomes 2, 6, .., 254.
    fn trunc(
        alloc: Global,
        _ctx: &Stops,
        from: u32,
        to: u32,
        x: &StridedSet,
    ) -> Result<StridedSet, NoMemory>
        requires widths { IsExtension to from }
        requires word { Fits from x.now }
        ensures value { IfOk result (λ r. r ≡ on_one (trunc_of from to) (trunc_row to) x.now) }
        ensures fits { IfOk result (λ r. Fits to r) }
        ensures ok { IsOk result }
    {
        change_word(alloc, Change::Cut { from, to }, x)
    }

    /// The union of two sets where it has at most 16 numbers, else the least stretch that holds both: `{1, 5}` and
    /// `{9}` join to `{1, 5, 9}`, and 0, 8, .., 128 with `{4}` to 0, 4, .., 128.
    fn join(
        alloc: Global,
        _ctx: &Stops,
        w: u32,
        x: &StridedSet,
        y: &StridedSet,
    ) -> Result<StridedSet, NoMemory>
        requires width { IsWidth w }
        requires left { Fits w x.now }
        requires right { Fits w y.now }
        ensures value { IfOk result (λ r. r ≡ join_of x.now y.now) }
        ensures fits { IfOk result (λ r. Fits w r) }
        ensures ok { IsOk result }
    {
        join(alloc, w, x, y)
    }

    /// The old word where it absorbs the new one. Else the union of two sets, where it has at most 16 numbers. Else
    /// the step of the hull, and each end that the new word passes goes to the next stop: at the stops 100 and 200, in
    /// 8 bits, 0, 4, .., 64 with 0, 4, .., 68 gives 0, 4, .., 100.
    fn widen(
        alloc: Global,
        ctx: &Stops,
        w: u32,
        old: &StridedSet,
        new: &StridedSet,
    ) -> Result<StridedSet, NoMemory>
        requires width { IsWidth w }
        requires left { Fits w old.now }
        requires right { Fits w new.now }
        ensures value { IfOk result (λ r. r ≡ widen_of ctx.now w old.now new.now) }
        ensures fits { IfOk result (λ r. Fits w r) }
        ensures ok { IsOk result }
    {
        widen(alloc, ctx.stops(), w, old, new)
    }

    /// Exactly whether each number of the new word is one of the old: 0, 4, .., 64 absorbs `{8, 16}`, and not `{6}`.
    fn absorbs(_ctx: &Stops, w: u32, old: &StridedSet, new: &StridedSet) -> bool {
        absorbs(w, old, new)
    }

    /// Of a stretch 131 times how often the step can be halved, and how many stops either end can still go to; of a
    /// set of n numbers 131 w + 147 - n, which is more: `{5}` has 1194 in 8 bits.
    fn rank(ctx: &Stops, w: u32, x: &StridedSet) -> u64 {
        rank(ctx.stops(), w, x)
    }

    /// The number, exactly where there is one: 5 of `{5}`, and none of `{5, 6}`.
    fn exact(_ctx: &Stops, w: u32, x: &StridedSet) -> Option<u64> {
        exact(w, x)
    }

    /// Exactly whether the word has the number: 0, 4, .., 64 has 8, and not 6.
    fn may(_ctx: &Stops, w: u32, x: &StridedSet, k: u64) -> bool {
        may(w, x, k)
    }

    /// Exactly its numbers, ascending, or none where they are more than `limit`: 0, 4, .., 64 has a list at the limit
    /// 17, and none at 16.
    fn members(
        alloc: Global,
        _ctx: &Stops,
        w: u32,
        x: &StridedSet,
        limit: u32,
    ) -> Result<Option<Vec<u64>>, NoMemory> {
        members(alloc, w, x, limit)
    }

    /// The same word once more: of `{1, 2}` it is `{1, 2}`.
    fn copy(alloc: Global, _ctx: &Stops, x: &StridedSet) -> Result<StridedSet, NoMemory>
        ensures value { IfOk result (λ r. r ≡ x.now) }
        ensures ok { IsOk result }
    {
        x.copy(alloc)
    }

    ghost capacity = { refl };

    ghost same_calls = { own_calls no_notes };

    ghost laws = { strides_laws };

    ghost same_words = { same_word_is };

    ghost same_notes = { λ x y e. Prim.search (comparing, rules) };
}
