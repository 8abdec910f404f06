//! The trait of bases.

ghost use Rattle.std.specs.Prelude.{◌≡◌, ◌++◌, ◌^◌, ◌<◌, ◌≤◌, ◌-◌, ℕ, min, IfOk, OnOk, if◌then◌else◌};
ghost use Rattle.word_operations.specs.Width.{IsWidth};
ghost use Rattle.base_trait.specs.Algebra.{Algebra};
ghost use Rattle.base_trait.specs.Notes.{HaveSameCalls};
ghost use Rattle.base_trait.specs.Identity.{IsIdentity};
ghost use Rattle.base_trait.specs.Laws.{IsExtension, Laws};
ghost use Rattle.base_trait.specs.Lists.{IsGrown, items_of};
ghost use Rattle.base_trait.specs.Precision.{most_listed};
ghost use Rattle.base_trait.specs.Uses.{uses_of};

use super::context::Context;
use super::note::CellNote;
use super::tri::Tri;
use super::uses::Log;
use std::alloc::{AllocError as NoMemory, Global};
use std::fmt::Debug;
use std::hash::Hash;
use word_operations::{BinaryOperation, UnaryOperation, WordComparison};

/// Abstract words of 1 to 64 bits, and notes of where a cell's value came from.
///
/// `algebra` has the value of each call as a function, and what words and notes stand for; `laws` are what every
/// user may rest on. Widths are in bits. A word that is lent with a width fits it. Whether a result is the best,
/// which is the least word that describes all results, each base says at its methods.
pub trait Base {
    type Word: Eq + Hash + Debug + Drop;

    type Note: Eq + Hash + Debug + Drop + CellNote;

    /// What the words of one analysis share.
    type Ctx: Drop + Context;

    ghost CAP: { ℕ };

    /// How many cells a map may list.
    const CAP: u64;

    ghost algebra: { Algebra Self.Word Self.Note Self.Ctx };

    /// A word that describes the number, and maybe others. 5 is the interval 5 to 5; where sets have at most 0
    /// numbers it is any.
    fn constant(alloc: Global, ctx: &Self::Ctx, w: u32, v: u64) -> Result<Self::Word, NoMemory>
        requires width { IsWidth w }
        requires number { v < 2 ^ w }
        ensures value { IfOk result (λ r. r ≡ algebra.words.constant ctx.now w v) }
        ensures fits { IfOk result (λ r. algebra.words.fits ctx.now w r) };

    /// The word of every number of the width: at 8 bits the interval 0 to 255. Of a base that does not join, 0.
    fn any(alloc: Global, ctx: &Self::Ctx, w: u32) -> Result<Self::Word, NoMemory>
        requires width { IsWidth w }
        ensures value { IfOk result (λ r. r ≡ algebra.words.any ctx.now w) }
        ensures fits { IfOk result (λ r. algebra.words.fits ctx.now w r) };

    /// A word that describes each number from `low` to `high`, and maybe others: of 5 to 6, an interval has 5 and 6,
    /// and known bits have 4 to 7. Of a base that does not join it is `low`.
    fn range(
        alloc: Global,
        ctx: &Self::Ctx,
        w: u32,
        low: u64,
        high: u64,
    ) -> Result<Self::Word, NoMemory>
        requires width { IsWidth w }
        requires order { low ≤ high }
        requires number { high < 2 ^ w }
        ensures value { IfOk result (λ r. r ≡ algebra.words.range ctx.now w low high) }
        ensures fits { IfOk result (λ r. algebra.words.fits ctx.now w r) };

    /// An operation on one word: it describes the result on each described number, and maybe others. At 8 bits,
    /// Neg of `{1, 2}` describes 255 and 254.
    fn op1(
        alloc: Global,
        ctx: &Self::Ctx,
        op: UnaryOperation,
        w: u32,
        x: &Self::Word,
    ) -> Result<Self::Word, NoMemory>
        requires width { IsWidth w }
        requires word { algebra.words.fits ctx.now w x.now }
        ensures value { IfOk result (λ r. r ≡ algebra.words.op1 ctx.now op w x.now) }
        ensures fits { IfOk result (λ r. algebra.words.fits ctx.now w r) };

    /// An operation on two words: it describes the result on each two described numbers, and maybe others.
    /// `{1, 2} + {3}` describes 4 and 5.
    fn op2(
        alloc: Global,
        ctx: &Self::Ctx,
        op: BinaryOperation,
        w: u32,
        x: &Self::Word,
        y: &Self::Word,
    ) -> Result<Self::Word, NoMemory>
        requires width { IsWidth w }
        requires left { algebra.words.fits ctx.now w x.now }
        requires right { algebra.words.fits ctx.now w y.now }
        ensures value { IfOk result (λ r. r ≡ algebra.words.op2 ctx.now op w x.now y.now) }
        ensures fits { IfOk result (λ r. algebra.words.fits ctx.now w r) };

    /// A comparison of two words: each truth value that it has of two described numbers, and maybe the other. Of
    /// `{1, 9} < {5}` it is both.
    fn cmp(ctx: &Self::Ctx, c: WordComparison, w: u32, x: &Self::Word, y: &Self::Word) -> Tri
        requires width { IsWidth w }
        requires left { algebra.words.fits ctx.now w x.now }
        requires right { algebra.words.fits ctx.now w y.now }
        ensures value { result ≡ algebra.words.cmp ctx.now c w x.now y.now };

    /// Zero extension: it describes each described number at the greater width, and maybe others. From 4 to 8 bits,
    /// a word that describes 8 becomes one that describes 8.
    fn zext(
        alloc: Global,
        ctx: &Self::Ctx,
        from: u32,
        to: u32,
        x: &Self::Word,
    ) -> Result<Self::Word, NoMemory>
        requires widths { IsExtension from to }
        requires word { algebra.words.fits ctx.now from x.now }
        ensures value { IfOk result (λ r. r ≡ algebra.words.zext ctx.now from to x.now) }
        ensures fits { IfOk result (λ r. algebra.words.fits ctx.now to r) };

    /// Sign extension: it describes the extension of each described number, and maybe others. From 4 to 8 bits, a
    /// word that describes 8 becomes one that describes 248.
    fn sext(
        alloc: Global,
        ctx: &Self::Ctx,
        from: u32,
        to: u32,
        x: &Self::Word,
    ) -> Result<Self::Word, NoMemory>
        requires widths { IsExtension from to }
        requires word { algebra.words.fits ctx.now from x.now }
        ensures value { IfOk result (λ r. r ≡ algebra.words.sext ctx.now from to x.now) }
        ensures fits { IfOk result (λ r. algebra.words.fits ctx.now to r) };

    /// Truncation to the lowest bits: it describes those of each described number, and maybe others. From
    /// 8 to 4 bits, a word that describes 17 becomes one that describes 1.
    fn trunc(
        alloc: Global,
        ctx: &Self::Ctx,
        from: u32,
        to: u32,
        x: &Self::Word,
    ) -> Result<Self::Word, NoMemory>
        requires widths { IsExtension to from }
        requires word { algebra.words.fits ctx.now from x.now }
        ensures value { IfOk result (λ r. r ≡ algebra.words.trunc ctx.now from to x.now) }
        ensures fits { IfOk result (λ r. algebra.words.fits ctx.now to r) };

    /// A word that describes what either describes, and the least that does so as far as `absorbs` can tell. As
    /// intervals, 1 to 2 and 5 to 6 join to 1 to 6.
    fn join(
        alloc: Global,
        ctx: &Self::Ctx,
        w: u32,
        x: &Self::Word,
        y: &Self::Word,
    ) -> Result<Self::Word, NoMemory>
        requires width { IsWidth w }
        requires left { algebra.words.fits ctx.now w x.now }
        requires right { algebra.words.fits ctx.now w y.now }
        ensures value { IfOk result (λ r. r ≡ algebra.words.join ctx.now w x.now y.now) }
        ensures fits { IfOk result (λ r. algebra.words.fits ctx.now w r) };

    /// A word that describes what either describes, such that no chain of widenings grows for ever: it is the old
    /// word where that absorbs the new one, and else of a lesser rank. The interval 3 to 5 with 3 to 6 gives 3 to
    /// the greatest number.
    fn widen(
        alloc: Global,
        ctx: &Self::Ctx,
        w: u32,
        old: &Self::Word,
        new: &Self::Word,
    ) -> Result<Self::Word, NoMemory>
        requires width { IsWidth w }
        requires left { algebra.words.fits ctx.now w old.now }
        requires right { algebra.words.fits ctx.now w new.now }
        ensures value { IfOk result (λ r. r ≡ algebra.words.widen ctx.now w old.now new.now) }
        ensures fits { IfOk result (λ r. algebra.words.fits ctx.now w r) };

    /// Whether `old` describes all that `new` does, as far as the base can tell: if so it surely does. The interval
    /// 1 to 6 absorbs 2 to 3. Of 1 bit the set `{0, 1}` does not absorb any, though it has as many numbers.
    fn absorbs(ctx: &Self::Ctx, w: u32, old: &Self::Word, new: &Self::Word) -> bool
        requires width { IsWidth w }
        requires left { algebra.words.fits ctx.now w old.now }
        requires right { algebra.words.fits ctx.now w new.now }
        ensures value { result ≡ algebra.words.absorbs ctx.now w old.now new.now };

    /// What falls where a word is widened and changes; 2^64 - 1 where it is more than that. Of an interval it is
    /// how many ends can still be passed. At 8 bits that is 2 of 3 to 5, 1 of 3 to 255 and 0 of 0 to 255.
    fn rank(ctx: &Self::Ctx, w: u32, x: &Self::Word) -> u64
        requires width { IsWidth w }
        requires word { algebra.words.fits ctx.now w x.now }
        ensures value { result ≡ min (algebra.words.rank ctx.now w x.now) (2 ^ 64 - 1) };

    /// The number of a word that describes no other, as far as the base can tell. It is 5 of the interval 5 to 5,
    /// and none of 5 to 6. A pair of the set `{1, 9}` and the interval 0 to 5 gives none, though it describes 1
    /// alone.
    fn exact(ctx: &Self::Ctx, w: u32, x: &Self::Word) -> Option<u64>
        requires width { IsWidth w }
        requires word { algebra.words.fits ctx.now w x.now }
        ensures value { result ≡ algebra.words.exact ctx.now w x.now };

    /// Whether the word may be `k`: true of each number that it describes, and maybe of others. The interval 3 to 5
    /// may be 4, and not 6.
    fn may(ctx: &Self::Ctx, w: u32, x: &Self::Word, k: u64) -> bool
        requires width { IsWidth w }
        requires word { algebra.words.fits ctx.now w x.now }
        ensures value { result ≡ algebra.words.may ctx.now w x.now k };

    /// The numbers that the word may be, ascending, or none where it has more than `limit` members: `{1, 2}` at the
    /// limit 2 is 1, 2, and at the limit 1 there is no list.
    fn members(
        alloc: Global,
        ctx: &Self::Ctx,
        w: u32,
        x: &Self::Word,
        limit: u32,
    ) -> Result<Option<Vec<u64>>, NoMemory>
        requires width { IsWidth w }
        requires word { algebra.words.fits ctx.now w x.now }
        ensures value { IfOk result (λ r. items_of r ≡ algebra.words.members ctx.now w x.now limit) };

    /// The same word once more: of the interval 3 to 5 it is 3 to 5.
    fn copy(alloc: Global, ctx: &Self::Ctx, x: &Self::Word) -> Result<Self::Word, NoMemory>
        ensures value { IfOk result (λ r. r ≡ x.now) };

    /// The note of a cell that no instruction has written: as a set of stamps, the entry alone.
    final fn entry_note(alloc: Global) -> Result<Self::Note, NoMemory>
        ensures value { IfOk result (λ r. r ≡ algebra.notes.entry) }
    {
        Self::Note::entry(alloc)
    }

    /// The note of a cell that the instruction at `at` has written: at 1000, as a set of stamps, 1000 alone.
    final fn stamp_note(alloc: Global, at: u32) -> Result<Self::Note, NoMemory>
        ensures value { IfOk result (λ r. r ≡ algebra.notes.at at) }
    {
        Self::Note::stamp(alloc, at)
    }

    /// A note of the stamps of both, and the least that is so as far as `absorbs_note` can tell. As sets, those of
    /// the entry and of 1000 join to `entry,1000`.
    final fn join_note(
        alloc: Global,
        x: &Self::Note,
        y: &Self::Note,
    ) -> Result<Self::Note, NoMemory>
        ensures value { IfOk result (λ r. r ≡ algebra.notes.join x.now y.now) }
    {
        Self::Note::join(alloc, x, y)
    }

    /// A note of the stamps of both, such that no chain of widenings grows for ever. It is the old note where that
    /// absorbs the new one. As sets, `entry` with 1000 gives `entry,1000`, and that with 1000 once more stays.
    final fn widen_note(
        alloc: Global,
        old: &Self::Note,
        new: &Self::Note,
    ) -> Result<Self::Note, NoMemory>
        ensures value { IfOk result (λ r. r ≡ algebra.notes.widen old.now new.now) }
    {
        Self::Note::widen(alloc, old, new)
    }

    /// Whether `old` takes in all stamps of `new`, as far as the base can tell: if so it surely does. As sets,
    /// `entry,1000` absorbs 1000, and not 1004.
    final fn absorbs_note(old: &Self::Note, new: &Self::Note) -> bool
        ensures value { result ≡ algebra.notes.absorbs old.now new.now }
    {
        Self::Note::absorbs(old, new)
    }

    /// The same note once more: of the set `entry,1000` it is `entry,1000`.
    final fn copy_note(alloc: Global, x: &Self::Note) -> Result<Self::Note, NoMemory>
        ensures value { IfOk result (λ r. r ≡ x.now) }
    {
        Self::Note::copy(alloc, x)
    }

    /// Adds a read of a map at a key, or at any key, to the log. Where memory runs out a front of it may have been
    /// added. As sets, a read of map 2 at key 7 with `entry,1000` adds the use of map 2 at 7 from these two.
    final fn on_read(
        alloc: Global,
        log: &mut Log,
        map: u32,
        key: Option<u64>,
        note: &Self::Note,
    ) -> Result<(), NoMemory>
        ensures value { OnOk result (uses_of log.new ≡ uses_of log.old ++ algebra.notes.reads map key note.now) }
        ensures kept { IsGrown (uses_of log.old) (uses_of log.new) }
    {
        Self::Note::on_read(alloc, log, map, key, note)
    }

    /// The same context once more: of affine forms over two tracked cells, the list of these two.
    final fn copy_ctx(alloc: Global, ctx: &Self::Ctx) -> Result<Self::Ctx, NoMemory>
        ensures value { IfOk result (λ r. r ≡ ctx.now) }
    {
        Self::Ctx::copy(alloc, ctx)
    }

    /// A base that joins lists at most 256 cells of a map. One that does not has a key for each.
    ghost capacity: { CAP ≡ (if algebra.joins then most_listed else 2 ^ 32) };

    /// The calls of notes are those of their type.
    ghost same_calls: { HaveSameCalls algebra.notes Self.Note.notes };

    ghost laws: { Laws Self.Word Self.Note Self.Ctx algebra };

    /// Equal words are the same word.
    ghost same_words: { IsIdentity Self.Word.eq };

    /// Equal notes are the same note.
    ghost same_notes: { IsIdentity Self.Note.eq };
}
