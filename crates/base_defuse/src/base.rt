//! The base of definitions and uses.

use super::stamps::Stamps;
use base_kset::{KSet, Set};
use base_trait::{Base, MOST_LISTED, Tri};
use std::alloc::{AllocError as NoMemory, Global};
use word_operations::{BinaryOperation, UnaryOperation, WordComparison};

/// One number or any, and the stamps of each cell.
pub struct DefUse;

impl Base for DefUse {
    ghost use Rattle.std.specs.Prelude.{refl};
    ghost use Rattle.base_trait.specs.Notes.{own_calls};
    ghost use Rattle.base_trait.specs.Precision.{most_listed};
    ghost use Rattle.base_defuse.specs.Instance.{defuse_laws, same_notes_is};
    ghost use Rattle.base_defuse.specs.Meaning.{defuse};
    ghost use Rattle.base_defuse.specs.Notes.{stamp_notes};
    ghost use Rattle.base_kset.specs.Same.{same_set_is};

    type Word = Set<1>;

    type Note = Stamps;

    type Ctx = ();

    const CAP: u64 = MOST_LISTED;

    ghost CAP = { most_listed };

    ghost algebra = { defuse };

    /// The set of the number alone, which is best: 5 is `{5}`.
    fn constant(alloc: Global, ctx: &(), w: u32, v: u64) -> Result<Set<1>, NoMemory> {
        KSet::<1>::constant(alloc, ctx, w, v)
    }

    /// Every number of the width: at 8 bits 0 to 255.
    fn any(alloc: Global, ctx: &(), w: u32) -> Result<Set<1>, NoMemory> {
        KSet::<1>::any(alloc, ctx, w)
    }

    /// The number where `low` is `high`, else any: 5 to 5 is `{5}`, and 5 to 6 is any. Best: no set has two.
    fn range(alloc: Global, ctx: &(), w: u32, low: u64, high: u64) -> Result<Set<1>, NoMemory> {
        KSet::<1>::range(alloc, ctx, w, low, high)
    }

    /// Of a number the result alone, and of any, any: at 8 bits Neg of `{1}` is `{255}`. Best.
    fn op1(
        alloc: Global,
        ctx: &(),
        op: UnaryOperation,
        w: u32,
        x: &Set<1>,
    ) -> Result<Set<1>, NoMemory> {
        KSet::<1>::op1(alloc, ctx, op, w, x)
    }

    /// Of two numbers the result alone, which is best: at 8 bits `{255} + {2}` is `{1}`. With any it is any, and
    /// not always the best: `any & {0}` is any, though each result is 0.
    fn op2(
        alloc: Global,
        ctx: &(),
        op: BinaryOperation,
        w: u32,
        x: &Set<1>,
        y: &Set<1>,
    ) -> Result<Set<1>, NoMemory> {
        KSet::<1>::op2(alloc, ctx, op, w, x, y)
    }

    /// Of two numbers exactly the truth value, with any both: `{1} < {5}` is true alone. `any < {0}` is said to be
    /// both, though it is never true.
    fn cmp(ctx: &(), c: WordComparison, w: u32, x: &Set<1>, y: &Set<1>) -> Tri {
        KSet::<1>::cmp(ctx, c, w, x, y)
    }

    /// The same number, and of any, any: from 4 to 8 bits `{8}` stays `{8}`. Best.
    fn zext(alloc: Global, ctx: &(), from: u32, to: u32, x: &Set<1>) -> Result<Set<1>, NoMemory> {
        KSet::<1>::zext(alloc, ctx, from, to, x)
    }

    /// The number of the same signed reading, and of any, any: from 4 to 8 bits `{8}` becomes `{248}`. Best.
    fn sext(alloc: Global, ctx: &(), from: u32, to: u32, x: &Set<1>) -> Result<Set<1>, NoMemory> {
        KSet::<1>::sext(alloc, ctx, from, to, x)
    }

    /// The lowest bits of the number, and of any, any: from 8 to 4 bits `{17}` becomes `{1}`. Best.
    fn trunc(alloc: Global, ctx: &(), from: u32, to: u32, x: &Set<1>) -> Result<Set<1>, NoMemory> {
        KSet::<1>::trunc(alloc, ctx, from, to, x)
    }

    /// The number where both are the same one, else any: `{3}` and `{3}` join to `{3}`, with `{4}` to any. Best.
    fn join(alloc: Global, ctx: &(), w: u32, x: &Set<1>, y: &Set<1>) -> Result<Set<1>, NoMemory> {
        KSet::<1>::join(alloc, ctx, w, x, y)
    }

    /// The old word where it absorbs the new one, else any: `{3}` with `{4}` is any. That is the join, and best.
    fn widen(
        alloc: Global,
        ctx: &(),
        w: u32,
        old: &Set<1>,
        new: &Set<1>,
    ) -> Result<Set<1>, NoMemory> {
        KSet::<1>::widen(alloc, ctx, w, old, new)
    }

    /// Exactly whether each number of the new word is one of the old: any absorbs `{3}`, and `{3}` absorbs `{3}`
    /// but not `{4}`.
    fn absorbs(ctx: &(), w: u32, old: &Set<1>, new: &Set<1>) -> bool {
        KSet::<1>::absorbs(ctx, w, old, new)
    }

    /// 0 for any, else 1: `{3}` is widened once at most.
    fn rank(ctx: &(), w: u32, x: &Set<1>) -> u64 {
        KSet::<1>::rank(ctx, w, x)
    }

    /// The number, exactly where there is one: 5 of `{5}`, and none of any.
    fn exact(ctx: &(), w: u32, x: &Set<1>) -> Option<u64> {
        KSet::<1>::exact(ctx, w, x)
    }

    /// Whether it is the number; any may be each: `{5}` may be 5, and not 6. Exact among the numbers of the width.
    fn may(ctx: &(), w: u32, x: &Set<1>, k: u64) -> bool {
        KSet::<1>::may(ctx, w, x, k)
    }

    /// The number, or of any all of the width: `{5}` at the limit 1 is 5. Any of 2 bits is 0, 1, 2, 3 at the limit
    /// 4, and has no list at the limit 3.
    fn members(
        alloc: Global,
        ctx: &(),
        w: u32,
        x: &Set<1>,
        limit: u32,
    ) -> Result<Option<Vec<u64>>, NoMemory> {
        KSet::<1>::members(alloc, ctx, w, x, limit)
    }

    /// The same word once more: of `{5}` it is `{5}`.
    fn copy(alloc: Global, ctx: &(), x: &Set<1>) -> Result<Set<1>, NoMemory> {
        KSet::<1>::copy(alloc, ctx, x)
    }

    ghost capacity = { refl };

    ghost same_calls = { own_calls stamp_notes };

    ghost laws = { defuse_laws };

    ghost same_words = { same_set_is };

    ghost same_notes = { same_notes_is };
}
