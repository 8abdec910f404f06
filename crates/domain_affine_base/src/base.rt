//! The base of affine forms.

use super::casts::{sext, trunc, zext};
use super::compare::compare;
use super::join::{absorbs, join, range, rank};
use super::members::{exact, may, members};
use super::operations::{of_one, of_two};
use super::tracked::Tracked;
use super::word::Word;
use base_trait::{Base, MOST_LISTED, Tri};
use std::alloc::{AllocError as NoMemory, Global};
use word_operations::{BinaryOperation, UnaryOperation, WordComparison};

/// Words that are constants, or forms over the tracked cells; of definitions nothing is told.
pub struct Affine;

impl Base for Affine {
    ghost use Rattle.std.specs.Prelude.{◌≡◌, ◌<◌, ◌≤◌, ◌^◌, IfOk, IsOk, length, refl};
    ghost use Rattle.std.proofs.Common.{rules};
    ghost use Rattle.std.specs.Cmp.Rules.{comparing};
    ghost use Rattle.word_operations.specs.Width.{IsWidth};
    ghost use Rattle.base_trait.specs.Laws.{IsExtension};
    ghost use Rattle.base_trait.specs.NoNotes.{no_notes};
    ghost use Rattle.base_trait.specs.Notes.{own_calls};
    ghost use Rattle.base_trait.specs.Precision.{most_listed};
    ghost use Rattle.domain_affine_base.specs.Instance.{affine_laws};
    ghost use Rattle.domain_affine_base.specs.Meaning.{affine};
    ghost use Rattle.domain_affine_base.specs.Same.{same_word_is};

    type Word = Word;

    type Note = ();

    type Ctx = Tracked;

    const CAP: u64 = MOST_LISTED;

    ghost CAP = { most_listed };

    ghost algebra = { affine };

    /// The constant, which is best: 5 stands for 5 in each valuation.
    fn constant(_alloc: Global, _ctx: &Tracked, _w: u32, v: u64) -> Result<Word, NoMemory> {
        Ok(Word::Const(v))
    }

    /// Every number of the width in each valuation: at 8 bits 0 to 255.
    fn any(_alloc: Global, _ctx: &Tracked, _w: u32) -> Result<Word, NoMemory> {
        Ok(Word::Any)
    }

    /// The constant where `low` is `high`, else any: 5 to 5 is 5, and 5 to 6 is any. Best, as each other word
    /// stands for one number.
    fn range(
        _alloc: Global,
        _ctx: &Tracked,
        _w: u32,
        low: u64,
        high: u64,
    ) -> Result<Word, NoMemory> {
        Ok(range(low, high))
    }

    /// Of a constant the exact result, of a form a form and of any, any. Of 1 + r, Neg is -1 - r and Not is -2 - r.
    /// Best.
    fn op1(
        alloc: Global,
        _ctx: &Tracked,
        op: UnaryOperation,
        w: u32,
        x: &Word,
    ) -> Result<Word, NoMemory> {
        of_one(alloc, op, w, x)
    }

    /// Of two constants the exact result. Of forms and constants sums, differences, products with a constant and
    /// shifts to the left by a constant are exact. 1 + r and 2 - r add up to 3. Every other operation gives any,
    /// not always the best: (1 + r) & 0 is any, though 0 in each valuation.
    fn op2(
        alloc: Global,
        _ctx: &Tracked,
        op: BinaryOperation,
        w: u32,
        x: &Word,
        y: &Word,
    ) -> Result<Word, NoMemory> {
        of_two(alloc, op, w, x, y)
    }

    /// Of two constants the exact truth value. Forms with the same multiples are equal or not: 1 + r is never
    /// 3 + r. Of equal ones each comparison is known. Others may be both, which is not always exact: 2r is never 1.
    fn cmp(_ctx: &Tracked, c: WordComparison, w: u32, x: &Word, y: &Word) -> Tri {
        compare(c, w, x, y)
    }

    /// The same number, which is best: from 4 to 8 bits, 8 stays 8. Of a form it is any, also from 32 to 32 bits,
    /// where the form itself would be the best.
    fn zext(
        _alloc: Global,
        _ctx: &Tracked,
        from: u32,
        to: u32,
        x: &Word,
    ) -> Result<Word, NoMemory> {
        Ok(zext(from, to, x))
    }

    /// The number of the same signed reading, which is best: from 4 to 8 bits, 8 becomes 248. Of a form it is any,
    /// also from 32 to 32 bits, where the form itself would be the best.
    fn sext(
        _alloc: Global,
        _ctx: &Tracked,
        from: u32,
        to: u32,
        x: &Word,
    ) -> Result<Word, NoMemory> {
        Ok(sext(from, to, x))
    }

    /// The lowest bits of the number, which is best: from 8 to 4 bits, 17 becomes 1. Of a form it is any, and not
    /// always the best: those of 5 + 256r to 8 bits are 5 in each valuation.
    fn trunc(
        _alloc: Global,
        _ctx: &Tracked,
        from: u32,
        to: u32,
        x: &Word,
    ) -> Result<Word, NoMemory> {
        Ok(trunc(from, to, x))
    }

    /// Equal words are kept, as 5 + r with 5 + r. The join of others is any, as of 5 + r and 7 + r. Best, as each
    /// other word stands for one number in a valuation.
    fn join(alloc: Global, _ctx: &Tracked, _w: u32, x: &Word, y: &Word) -> Result<Word, NoMemory> {
        join(alloc, x, y)
    }

    /// The join, so best: 5 with 5 is 5, and 5 with 7 is any.
    fn widen(
        alloc: Global,
        _ctx: &Tracked,
        _w: u32,
        old: &Word,
        new: &Word,
    ) -> Result<Word, NoMemory> {
        join(alloc, old, new)
    }

    /// Whether the old word is any, or equal to the new one. Any absorbs 5 + r, and 5 + r absorbs itself, but
    /// neither 7 + r nor 5. Exact, as words that are not equal differ in some valuation.
    fn absorbs(_ctx: &Tracked, _w: u32, old: &Word, new: &Word) -> bool {
        absorbs(old, new)
    }

    /// 0 for any, else 1: a word, as 5 + r, is widened once at most.
    fn rank(_ctx: &Tracked, _w: u32, x: &Word) -> u64 {
        rank(x)
    }

    /// The number of a constant: of 5 it is 5. Of 5 + r there is none, as its number changes with r.
    fn exact(_ctx: &Tracked, _w: u32, x: &Word) -> Option<u64> {
        exact(x)
    }

    /// A constant may be its number alone; every other word may be each. Of forms that is not exact: 2r may be 3,
    /// though it never is.
    fn may(_ctx: &Tracked, _w: u32, x: &Word, k: u64) -> bool {
        may(x, k)
    }

    /// The number of a constant: of 5 it is 5. Of any it is all of the width, 0, 1, 2, 3 at 2 bits and the limit 4.
    /// A form has 32 bits, so no list.
    fn members(
        alloc: Global,
        _ctx: &Tracked,
        w: u32,
        x: &Word,
        limit: u32,
    ) -> Result<Option<Vec<u64>>, NoMemory> {
        members(alloc, w, x, limit)
    }

    /// The same word once more: of 5 + r it is 5 + r.
    fn copy(alloc: Global, _ctx: &Tracked, x: &Word) -> Result<Word, NoMemory> {
        x.copy(alloc)
    }

    ghost capacity = { refl };

    ghost same_calls = { own_calls no_notes };

    ghost laws = { affine_laws };

    ghost same_words = { same_word_is };

    ghost same_notes = { λ x y e. Prim.search (comparing, rules) };
}
