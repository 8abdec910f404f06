//! The base of small sets.

use super::changes::Change;
use super::operations::{both, image, product};
use super::reading::{compare, copy_of, has, has_all};
use super::set::Set;
use base_trait::{Base, MOST_LISTED, Tri, all_numbers, dispatch};
use std::alloc::{AllocError as NoMemory, Global};
use word_operations::{BinaryOperation, UnaryOperation, WordComparison};

/// At most `K` numbers, or any; of definitions nothing is told. But for lists of members it takes no
/// memory.
pub struct KSet<const K: usize>;

impl<const K: usize> Base for KSet<K> {
    ghost use Rattle.std.specs.Prelude.{◌≡◌, ◌∷◌, [], ◌<◌, ◌≤◌, ◌^◌, ℕ, IfOk, IsOk, refl, None, if◌then◌else◌};
    ghost use Rattle.std.proofs.Common.{rules};
    ghost use Rattle.std.specs.Cmp.Rules.{comparing};
    ghost use Rattle.word_operations.specs.Op1.{op1_of};
    ghost use Rattle.word_operations.specs.Op2.{op2_of};
    ghost use Rattle.word_operations.specs.Casts.{zext_of, sext_of, trunc_of};
    ghost use Rattle.word_operations.specs.Width.{IsWidth};
    ghost use Rattle.base_trait.specs.Laws.{IsExtension};
    ghost use Rattle.base_trait.specs.NoNotes.{no_notes};
    ghost use Rattle.base_trait.specs.Notes.{own_calls};
    ghost use Rattle.base_trait.specs.Precision.{most_listed};
    ghost use Rattle.base_kset.specs.Instance.{kset_laws};
    ghost use Rattle.base_kset.specs.Meaning.{absorbs_set, Fits, kset};
    ghost use Rattle.base_kset.specs.Same.{same_set_is};
    ghost use Rattle.base_kset.specs.Sets.{bounded, from_to, images, products, union};

    type Word = Set<K>;

    type Note = ();

    type Ctx = ();

    const CAP: u64 = MOST_LISTED;

    ghost CAP = { most_listed };

    ghost algebra = { kset K };

    /// The set of one number, or any where K is 0: 5 is `{5}`. Best.
    fn constant(_alloc: Global, _ctx: &(), w: u32, v: u64) -> Result<Set<K>, NoMemory>
        requires width { IsWidth w }
        requires number { v < 2 ^ w }
        ensures value { IfOk result (λ r. r ≡ bounded K (v ∷ [])) }
        ensures fits { IfOk result (λ r. Fits K w r) }
        ensures ok { IsOk result }
    {
        let mut out = Set::empty();
        out.add(v);
        Ok(out)
    }

    /// Every number of the width, at 8 bits 0 to 255. Not the full set: of 1 bit `any` and `{0, 1}` are two words.
    fn any(_alloc: Global, _ctx: &(), w: u32) -> Result<Set<K>, NoMemory>
        requires width { IsWidth w }
        ensures value { IfOk result (λ r. r ≡ None) }
        ensures fits { IfOk result (λ r. Fits K w r) }
        ensures ok { IsOk result }
    {
        Ok(Set::any())
    }

    /// The numbers from `low` to `high`, or any where they are more than K: 3 to 5 is `{3, 4, 5}`. Best.
    fn range(_alloc: Global, _ctx: &(), w: u32, low: u64, high: u64) -> Result<Set<K>, NoMemory>
        requires width { IsWidth w }
        requires order { low ≤ high }
        requires number { high < 2 ^ w }
        ensures value { IfOk result (λ r. r ≡ from_to K low high) }
        ensures fits { IfOk result (λ r. Fits K w r) }
        ensures ok { IsOk result }
    {
        Ok(Set::from_to(low, high))
    }

    /// The set of all results, and of any, any: best among words. At 8 bits, Neg of `{1, 2}` is `{254, 255}`.
    fn op1(
        _alloc: Global,
        _ctx: &(),
        op: UnaryOperation,
        w: u32,
        x: &Set<K>,
    ) -> Result<Set<K>, NoMemory>
        requires width { IsWidth w }
        requires word { Fits K w x.now }
        ensures value { IfOk result (λ r. r ≡ images K (op1_of op w) x.now) }
        ensures fits { IfOk result (λ r. Fits K w r) }
        ensures ok { IsOk result }
    {
        Ok(image(Change::Operation { op, w }, x))
    }

    /// Of two sets that of all results, or any where they are more than K: best among words. `{1, 2} + {3, 4}` is
    /// `{4, 5, 6}`. With any it is any, and not always the best: `any & {0}` is any, though each result is 0.
    fn op2(
        _alloc: Global,
        _ctx: &(),
        op: BinaryOperation,
        w: u32,
        x: &Set<K>,
        y: &Set<K>,
    ) -> Result<Set<K>, NoMemory>
        requires width { IsWidth w }
        requires left { Fits K w x.now }
        requires right { Fits K w y.now }
        ensures value { IfOk result (λ r. r ≡ products K (op2_of op w) x.now y.now) }
        ensures fits { IfOk result (λ r. Fits K w r) }
        ensures ok { IsOk result }
    {
        Ok(dispatch!(op (op, w, x, y) { _ => product }))
    }

    /// Of two sets exactly the truth values of all pairs, and with any both. `{1, 9} < {5}` may be both.
    /// `any < {0}` is said to be both, though it is never true.
    fn cmp(_ctx: &(), c: WordComparison, w: u32, x: &Set<K>, y: &Set<K>) -> Tri {
        dispatch!(c (c, w, x, y) { _ => compare })
    }

    /// The same numbers, which is best: from 4 to 8 bits `{7, 8}` stays `{7, 8}`. Of any it is any: from
    /// 1 to 8 bits `{0, 1}` would be the best where K is at least 2.
    fn zext(_alloc: Global, _ctx: &(), from: u32, to: u32, x: &Set<K>) -> Result<Set<K>, NoMemory>
        requires widths { IsExtension from to }
        requires word { Fits K from x.now }
        ensures value { IfOk result (λ r. r ≡ images K (zext_of from to) x.now) }
        ensures fits { IfOk result (λ r. Fits K to r) }
        ensures ok { IsOk result }
    {
        Ok(image(Change::Zero { from, to }, x))
    }

    /// The set of all results, which is best: from 4 to 8 bits `{7, 8}` becomes `{7, 248}`. Of any it is any: from
    /// 1 to 8 bits `{0, 255}` would be the best where K is at least 2.
    fn sext(_alloc: Global, _ctx: &(), from: u32, to: u32, x: &Set<K>) -> Result<Set<K>, NoMemory>
        requires widths { IsExtension from to }
        requires word { Fits K from x.now }
        ensures value { IfOk result (λ r. r ≡ images K (sext_of from to) x.now) }
        ensures fits { IfOk result (λ r. Fits K to r) }
        ensures ok { IsOk result }
    {
        Ok(image(Change::Sign { from, to }, x))
    }

    /// The set of all results, and of any, any: best. From 8 to 4 bits, `{1, 17}` becomes `{1}`.
    fn trunc(_alloc: Global, _ctx: &(), from: u32, to: u32, x: &Set<K>) -> Result<Set<K>, NoMemory>
        requires widths { IsExtension to from }
        requires word { Fits K from x.now }
        ensures value { IfOk result (λ r. r ≡ images K (trunc_of from to) x.now) }
        ensures fits { IfOk result (λ r. Fits K to r) }
        ensures ok { IsOk result }
    {
        Ok(image(Change::Cut { from, to }, x))
    }

    /// The union, or any where it has more than K numbers: best. `{1, 2}` and `{2, 5}` join to `{1, 2, 5}`.
    fn join(_alloc: Global, _ctx: &(), w: u32, x: &Set<K>, y: &Set<K>) -> Result<Set<K>, NoMemory>
        requires width { IsWidth w }
        requires left { Fits K w x.now }
        requires right { Fits K w y.now }
        ensures value { IfOk result (λ r. r ≡ union K x.now y.now) }
        ensures fits { IfOk result (λ r. Fits K w r) }
        ensures ok { IsOk result }
    {
        Ok(both(x, y))
    }

    /// The old set where it has the numbers of the new one, else any. `{1, 2}` widened with `{2}` stays, and with
    /// `{3}` it is any. The best would be `{1, 2, 3}` where K is at least 3.
    fn widen(
        _alloc: Global,
        ctx: &(),
        w: u32,
        old: &Set<K>,
        new: &Set<K>,
    ) -> Result<Set<K>, NoMemory>
        requires width { IsWidth w }
        requires left { Fits K w old.now }
        requires right { Fits K w new.now }
        ensures value { IfOk result (λ r. r ≡ (if absorbs_set old.now new.now then old.now else None)) }
        ensures fits { IfOk result (λ r. Fits K w r) }
        ensures ok { IsOk result }
    {
        if Self::absorbs(ctx, w, old, new) {
            Ok(old.copy())
        } else {
            Ok(Set::any())
        }
    }

    /// Whether the old set has each number of the new one; any has every number: `{1, 2}` absorbs `{2}`, and not
    /// `{3}`. No set absorbs any, though of 1 bit `{0, 1}` has as many numbers.
    fn absorbs(_ctx: &(), _w: u32, old: &Set<K>, new: &Set<K>) -> bool {
        match (old.listed(), new.listed()) {
            (None, _) => true,
            (Some(_numbers), None) => false,
            (Some(numbers), Some(others)) => has_all(numbers, others),
        }
    }

    /// 0 for any, else 1: a set, as `{1, 2}`, is widened once at most.
    fn rank(_ctx: &(), _w: u32, x: &Set<K>) -> u64 {
        if x.is_any() { 0 } else { 1 }
    }

    /// The number, exactly where there is one: 5 of `{5}`, and none of `{5, 6}` and of any.
    fn exact(_ctx: &(), _w: u32, x: &Set<K>) -> Option<u64> {
        match x.listed() {
            Some([number]) => Some(*number),
            _ => None,
        }
    }

    /// Exactly whether the set has the number; any may be each: `{1, 2}` may be 2, and not 3.
    fn may(_ctx: &(), _w: u32, x: &Set<K>, k: u64) -> bool {
        match x.listed() {
            Some(numbers) => has(numbers, k),
            None => true,
        }
    }

    /// The numbers of the set; of any, all of the width. `{1, 2}` has no list at the limit 1. Any of 2 bits is
    /// 0, 1, 2, 3 at the limit 4.
    fn members(
        alloc: Global,
        _ctx: &(),
        w: u32,
        x: &Set<K>,
        limit: u32,
    ) -> Result<Option<Vec<u64>>, NoMemory> {
        let Some(numbers) = x.listed() else {
            return all_numbers(alloc, w, limit);
        };
        if numbers.len() <= limit as usize {
            Ok(Some(copy_of(alloc, numbers)?))
        } else {
            Ok(None)
        }
    }

    /// The same word once more: of `{1, 2}` it is `{1, 2}`.
    fn copy(_alloc: Global, _ctx: &(), x: &Set<K>) -> Result<Set<K>, NoMemory>
        ensures value { IfOk result (λ r. r ≡ x.now) }
        ensures ok { IsOk result }
    {
        Ok(x.copy())
    }

    ghost capacity = { refl };

    ghost same_calls = { own_calls no_notes };

    ghost laws = { kset_laws K };

    ghost same_words = { same_set_is };

    ghost same_notes = { λ x y e. Prim.search (comparing, rules) };
}
