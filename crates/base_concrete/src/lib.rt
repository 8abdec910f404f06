//! Single numbers as a base: what is exact of every run of code. Its operations on words take no memory,
//! but for lists of members, and it doesn't join: join and widening give their first side, which is both where
//! the sides are equal.
#![tactic(auto)]

use base_trait::{Base, Stamp, Tri, dispatch};
use std::alloc::{AllocError as NoMemory, Global};
use word_operations::{
    BinaryOperation, UnaryOperation, WordComparison, cmp, op1, op2, sext, trunc, zext,
};

/// One number, and the one stamp of a cell.
pub struct Concrete;

impl Base for Concrete {
    ghost use Rattle.std.specs.Prelude.{◌≡◌, ◌<◌, ◌≤◌, ◌^◌, IfOk, IsOk, refl};
    ghost use Rattle.word_operations.specs.Op1.{op1_of};
    ghost use Rattle.word_operations.specs.Op2.{op2_of};
    ghost use Rattle.word_operations.specs.Casts.{zext_of, sext_of, trunc_of};
    ghost use Rattle.word_operations.specs.Width.{IsWidth};
    ghost use Rattle.base_trait.specs.Laws.{IsExtension};
    ghost use Rattle.base_trait.specs.Notes.{own_calls};
    ghost use Rattle.base_trait.specs.OneStamp.{one_stamp};
    ghost use Rattle.std.proofs.Common.{rules};
    ghost use Rattle.std.specs.Cmp.Rules.{comparing};
    ghost use Rattle.base_concrete.specs.Meaning.{concrete};
    ghost use Rattle.base_concrete.specs.Instance.{concrete_laws, same_numbers};

    type Word = u64;

    type Note = Stamp;

    type Ctx = ();

    const CAP: u64 = 0x1_0000_0000;

    ghost CAP = { 2 ^ 32 };

    ghost algebra = { concrete };

    /// The number itself, which is best: 5 is 5.
    fn constant(_alloc: Global, _ctx: &(), w: u32, v: u64) -> Result<u64, NoMemory>
        requires width { IsWidth w }
        requires number { v < 2 ^ w }
        ensures value { IfOk result (λ r. r ≡ v) }
        ensures fits { IfOk result (λ r. r < 2 ^ w) }
        ensures ok { IsOk result }
    {
        Ok(v)
    }

    /// 0 at each width: no word stands for several numbers, so it lacks 1 to 255 at 8 bits.
    fn any(_alloc: Global, _ctx: &(), w: u32) -> Result<u64, NoMemory>
        requires width { IsWidth w }
        ensures value { IfOk result (λ r. r ≡ 0) }
        ensures fits { IfOk result (λ r. r < 2 ^ w) }
        ensures ok { IsOk result }
    {
        Ok(0)
    }

    /// The first number: of 3 to 5 it is 3, which lacks 4 and 5.
    fn range(_alloc: Global, _ctx: &(), w: u32, low: u64, high: u64) -> Result<u64, NoMemory>
        requires width { IsWidth w }
        requires order { low ≤ high }
        requires number { high < 2 ^ w }
        ensures value { IfOk result (λ r. r ≡ low) }
        ensures fits { IfOk result (λ r. r < 2 ^ w) }
        ensures ok { IsOk result }
    {
        Ok(low)
    }

    /// The one result: best. At 8 bits, Neg of 1 is 255.
    fn op1(_alloc: Global, _ctx: &(), op: UnaryOperation, w: u32, x: &u64) -> Result<u64, NoMemory>
        requires width { IsWidth w }
        requires word { x.now < 2 ^ w }
        ensures value { IfOk result (λ r. r ≡ op1_of op w x.now) }
        ensures fits { IfOk result (λ r. r < 2 ^ w) }
        ensures ok { IsOk result }
    {
        Ok(dispatch!(op (op, w, *x) { _ => op1 }))
    }

    /// The one result: best. At 8 bits, 255 + 2 is 1.
    fn op2(
        _alloc: Global,
        _ctx: &(),
        op: BinaryOperation,
        w: u32,
        x: &u64,
        y: &u64,
    ) -> Result<u64, NoMemory>
        requires width { IsWidth w }
        requires left { x.now < 2 ^ w }
        requires right { y.now < 2 ^ w }
        ensures value { IfOk result (λ r. r ≡ op2_of op w x.now y.now) }
        ensures fits { IfOk result (λ r. r < 2 ^ w) }
        ensures ok { IsOk result }
    {
        Ok(dispatch!(op (op, w, *x, *y) { _ => op2 }))
    }

    /// Exactly what the comparison gives, and never both: 1 < 5 is true alone.
    fn cmp(_ctx: &(), c: WordComparison, w: u32, x: &u64, y: &u64) -> Tri {
        let is = dispatch!(c (c, w, *x, *y) { _ => cmp });
        Tri {
            may_true: is,
            may_false: !is,
        }
    }

    /// The same number, which is best: from 4 to 8 bits, 8 stays 8.
    fn zext(_alloc: Global, _ctx: &(), from: u32, to: u32, x: &u64) -> Result<u64, NoMemory>
        requires widths { IsExtension from to }
        requires word { x.now < 2 ^ from }
        ensures value { IfOk result (λ r. r ≡ zext_of from to x.now) }
        ensures fits { IfOk result (λ r. r < 2 ^ to) }
        ensures ok { IsOk result }
    {
        Ok(zext(from, to, *x))
    }

    /// The word of the same signed reading, which is best: from 4 to 8 bits, 8 becomes 248.
    fn sext(_alloc: Global, _ctx: &(), from: u32, to: u32, x: &u64) -> Result<u64, NoMemory>
        requires widths { IsExtension from to }
        requires word { x.now < 2 ^ from }
        ensures value { IfOk result (λ r. r ≡ sext_of from to x.now) }
        ensures fits { IfOk result (λ r. r < 2 ^ to) }
        ensures ok { IsOk result }
    {
        Ok(sext(from, to, *x))
    }

    /// The lowest bits, which is best: from 8 to 4 bits, 17 becomes 1.
    fn trunc(_alloc: Global, _ctx: &(), from: u32, to: u32, x: &u64) -> Result<u64, NoMemory>
        requires widths { IsExtension to from }
        requires word { x.now < 2 ^ from }
        ensures value { IfOk result (λ r. r ≡ trunc_of from to x.now) }
        ensures fits { IfOk result (λ r. r < 2 ^ to) }
        ensures ok { IsOk result }
    {
        Ok(trunc(from, to, *x))
    }

    /// The first side, which is both where they are equal: 3 and 3 give 3. Of 3 and 4 it would be 3, which lacks 4.
    fn join(_alloc: Global, _ctx: &(), w: u32, x: &u64, y: &u64) -> Result<u64, NoMemory>
        requires width { IsWidth w }
        requires left { x.now < 2 ^ w }
        requires right { y.now < 2 ^ w }
        ensures value { IfOk result (λ r. r ≡ x.now) }
        ensures fits { IfOk result (λ r. r < 2 ^ w) }
        ensures ok { IsOk result }
    {
        Ok(*x)
    }

    /// The old side, which is both where they are equal: 3 with 3 is 3. With 4 it would be 3, which lacks 4.
    fn widen(_alloc: Global, _ctx: &(), w: u32, old: &u64, new: &u64) -> Result<u64, NoMemory>
        requires width { IsWidth w }
        requires left { old.now < 2 ^ w }
        requires right { new.now < 2 ^ w }
        ensures value { IfOk result (λ r. r ≡ old.now) }
        ensures fits { IfOk result (λ r. r < 2 ^ w) }
        ensures ok { IsOk result }
    {
        Ok(*old)
    }

    /// Exactly whether both are one number: 3 absorbs 3, and not 4.
    fn absorbs(_ctx: &(), _w: u32, old: &u64, new: &u64) -> bool {
        *old == *new
    }

    /// 0, also of 3: nothing is ever widened.
    fn rank(_ctx: &(), _w: u32, _x: &u64) -> u64 {
        0
    }

    /// The number, always: of 5 it is 5.
    fn exact(_ctx: &(), _w: u32, x: &u64) -> Option<u64> {
        Some(*x)
    }

    /// Exactly whether it is the number: 5 may be 5, and not 6.
    fn may(_ctx: &(), _w: u32, x: &u64, k: u64) -> bool {
        *x == k
    }

    /// The number alone: of 5 it is 5; at the limit 0 there is no list.
    fn members(
        alloc: Global,
        _ctx: &(),
        _w: u32,
        x: &u64,
        limit: u32,
    ) -> Result<Option<Vec<u64>>, NoMemory> {
        if 1 <= limit {
            Ok(Some(vec![in alloc; *x]?))
        } else {
            Ok(None)
        }
    }

    /// The same number once more: of 5 it is 5.
    fn copy(_alloc: Global, _ctx: &(), x: &u64) -> Result<u64, NoMemory>
        ensures value { IfOk result (λ r. r ≡ x.now) }
        ensures ok { IsOk result }
    {
        Ok(*x)
    }

    ghost capacity = { refl };

    ghost same_calls = { own_calls one_stamp };

    ghost laws = { concrete_laws };

    ghost same_words = { same_numbers };

    ghost same_notes = { λ x y e. Prim.search (comparing, rules) };
}
