//! Operations on two words.

ghost use Rattle.std.specs.Prelude.{◌≡◌, ◌<◌, ◌≤◌, ◌^◌, IfOk, IsOk, is_none, false, map, length};
ghost use Rattle.std.specs.List.{flat_map};
ghost use Rattle.word_operations.specs.Op2.{op2_of};
ghost use Rattle.word_operations.specs.Width.{IsWidth};
ghost use Rattle.base_trait.specs.Lists.{Each};
ghost use Rattle.base_strides.specs.Ends.{results_of};
ghost use Rattle.base_strides.specs.Meaning.{Fits, of_stretch, on_two, span};
ghost use Rattle.base_strides.specs.Rows.{op2_row};
ghost use Rattle.base_strides.specs.Stretch.{hull, hull_with};
ghost use Rattle.base_strides.specs.Views.{set_part};

use super::numbers::of_stretch;
use super::rows;
use super::stretch::Stretch;
use super::word::StridedSet;
use base_kset::KSet;
use base_trait::Base;
use std::alloc::{AllocError as NoMemory, Global};
use word_operations::{BinaryOperation, op2};

/// The least stretch that holds the first, and what the operation gives of `x` and each number of the list.
fn with_row(first: Stretch, op: BinaryOperation, w: u32, x: u64, ys: &[u64]) -> Stretch
    requires width { IsWidth w }
    requires left { x < 2 ^ w }
    requires right { Each (λ n. n < 2 ^ w) ys.now }
    requires order { first.lo ≤ first.hi }
    ensures value { result ≡ hull_with first (map (op2_of op w x) ys.now) }
    ensures order { result.lo ≤ result.hi }
{
    let mut out = first;
    for y in ys {
        out = out.hull(Stretch::one(op2(op, w, x, *y)));
    }
    out
}

/// The least stretch that holds the first, and what the operation gives of each number of the one list and each of
/// the other.
fn with_rows(first: Stretch, op: BinaryOperation, w: u32, xs: &[u64], ys: &[u64]) -> Stretch
    requires width { IsWidth w }
    requires left { Each (λ n. n < 2 ^ w) xs.now }
    requires right { Each (λ n. n < 2 ^ w) ys.now }
    requires order { first.lo ≤ first.hi }
    ensures value { result ≡ hull_with first (flat_map (λ x. map (op2_of op w x) ys.now) xs.now) }
    ensures order { result.lo ≤ result.hi }
{
    let mut out = first;
    for x in xs {
        out = with_row(out, op, w, *x, ys);
    }
    out
}

/// The least stretch that holds what the operation gives of each number of the one list and each of the other.
fn hull_of_results(op: BinaryOperation, w: u32, xs: &[u64], ys: &[u64]) -> Stretch
    requires width { IsWidth w }
    requires left { Each (λ n. n < 2 ^ w) xs.now }
    requires right { Each (λ n. n < 2 ^ w) ys.now }
    requires some { 1 ≤ length xs.now }
    requires others { 1 ≤ length ys.now }
    ensures value { result ≡ hull (flat_map (λ x. map (op2_of op w x) ys.now) xs.now) }
    ensures order { result.lo ≤ result.hi }
{
    let first = Stretch::one(op2(op, w, xs[0], ys[0]));
    with_rows(first, op, w, xs, ys)
}

/// An operation on two words where one is a stretch: that of their spans.
fn op2_of_spans(
    alloc: Global,
    op: BinaryOperation,
    w: u32,
    x: &StridedSet,
    y: &StridedSet,
) -> Result<StridedSet, NoMemory>
    requires width { IsWidth w }
    requires left { Fits w x.now }
    requires right { Fits w y.now }
    ensures value { IfOk result (λ r. r ≡ of_stretch (op2_row op w (span x.now) (span y.now))) }
    ensures ok { IsOk result }
{
    let r = rows::op2(alloc, op, w, x.span(), y.span())?;
    of_stretch(alloc, w, r)
}

/// The least stretch of the results of two sets, or the set of its numbers.
fn hull_of_sets(
    alloc: Global,
    op: BinaryOperation,
    w: u32,
    x: &StridedSet,
    y: &StridedSet,
) -> Result<StridedSet, NoMemory>
    requires width { IsWidth w }
    requires left { Fits w x.now }
    requires right { Fits w y.now }
    requires first { is_none (set_part x.now) ≡ false }
    requires second { is_none (set_part y.now) ≡ false }
    ensures value { IfOk result (λ r. r ≡ of_stretch (hull (results_of (op2_of op w) x.now y.now))) }
    ensures ok { IsOk result }
{
    let hull = hull_of_results(op, w, x.set().items(), y.set().items());
    of_stretch(alloc, w, hull)
}

fn op2_of_sets(
    alloc: Global,
    op: BinaryOperation,
    w: u32,
    x: &StridedSet,
    y: &StridedSet,
) -> Result<StridedSet, NoMemory>
    requires width { IsWidth w }
    requires left { Fits w x.now }
    requires right { Fits w y.now }
    requires first { is_none (set_part x.now) ≡ false }
    requires second { is_none (set_part y.now) ≡ false }
    ensures value { IfOk result (λ r. r ≡ on_two (op2_of op w) (op2_row op w) x.now y.now) }
    ensures ok { IsOk result }
{
    let set = KSet::<16>::op2(alloc, &(), op, w, x.set(), y.set())?;
    if set.is_any() {
        hull_of_sets(alloc, op, w, x, y)
    } else {
        Ok(StridedSet::of_set(set))
    }
}

/// An operation on two words: number by number of two sets, else of their spans.
pub(crate) fn op2_of_words(
    alloc: Global,
    op: BinaryOperation,
    w: u32,
    x: &StridedSet,
    y: &StridedSet,
) -> Result<StridedSet, NoMemory>
    requires width { IsWidth w }
    requires left { Fits w x.now }
    requires right { Fits w y.now }
    ensures value { IfOk result (λ r. r ≡ on_two (op2_of op w) (op2_row op w) x.now y.now) }
    ensures ok { IsOk result }
{
    if x.set().is_any() || y.set().is_any() {
        op2_of_spans(alloc, op, w, x, y)
    } else {
        op2_of_sets(alloc, op, w, x, y)
    }
}
