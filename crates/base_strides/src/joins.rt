//! Joins and widening of words.

ghost use Rattle.std.specs.Prelude.{◌≡◌, IfOk, IsOk, is_none, false, if◌then◌else◌};
ghost use Rattle.word_operations.specs.Width.{IsWidth};
ghost use Rattle.base_strides.specs.Ends.{union_hull};
ghost use Rattle.base_strides.specs.Meaning.{Fits, absorbs_word, grown, join_of, of_stretch, span, widened};
ghost use Rattle.base_strides.specs.Stretch.{hull_of};
ghost use Rattle.base_strides.specs.Views.{set_part};
ghost use Rattle.base_strides.specs.Words.{Strided};

use super::numbers::of_stretch;
use super::stops::widened;
use super::stretch::hull_with;
use super::word::{StridedSet, absorbs};
use base_kset::KSet;
use base_trait::Base;
use std::alloc::{AllocError as NoMemory, Global};

/// The join of two words where one is a stretch: the least stretch that holds both spans.
fn join_spans(alloc: Global, w: u32, x: &StridedSet, y: &StridedSet) -> Result<StridedSet, NoMemory>
    requires width { IsWidth w }
    requires left { Fits w x.now }
    requires right { Fits w y.now }
    ensures value { IfOk result (λ r. r ≡ of_stretch (hull_of (span x.now) (span y.now))) }
    ensures ok { IsOk result }
{
    of_stretch(alloc, w, x.span().hull(y.span()))
}

/// The least stretch that holds the numbers of two sets, or the set of its numbers.
fn hull_of_sets(
    alloc: Global,
    w: u32,
    x: &StridedSet,
    y: &StridedSet,
) -> Result<StridedSet, NoMemory>
    requires width { IsWidth w }
    requires left { Fits w x.now }
    requires right { Fits w y.now }
    requires first { is_none (set_part x.now) ≡ false }
    requires second { is_none (set_part y.now) ≡ false }
    ensures value { IfOk result (λ r. r ≡ of_stretch (union_hull x.now y.now)) }
    ensures ok { IsOk result }
{
    of_stretch(alloc, w, hull_with(x.span(), y.set().items()))
}

fn join_sets(alloc: Global, w: u32, x: &StridedSet, y: &StridedSet) -> Result<StridedSet, NoMemory>
    requires width { IsWidth w }
    requires left { Fits w x.now }
    requires right { Fits w y.now }
    requires first { is_none (set_part x.now) ≡ false }
    requires second { is_none (set_part y.now) ≡ false }
    ensures value { IfOk result (λ r. r ≡ join_of x.now y.now) }
    ensures ok { IsOk result }
{
    let set = KSet::<16>::join(alloc, &(), w, x.set(), y.set())?;
    if set.is_any() {
        hull_of_sets(alloc, w, x, y)
    } else {
        Ok(StridedSet::of_set(set))
    }
}

/// The join: the union of two sets where it has at most 16 numbers, else the least stretch that holds both.
pub(crate) fn join(
    alloc: Global,
    w: u32,
    x: &StridedSet,
    y: &StridedSet,
) -> Result<StridedSet, NoMemory>
    requires width { IsWidth w }
    requires left { Fits w x.now }
    requires right { Fits w y.now }
    ensures value { IfOk result (λ r. r ≡ join_of x.now y.now) }
    ensures ok { IsOk result }
{
    if x.set().is_any() || y.set().is_any() {
        join_spans(alloc, w, x, y)
    } else {
        join_sets(alloc, w, x, y)
    }
}

/// The spans of two words, widened.
fn grow_spans(
    alloc: Global,
    stops: &[u64],
    w: u32,
    old: &StridedSet,
    new: &StridedSet,
) -> Result<StridedSet, NoMemory>
    requires width { IsWidth w }
    requires left { Fits w old.now }
    requires right { Fits w new.now }
    ensures value { IfOk result (λ r. r ≡ Strided (widened stops.now w (span old.now) (span new.now))) }
    ensures ok { IsOk result }
{
    StridedSet::of_stretch(alloc, widened(stops, w, old.span(), new.span()))
}

fn grow_sets(
    alloc: Global,
    stops: &[u64],
    w: u32,
    old: &StridedSet,
    new: &StridedSet,
) -> Result<StridedSet, NoMemory>
    requires width { IsWidth w }
    requires left { Fits w old.now }
    requires right { Fits w new.now }
    requires first { is_none (set_part old.now) ≡ false }
    requires second { is_none (set_part new.now) ≡ false }
    ensures value { IfOk result (λ r. r ≡ grown stops.now w old.now new.now) }
    ensures ok { IsOk result }
{
    let set = KSet::<16>::join(alloc, &(), w, old.set(), new.set())?;
    if set.is_any() {
        grow_spans(alloc, stops, w, old, new)
    } else {
        Ok(StridedSet::of_set(set))
    }
}

fn grow(
    alloc: Global,
    stops: &[u64],
    w: u32,
    old: &StridedSet,
    new: &StridedSet,
) -> Result<StridedSet, NoMemory>
    requires width { IsWidth w }
    requires left { Fits w old.now }
    requires right { Fits w new.now }
    ensures value { IfOk result (λ r. r ≡ grown stops.now w old.now new.now) }
    ensures ok { IsOk result }
{
    if old.set().is_any() || new.set().is_any() {
        grow_spans(alloc, stops, w, old, new)
    } else {
        grow_sets(alloc, stops, w, old, new)
    }
}

/// The old word where it absorbs the new one. Else of two sets their union, where it has at most 16 numbers; else the
/// spans, with each end that the new word passes at the next stop.
pub(crate) fn widen(
    alloc: Global,
    stops: &[u64],
    w: u32,
    old: &StridedSet,
    new: &StridedSet,
) -> Result<StridedSet, NoMemory>
    requires width { IsWidth w }
    requires left { Fits w old.now }
    requires right { Fits w new.now }
    ensures value { IfOk result (λ r. r ≡ (if absorbs_word old.now new.now then old.now else grown stops.now w old.now new.now)) }
    ensures ok { IsOk result }
{
    if absorbs(w, old, new) {
        old.copy(alloc)
    } else {
        grow(alloc, stops, w, old, new)
    }
}
