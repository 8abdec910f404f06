//! What is known of a word.

ghost use Rattle.std.specs.Prelude.{◌≡◌, ◌≤◌, IfOk, length};
ghost use Rattle.word_operations.specs.Width.{IsWidth};
ghost use Rattle.base_trait.specs.Lists.{items_of};
ghost use Rattle.base_strides.specs.Meaning.{Fits, exact_of, may_be, members_of, rank_of};

use super::word::StridedSet;
use super::{numbers, stops};
use base_kset::KSet;
use base_trait::Base;
use std::alloc::{AllocError as NoMemory, Global};

/// What falls where a word is widened and changes.
pub(crate) fn rank(stops: &[u64], w: u32, x: &StridedSet) -> u64
    requires width { IsWidth w }
    requires few { length stops.now ≤ 64 }
    ensures { result ≡ rank_of stops.now w x.now }
{
    if x.set().is_any() {
        stops::rank(stops, w, x.stretch())
    } else {
        131 * w as u64 + 131 + (16 - x.set().items().len() as u64)
    }
}

/// The number, where it is one alone.
pub(crate) fn exact(w: u32, x: &StridedSet) -> Option<u64>
    requires width { IsWidth w }
    requires word { Fits w x.now }
    ensures { result ≡ exact_of x.now }
{
    KSet::<16>::exact(&(), w, x.set())
}

/// Whether the number is one of the word's.
pub(crate) fn may(w: u32, x: &StridedSet, k: u64) -> bool
    requires width { IsWidth w }
    requires word { Fits w x.now }
    ensures { result ≡ may_be x.now k }
{
    if x.set().is_any() {
        x.stretch().has(k)
    } else {
        KSet::<16>::may(&(), w, x.set(), k)
    }
}

/// The numbers of the word, ascending, where they are no more than `limit`.
pub(crate) fn members(
    alloc: Global,
    w: u32,
    x: &StridedSet,
    limit: u32,
) -> Result<Option<Vec<u64>>, NoMemory>
    requires width { IsWidth w }
    requires word { Fits w x.now }
    ensures { IfOk result (λ r. items_of r ≡ members_of x.now limit) }
{
    if x.set().is_any() {
        numbers::members(alloc, x.stretch(), limit)
    } else {
        KSet::<16>::members(alloc, &(), w, x.set(), limit)
    }
}
