//! Operations on one word, and casts.

ghost use Rattle.std.specs.Prelude.{◌≡◌, IfOk, IsOk, IsTrue, is_none, false};
ghost use Rattle.word_operations.specs.Width.{IsWidth};
ghost use Rattle.base_kset.specs.Meaning.{Fits as FitsSet};
ghost use Rattle.base_kset.specs.Sets.{images};
ghost use Rattle.base_strides.specs.Changes.{IsChange, changed, changed_stretch, width_after, width_before};
ghost use Rattle.base_strides.specs.Meaning.{Fits, on_one};
ghost use Rattle.base_strides.specs.Views.{set_part};
ghost use Rattle.base_strides.specs.Words.{IsEnds};

use super::numbers::of_stretch;
use super::rows;
use super::stretch::Stretch;
use super::word::StridedSet;
use base_kset::{KSet, Set};
use base_trait::Base;
use std::alloc::{AllocError as NoMemory, Global};
use word_operations::UnaryOperation;

/// An operation on one word, or a cast that changes numbers.
#[derive(Clone, Copy)]
pub(crate) enum Change {
    Operation { op: UnaryOperation, w: u32 },
    Sign { from: u32, to: u32 },
    Cut { from: u32, to: u32 },
}

impl Change {
    /// The width of the result, in bits.
    fn width(self) -> u32
        requires { IsChange self }
        ensures value { result ≡ width_after self }
        ensures width { IsWidth result }
    {
        match self {
            Change::Operation { op: _, w } => w,
            Change::Sign { from: _, to } => to,
            Change::Cut { from: _, to } => to,
        }
    }

    /// What becomes of a set.
    fn set_after(self, alloc: Global, set: &Set<16>) -> Result<Set<16>, NoMemory>
        requires change { IsChange self }
        requires word { FitsSet 16 (width_before self) set.now }
        ensures value { IfOk result (λ r. r ≡ images 16 (changed self) set.now) }
        ensures ok { IsOk result }
    {
        match self {
            Change::Operation { op, w } => KSet::<16>::op1(alloc, &(), op, w, set),
            Change::Sign { from, to } => KSet::<16>::sext(alloc, &(), from, to, set),
            Change::Cut { from, to } => KSet::<16>::trunc(alloc, &(), from, to, set),
        }
    }

    /// What becomes of a stretch.
    fn stretch_after(self, x: Stretch) -> Stretch
        requires change { IsChange self }
        requires ends { IsEnds (width_before self) x }
        ensures { result ≡ changed_stretch self x }
    {
        match self {
            Change::Operation { op, w } => rows::op1(op, w, x),
            Change::Sign { from, to } => rows::sext(from, to, x),
            Change::Cut { from: _, to } => rows::trunc(to, x),
        }
    }
}

fn change_stretch(alloc: Global, change: Change, x: &StridedSet) -> Result<StridedSet, NoMemory>
    requires change { IsChange change }
    requires word { Fits (width_before change) x.now }
    requires strided { IsTrue (is_none (set_part x.now)) }
    ensures value { IfOk result (λ r. r ≡ on_one (changed change) (changed_stretch change) x.now) }
    ensures ok { IsOk result }
{
    of_stretch(alloc, change.width(), change.stretch_after(x.span()))
}

fn change_set(alloc: Global, change: Change, x: &StridedSet) -> Result<StridedSet, NoMemory>
    requires change { IsChange change }
    requires word { Fits (width_before change) x.now }
    requires listed { is_none (set_part x.now) ≡ false }
    ensures value { IfOk result (λ r. r ≡ on_one (changed change) (changed_stretch change) x.now) }
    ensures ok { IsOk result }
{
    let set = change.set_after(alloc, x.set())?;
    Ok(StridedSet::of_set(set))
}

/// What becomes of a word: number by number of a set, else of the stretch.
pub(crate) fn change_word(
    alloc: Global,
    change: Change,
    x: &StridedSet,
) -> Result<StridedSet, NoMemory>
    requires change { IsChange change }
    requires word { Fits (width_before change) x.now }
    ensures value { IfOk result (λ r. r ≡ on_one (changed change) (changed_stretch change) x.now) }
    ensures ok { IsOk result }
{
    if x.set().is_any() {
        change_stretch(alloc, change, x)
    } else {
        change_set(alloc, change, x)
    }
}
