//! Words: a set of at most 16 numbers, or a strided interval.

ghost use Rattle.std.specs.Prelude.{◌≡◌, IfOk, IsOk};
ghost use Rattle.word_operations.specs.Width.{IsWidth};
ghost use Rattle.base_strides.specs.Meaning.{Fits, absorbs_word, span};
ghost use Rattle.base_strides.specs.Stretch.{one};
ghost use Rattle.base_strides.specs.Views.{set_part, stretch_part, word_of};
ghost use Rattle.base_strides.specs.Words.{Strided};

use super::stretch::{Stretch, hull};
use base_kset::{KSet, Set};
use base_trait::Base;
use std::alloc::{AllocError as NoMemory, Global};
use std::hash::{Hash, Hasher};
use std::marker::Model;

/// A set of 1 to 16 numbers, or a stretch of more. The set is any where the word is the stretch; the stretch is 0
/// alone where it is the set.
#[derive(Debug, Drop)]
pub struct StridedSet {
    set: Set<16>,
    stretch: Stretch,
}

impl Model for StridedSet {
    ghost use Rattle.base_strides.specs.Views.{word_of, set_part, stretch_part, IsTied};
    ghost use Rattle.base_strides.specs.Words.{Word};

    ghost Value = { Word };

    ghost view = { λ x. word_of x.set x.stretch };

    ghost invariant = { λ x. IsTied x.set x.stretch };

    ghost inverse = { λ x. record { set = set_part x; stretch = stretch_part x } };
}

impl PartialEq for StridedSet {
    ghost use Rattle.base_strides.specs.Views.{same_word, same_word_partial};

    ghost eq = { same_word };

    ghost laws = { same_word_partial };

    fn eq(&self, other: &StridedSet) -> bool {
        self.set == other.set && self.stretch == other.stretch
    }
}

impl Eq for StridedSet {
    ghost use Rattle.base_strides.specs.Views.{same_word_equiv};

    ghost laws = { same_word_equiv };
}

impl Hash for StridedSet {
    ghost use Rattle.std.proofs.Common.{ap};
    ghost use Rattle.base_strides.specs.Views.{fed_word, same_word_is};

    ghost hash_input = { fed_word };

    ghost respects_eq = { λ x y e. ap fed_word (same_word_is x y e) };

    fn hash<H: Hasher>(&self, state: &mut H) {
        self.set.hash(state);
        self.stretch.lo.hash(state);
        self.stretch.step.hash(state);
        self.stretch.hi.hash(state);
    }
}

impl StridedSet {
    /// The set, which is any where the word is a stretch.
    pub fn set(&self) -> &Set<16>
        ensures { result.now ≡ set_part self.now }
    {
        &self.set
    }

    /// The stretch, which is 0 alone where the word is a set.
    pub fn stretch(&self) -> Stretch
        ensures { result ≡ stretch_part self.now }
    {
        self.stretch
    }

    /// The word of a set, which is not to be any. A word of the base has a set of 1 to 16 numbers.
    pub fn of_set(set: Set<16>) -> StridedSet
        ensures { result ≡ word_of set (one 0) }
    {
        StridedSet {
            set,
            stretch: Stretch::one(0),
        }
    }

    /// The least stretch that holds each number of the word.
    pub(crate) fn span(&self) -> Stretch
        ensures { result ≡ span self.now }
    {
        if self.set.is_any() {
            self.stretch
        } else {
            hull(self.set.items())
        }
    }

    /// The word of a stretch as it is. A word of the base has a stretch of more than 16 numbers (`Stretch::is_long`).
    pub fn of_stretch(alloc: Global, stretch: Stretch) -> Result<StridedSet, NoMemory>
        ensures value { IfOk result (λ r. r ≡ Strided stretch) }
        ensures ok { IsOk result }
    {
        let set = KSet::<16>::any(alloc, &(), 64)?;
        Ok(StridedSet { set, stretch })
    }

    /// The same word once more.
    pub(crate) fn copy(&self, alloc: Global) -> Result<StridedSet, NoMemory>
        ensures value { IfOk result (λ r. r ≡ self.now) }
        ensures ok { IsOk result }
    {
        let set = KSet::<16>::copy(alloc, &(), &self.set)?;
        Ok(StridedSet {
            set,
            stretch: self.stretch,
        })
    }
}

/// Whether each number that the new word stands for is one of the old one's, as far as the forms tell.
pub(crate) fn absorbs(w: u32, old: &StridedSet, new: &StridedSet) -> bool
    requires width { IsWidth w }
    requires left { Fits w old.now }
    requires right { Fits w new.now }
    ensures { result ≡ absorbs_word old.now new.now }
{
    if old.set.is_any() {
        return old.stretch.takes_in(new.span());
    }
    if new.set.is_any() {
        return false;
    }
    KSet::<16>::absorbs(&(), w, &old.set, &new.set)
}
