//! Small sets and strided intervals are cut exactly.

ghost use Rattle.std.specs.Prelude.{◌≡◌, ◌<◌, ◌≤◌, ◌+◌, ◌*◌, Some, IfOk};
ghost use Rattle.word_operations.specs.Width.{IsWidth};
ghost use Rattle.base_kset.specs.Sets.{IsSet};
ghost use Rattle.base_strides.specs.Meaning.{Fits, of_stretch};
ghost use Rattle.base_strides.specs.Sound.{IsPart};
ghost use Rattle.base_strides.specs.Stretch.{more, numbers, stretch};
ghost use Rattle.base_strides.specs.Views.{word_of};
ghost use Rattle.base_strides.specs.Words.{IsEnds};
ghost use Rattle.base_cuts.specs.Sets.{numbers_between};
ghost use Rattle.base_cuts.specs.Strides.{first_from, listed_if_any, rounded_up, stretch_left, stretch_meet, word_meet};

use super::cut_base::CutBase;
use super::sets::{numbers_between, with_last};
use base_kset::{KSet, Set};
use base_strides::{Stops, Stretch, StridedSet, Strides};
use base_trait::Base;
use std::alloc::{AllocError as NoMemory, Global};

impl CutBase for Strides {
    ghost use Rattle.base_cuts.specs.StrideLaws.{strides_are_cut};
    ghost use Rattle.base_cuts.specs.Strides.{stride_cuts};

    ghost cuts = { stride_cuts };

    /// The numbers that lie between: 0, 4, .., 64 between 5 and 80 is 8, 12, .., 64, a set since it has at most 16 numbers.
    fn meet(
        alloc: Global,
        _ctx: &Stops,
        w: u32,
        x: &StridedSet,
        low: u64,
        high: u64,
    ) -> Result<Option<StridedSet>, NoMemory> {
        meet_word(alloc, w, x, low, high)
    }

    ghost cut_laws = { strides_are_cut };
}

/// What is left of a word between two numbers.
#[tactic(auto, using(crate::proofs::Words::whole))]
fn meet_word(
    alloc: Global,
    w: u32,
    x: &StridedSet,
    low: u64,
    high: u64,
) -> Result<Option<StridedSet>, NoMemory>
    requires width { IsWidth w }
    requires word { Fits w x.now }
    ensures { IfOk result (λ r. r ≡ word_meet x.now low high) }
{
    meet_parts(alloc, w, x.set(), x.stretch(), low, high)
}

/// The same of the set, and of the stretch where that is any.
fn meet_parts(
    alloc: Global,
    w: u32,
    set: &Set<16>,
    stretch: Stretch,
    low: u64,
    high: u64,
) -> Result<Option<StridedSet>, NoMemory>
    requires width { IsWidth w }
    requires word { Fits w (word_of set.now stretch) }
    ensures { IfOk result (λ r. r ≡ word_meet (word_of set.now stretch) low high) }
{
    if set.is_any() {
        meet_stretch(alloc, w, stretch, low, high)
    } else {
        meet_numbers(alloc, w, set.items(), low, high)
    }
}

/// What is left of a set of numbers.
fn meet_numbers(
    alloc: Global,
    w: u32,
    numbers: &[u64],
    low: u64,
    high: u64,
) -> Result<Option<StridedSet>, NoMemory>
    requires width { IsWidth w }
    requires word { IsSet 16 w numbers.now }
    ensures { IfOk result (λ r. r ≡ listed_if_any (numbers_between low high numbers.now)) }
{
    match numbers_between(alloc, w, numbers, low, high)? {
        Some(left) => Ok(Some(StridedSet::of_set(left))),
        None => Ok(None),
    }
}

/// What is left of a stretch between two numbers: 1, 4, 7, .. between 3 and 20 is 4, 7, .., 19.
#[tactic(auto, using(crate::proofs::Words::left_part_is))]
fn meet_stretch(
    alloc: Global,
    w: u32,
    x: Stretch,
    low: u64,
    high: u64,
) -> Result<Option<StridedSet>, NoMemory>
    requires width { IsWidth w }
    requires part { IsPart w x }
    ensures { IfOk result (λ r. r ≡ stretch_meet x low high) }
{
    match stretch_left(x, low, high) {
        Some(left) => Ok(Some(of_stretch(alloc, w, left)?)),
        None => Ok(None),
    }
}

/// The stretch that is left between two numbers, if it has a number.
fn stretch_left(x: Stretch, low: u64, high: u64) -> Option<Stretch>
    ensures { result ≡ stretch_left x low high }
{
    let first = first_from(x, low);
    let last = x.hi.min(high);
    if first <= last as u128 {
        Some(of_class(first as u64, x.step, last))
    } else {
        None
    }
}

/// The first number of the class that is at least `n` and at least the low end.
fn first_from(x: Stretch, n: u64) -> u128
    ensures { result ≡ first_from x n }
{
    x.lo as u128 + rounded_up(n.saturating_sub(x.lo), x.step)
}

/// The least multiple of the step that is at least `n`; 0 where the step is 0.
fn rounded_up(n: u64, step: u64) -> u128
    ensures value { result ≡ rounded_up n step }
    ensures near { result ≤ n + step }
{
    if step == 0 {
        return 0;
    }
    let step = step as u128;
    (n as u128 + (step - 1)) / step * step
}

/// The numbers of the class of `low` modulo `step`, from `low` to `high` at most.
fn of_class(low: u64, step: u64, high: u64) -> Stretch
    requires { low ≤ high }
    ensures value { result ≡ stretch low step high }
    ensures order { result.lo ≤ result.hi }
    ensures less { result.hi ≤ high }
{
    let whole = if step == 0 {
        0
    } else {
        (high - low) / step * step
    };
    Stretch {
        lo: low,
        step,
        hi: low + whole,
    }
}

/// The set of its numbers where they are at most 16, else the stretch.
#[tactic(auto, using(crate::proofs::Words::long_word, crate::proofs::Words::short_few, crate::proofs::Words::short_word, crate::proofs::Words::part_ends))]
fn of_stretch(alloc: Global, w: u32, x: Stretch) -> Result<StridedSet, NoMemory>
    requires width { IsWidth w }
    requires part { IsPart w x }
    ensures { IfOk result (λ r. r ≡ of_stretch x) }
{
    if x.is_long(w) {
        StridedSet::of_stretch(alloc, x)
    } else {
        Ok(StridedSet::of_set(set_of_stretch(alloc, w, x)?))
    }
}

/// The numbers of a short stretch as a set.
fn set_of_stretch(alloc: Global, w: u32, x: Stretch) -> Result<Set<16>, NoMemory>
    requires width { IsWidth w }
    requires ends { IsEnds w x }
    requires few { more x < 16 }
    ensures { IfOk result (λ r. r ≡ Some (numbers x)) }
{
    let mut set = KSet::<16>::constant(alloc, &(), w, x.lo)?;
    for i in 0..more(x) {
        set = with_last(alloc, w, Some(set), number_at(x, i + 1))?;
    }
    Ok(set)
}

/// The number after so many steps.
fn number_at(x: Stretch, i: u64) -> u64
    requires order { x.lo ≤ x.hi }
    requires within { i ≤ more x }
    ensures value { result ≡ x.lo + i * x.step }
    ensures less { result ≤ x.hi }
{
    x.lo + i * x.step
}

/// How many numbers there are after the first.
fn more(x: Stretch) -> u64
    requires { x.lo ≤ x.hi }
    ensures { result ≡ more x }
{
    if x.step == 0 {
        0
    } else {
        (x.hi - x.lo) / x.step
    }
}
