//! The numbers of a stretch, as a set and as a list.

ghost use Rattle.std.specs.Prelude.{◌≡◌, ◌<◌, ◌≤◌, ◌^◌, ◌∷◌, [], ◌+◌, ◌*◌, IfOk, IsOk, Some, None, nat_le, if◌then◌else◌};
ghost use Rattle.word_operations.specs.Width.{IsWidth};
ghost use Rattle.base_trait.specs.Lists.{items_of};
ghost use Rattle.base_kset.specs.Meaning.{Fits as FitsSet};
ghost use Rattle.base_kset.specs.Sets.{union};
ghost use Rattle.base_strides.specs.Meaning.{of_stretch};
ghost use Rattle.base_strides.specs.Stretch.{more, numbers};
ghost use Rattle.base_strides.specs.Words.{IsEnds};

use super::stretch::Stretch;
use super::word::StridedSet;
use base_kset::{KSet, Set};
use base_trait::Base;
use std::alloc::{AllocError as NoMemory, Global};

/// The number after so many steps.
fn number_at(x: Stretch, i: u64) -> u64
    requires order { x.lo ≤ x.hi }
    requires within { i ≤ more x }
    ensures value { result ≡ x.lo + i * x.step }
    ensures less { result ≤ x.hi }
{
    x.lo + i * x.step
}

/// The set with one number more.
fn next(alloc: Global, w: u32, set: &Set<16>, n: u64) -> Result<Set<16>, NoMemory>
    requires width { IsWidth w }
    requires word { FitsSet 16 w set.now }
    requires number { n < 2 ^ w }
    ensures value { IfOk result (λ r. r ≡ union 16 set.now (Some (n ∷ []))) }
    ensures fits { IfOk result (λ r. FitsSet 16 w r) }
    ensures ok { IsOk result }
{
    let one = KSet::<16>::constant(alloc, &(), w, n)?;
    KSet::<16>::join(alloc, &(), w, set, &one)
}

/// The numbers of a short stretch as a set.
fn of_steps(alloc: Global, w: u32, x: Stretch) -> Result<Set<16>, NoMemory>
    requires width { IsWidth w }
    requires ends { IsEnds w x }
    requires few { more x < 16 }
    ensures value { IfOk result (λ r. r ≡ Some (numbers x)) }
    ensures ok { IsOk result }
{
    let mut set = KSet::<16>::constant(alloc, &(), w, x.lo)?;
    for i in 0..x.more() {
        set = next(alloc, w, &set, number_at(x, i + 1))?;
    }
    Ok(set)
}

/// The set of its numbers where they are at most 16, else the stretch.
pub(crate) fn of_stretch(alloc: Global, w: u32, x: Stretch) -> Result<StridedSet, NoMemory>
    requires width { IsWidth w }
    requires ends { IsEnds w x }
    ensures value { IfOk result (λ r. r ≡ of_stretch x) }
    ensures ok { IsOk result }
{
    if x.more() < 16 {
        Ok(StridedSet::of_set(of_steps(alloc, w, x)?))
    } else {
        StridedSet::of_stretch(alloc, x)
    }
}

/// All numbers of a stretch, ascending.
fn listed(alloc: Global, x: Stretch) -> Result<Vec<u64>, NoMemory>
    requires { x.lo ≤ x.hi }
    ensures { IfOk result (λ v. v.items ≡ numbers x) }
{
    let mut out = Vec::new(alloc);
    out.push(x.lo)?;
    for i in 0..x.more() {
        out.push(number_at(x, i + 1))?;
    }
    Ok(out)
}

/// All numbers of a stretch, ascending, where they are no more than `limit`.
pub(crate) fn members(alloc: Global, x: Stretch, limit: u32) -> Result<Option<Vec<u64>>, NoMemory>
    requires { x.lo ≤ x.hi }
    ensures { IfOk result (λ r. items_of r ≡ (if nat_le (more x + 1) limit then Some (numbers x) else None)) }
{
    if x.more() < limit as u64 {
        Ok(Some(listed(alloc, x)?))
    } else {
        Ok(None)
    }
}
