//! Small sets are cut exactly.

ghost use Rattle.std.specs.Prelude.{◌≡◌, ◌^◌, ◌<◌, IfOk, IfSome};
ghost use Rattle.word_operations.specs.Width.{IsWidth};
ghost use Rattle.base_kset.specs.Meaning.{Fits};
ghost use Rattle.base_kset.specs.Sets.{IsSet};
ghost use Rattle.base_cuts.specs.Sets.{all_between, numbers_between, set_if_any, set_meet, with_between, with_last};

use super::cut_base::CutBase;
use super::width::greatest;
use base_defuse::DefUse;
use base_kset::{KSet, Set};
use base_trait::Base;
use std::alloc::{AllocError as NoMemory, Global};

impl<const K: usize> CutBase for KSet<K> {
    ghost use Rattle.base_cuts.specs.SetLaws.{sets_are_cut};
    ghost use Rattle.base_cuts.specs.Sets.{set_cuts};

    ghost cuts = { set_cuts K };

    /// The numbers that lie between: `{1, 4, 9}` between 2 and 9 is `{4, 9}`. Of any all numbers between, where they are at
    /// most K.
    fn meet(
        alloc: Global,
        _ctx: &(),
        w: u32,
        x: &Set<K>,
        low: u64,
        high: u64,
    ) -> Result<Option<Set<K>>, NoMemory> {
        meet_set(alloc, w, x, low, high)
    }

    ghost cut_laws = { sets_are_cut K };
}

impl CutBase for DefUse {
    ghost use Rattle.base_cuts.specs.SetLaws.{sets_are_cut};
    ghost use Rattle.base_cuts.specs.Sets.{set_cuts};

    ghost cuts = { set_cuts 1 };

    /// As sets of at most one number: `{5}` between 2 and 9 is `{5}`, and any between 5 and 5 too.
    fn meet(
        alloc: Global,
        _ctx: &(),
        w: u32,
        x: &Set<1>,
        low: u64,
        high: u64,
    ) -> Result<Option<Set<1>>, NoMemory> {
        meet_set(alloc, w, x, low, high)
    }

    ghost cut_laws = { sets_are_cut 1 };
}

/// What is left of a set between two numbers.
fn meet_set<const K: usize>(
    alloc: Global,
    w: u32,
    x: &Set<K>,
    low: u64,
    high: u64,
) -> Result<Option<Set<K>>, NoMemory>
    requires width { IsWidth w }
    requires word { Fits K w x.now }
    ensures { IfOk result (λ r. r ≡ set_meet K w x.now low high) }
{
    if x.is_any() {
        all_between(alloc, w, low, high.min(greatest(w)))
    } else {
        numbers_between(alloc, w, x.items(), low, high)
    }
}

/// All numbers from `low` to `high`; any where they are more than `K`, and none where there is none.
fn all_between<const K: usize>(
    alloc: Global,
    w: u32,
    low: u64,
    high: u64,
) -> Result<Option<Set<K>>, NoMemory>
    requires width { IsWidth w }
    requires number { high < 2 ^ w }
    ensures { IfOk result (λ r. r ≡ all_between K low high) }
{
    if low <= high {
        Ok(Some(KSet::<K>::range(alloc, &(), w, low, high)?))
    } else {
        Ok(None)
    }
}

/// The numbers of a set that lie between, as a set if there is one.
pub(crate) fn numbers_between<const K: usize>(
    alloc: Global,
    w: u32,
    numbers: &[u64],
    low: u64,
    high: u64,
) -> Result<Option<Set<K>>, NoMemory>
    requires width { IsWidth w }
    requires word { IsSet K w numbers.now }
    ensures { IfOk result (λ r. r ≡ set_if_any (numbers_between low high numbers.now)) }
{
    let mut found = None;
    for n in numbers {
        found = with_between(alloc, w, found, low, *n, high)?;
    }
    Ok(found)
}

/// The set with a greater number behind its own, where that lies between.
fn with_between<const K: usize>(
    alloc: Global,
    w: u32,
    found: Option<Set<K>>,
    low: u64,
    n: u64,
    high: u64,
) -> Result<Option<Set<K>>, NoMemory>
    requires width { IsWidth w }
    requires word { IfSome found (λ x. Fits K w x) }
    requires number { n < 2 ^ w }
    ensures value { IfOk result (λ r. r ≡ with_between K low high found.entry n) }
    ensures fits { IfOk result (λ r. IfSome r (λ x. Fits K w x)) }
{
    if low <= n && n <= high {
        Ok(Some(with_last(alloc, w, found, n)?))
    } else {
        Ok(found)
    }
}

/// The set with a greater number behind its own; of none the number alone.
pub(crate) fn with_last<const K: usize>(
    alloc: Global,
    w: u32,
    found: Option<Set<K>>,
    n: u64,
) -> Result<Set<K>, NoMemory>
    requires width { IsWidth w }
    requires word { IfSome found (λ x. Fits K w x) }
    requires number { n < 2 ^ w }
    ensures value { IfOk result (λ r. r ≡ with_last K found.entry n) }
    ensures fits { IfOk result (λ r. Fits K w r) }
{
    let one = KSet::<K>::constant(alloc, &(), w, n)?;
    match found {
        None => Ok(one),
        Some(numbers) => KSet::<K>::join(alloc, &(), w, &numbers, &one),
    }
}
