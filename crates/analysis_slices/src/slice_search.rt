//! The addresses that were found.

ghost use Rattle.std.specs.Prelude.{◌≡◌, ℕ, Bool, false, filter, map as map_of, IfOk, IfSome, IfNone, OnOk};
ghost use Rattle.std.specs.Ordering.{nat_cmp};
ghost use Rattle.std.specs.BTreeSet.{IsOrdered};
ghost use Rattle.base_trait.specs.Stamps.{is_listed, same_stamp};
ghost use Rattle.base_trait.specs.Uses.{Seen, seen};
ghost use Rattle.analysis_query_laws.specs.Slices.{is_asked, is_from};
ghost use Rattle.analysis_slices.specs.Found.{IsAdded, IsTaken, is_followed, is_pending};

use base_trait::{Stamp, Use};
use std::alloc::{AllocError as NoMemory, Global};
use std::collections::BTreeSet;

/// Whether the entry was found; the addresses whose uses were followed; and those that were found, and whose uses are still to be followed.
#[derive(Drop)]
pub(crate) struct SliceSearch {
    pub(crate) entry: bool,
    pub(crate) followed: BTreeSet<u32>,
    pub(crate) pending: BTreeSet<u32>,
}

impl SliceSearch {
    /// Nothing.
    pub(crate) fn nothing(alloc: Global) -> SliceSearch
        ensures entry { result.entry ≡ false }
        ensures followed { (a : ℕ) → is_followed result a ≡ false }
        ensures pending { (a : ℕ) → is_pending result a ≡ false }
        ensures ordered { IsOrdered nat_cmp result.followed }
    {
        SliceSearch {
            entry: false,
            followed: BTreeSet::new(alloc),
            pending: BTreeSet::new(alloc),
        }
    }

    /// Takes a pending address, if there is one: it is followed from now on.
    pub(crate) fn next(&mut self) -> Result<Option<u32>, NoMemory>
        ensures some { IfOk result (λ next. IfSome next (λ at. IsTaken at self.old self.new)) }
        ensures none { IfOk result (λ next. IfNone next ((a : ℕ) → is_pending self.old a ≡ false)) }
        ensures same { IfOk result (λ next. IfNone next (self.new ≡ self.old)) }
    {
        match self.pending.pop_first() {
            None => Ok(None),
            Some(at) => {
                self.followed.insert(at)?;
                Ok(Some(at))
            }
        }
    }

    /// The addresses that were followed, ascending.
    pub(crate) fn addresses(&self, alloc: Global) -> Result<Vec<u32>, NoMemory>
        ensures { IfOk result (λ r. r.items ≡ self.now.followed.keys) }
    {
        self.followed.iter().copied().collect(alloc)
    }

    /// Adds a stamp.
    fn add(&mut self, stamp: Stamp) -> Result<(), NoMemory>
        ensures { OnOk result (IsAdded (same_stamp stamp) self.old self.new) }
    {
        match stamp {
            Stamp::Entry => {
                self.entry = true;
                Ok(())
            }
            Stamp::At(a) => {
                if !self.followed.contains(&a) {
                    self.pending.insert(a)?;
                }
                Ok(())
            }
        }
    }

    /// Adds stamps.
    fn add_all(&mut self, stamps: &[Stamp]) -> Result<(), NoMemory>
        ensures { OnOk result (IsAdded (is_listed stamps.now) self.old self.new) }
    {
        for stamp in stamps {
            self.add(*stamp)?;
        }
        Ok(())
    }

    /// Adds the stamps of uses.
    pub(crate) fn add_uses(&mut self, uses: &[Use]) -> Result<(), NoMemory>
        ensures { OnOk result (IsAdded (is_from (map_of seen uses.now)) self.old self.new) }
    {
        for u in uses {
            self.add_all(&u.from)?;
        }
        Ok(())
    }

    /// Adds the stamps of those uses that are of a map, at a key or at any.
    pub(crate) fn add_asked(
        &mut self,
        uses: &[Use],
        map: u32,
        key: Option<u64>,
    ) -> Result<(), NoMemory>
        ensures { OnOk result (IsAdded (is_from (filter (is_asked map key) (map_of seen uses.now))) self.old self.new) }
    {
        for u in uses {
            if is_asked(u, map, key) {
                self.add_all(&u.from)?;
            }
        }
        Ok(())
    }
}

/// Whether a use is of a map, at a key or at any.
fn is_asked(u: &Use, map: u32, key: Option<u64>) -> bool
    ensures { result ≡ is_asked map key (seen u.now) }
{
    let meets = match (key, u.key) {
        (Some(k), Some(own)) => own == k,
        _ => true,
    };
    u.map == map && meets
}
