//! Endings of blocks, by their addresses.

ghost use Rattle.std.specs.Prelude.{◌≡◌, ◌<◌, ◌++◌, ◌∷◌, ℕ, [], None, Some, IfNone, IfSome, IsSome, OnOk, is_ok, if◌then◌else◌, option_copied};
ghost use Rattle.fixpoint_open_tables.specs.Endings.{ends_in};
ghost use Rattle.fixpoint_open_tables.specs.Gathering.{IsPut};

use crate::ending::Ending;
use std::alloc::{AllocError as NoMemory, Global};
use std::collections::BTreeMap;
use std::marker::Model;

/// How the blocks of open addresses end: a map of endings by their addresses.
///
/// They stand in a list, and beside it the place of each address, so that the map below is of places and the same for all
/// kinds of words. An ending that another one replaces stays in the list, at no address.
pub struct Endings<W> {
    pub(crate) places: BTreeMap<u32, usize>,
    listed: Vec<Ending<W>>,
}

/// Written out, so that what lets endings go stands once for each kind of words, and not once more in each crate where they are let go.
impl<W: Drop> Drop for Endings<W> {
    fn drop(self) {
        let Endings {
            places: _places,
            listed: _listed,
        } = self;
    }
}

impl<W> Model for Endings<W> {
    ghost use Rattle.std.specs.Prelude.{ℕ, List};
    ghost use Rattle.fixpoint_open_tables.specs.declared.ending.Ending.{Ending};
    ghost use Rattle.fixpoint_open_tables.specs.Places.{AreInside, placed};

    ghost Value = { List (ℕ × Ending W) };

    ghost view = { λ s. placed s.listed.items s.places.entries };

    ghost invariant = { λ s. AreInside s.listed.items s.places.entries };
}

impl<W> Endings<W> {
    /// No endings.
    pub fn new(alloc: Global) -> Endings<W>
        ensures { result ≡ [] }
    {
        Endings {
            places: BTreeMap::new(alloc),
            listed: Vec::new(alloc),
        }
    }

    /// How the block at an address ends, if it is open.
    pub fn get(&self, at: u32) -> Option<&Ending<W>>
        ensures { option_copied result ≡ ends_in self.now at }
    {
        match self.places.get(&at) {
            Some(place) => self.listed.get(*place),
            None => None,
        }
    }

    /// The least open address.
    pub fn first(&self) -> Option<u32>
        ensures none { IfNone result ((a : ℕ) → ends_in self.now a ≡ None) }
        ensures is_open { IfSome result (λ at. IsSome (ends_in self.now at)) }
        ensures least { IfSome result (λ at. (a : ℕ) → a < at → ends_in self.now a ≡ None) }
    {
        let (at, _place) = self.places.first_key_value()?;
        Some(*at)
    }

    /// Puts the ending of the block of an address, in place of the one that it had.
    pub fn insert(&mut self, at: u32, ending: Ending<W>) -> Result<(), NoMemory>
    where
        W: Drop,
        ensures { OnOk result (IsPut self.old self.new at (Some ending)) }
    {
        let place = self.listed.len();
        put(&mut self.listed, ending)?;
        self.places.insert(at, place)?;
        Ok(())
    }
}

/// Puts an item behind a list, which is as it was where there is no room.
fn put<T: Drop>(list: &mut Vec<T>, item: T) -> Result<(), NoMemory>
    ensures items { list.new.items ≡ (if is_ok result then list.old.items ++ item ∷ [] else list.old.items) }
{
    match list.push(item) {
        Ok(()) => Ok(()),
        Err(_failed) => Err(NoMemory),
    }
}
