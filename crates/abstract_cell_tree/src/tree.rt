//! Trees as callers hold them.

ghost use Rattle.std.specs.Prelude.{◌≡◌, ◌<◌, [], ◌∷◌, IfOk, length, map, Some, slice_get, take};
ghost use Rattle.std.specs.Option.{option_copied};
ghost use Rattle.base_trait.specs.Lists.{IsAscending};
ghost use Rattle.abstract_cell_tree.specs.Entries.{listed_at, put, removed};

use crate::branch::Branch;
use std::alloc::{AllocError as NoMemory, Global};
use std::marker::Model;

/// A map from keys to values, which shares its nodes with its copies and with the maps that it was made from.
#[derive(Debug)]
pub struct Tree<V> {
    pub(crate) root: Branch<V>,
}

impl<V> Model for Tree<V> {
    ghost use Rattle.std.specs.Prelude.{ℕ, List};

    ghost Value = { List (ℕ × V) };

    ghost view = { λ a. a.root };
}

/// By hand, so that where a tree is let go no proof looks into its nodes.
impl<V: Drop> Drop for Tree<V> {
    fn drop(self) {
        let Tree { root: _root } = self;
    }
}

impl<V: Drop> Tree<V> {
    /// The map of no entries.
    pub fn new() -> Tree<V>
        ensures { result ≡ [] }
    {
        Tree {
            root: Branch::new(),
        }
    }

    /// The map of one entry.
    pub fn one(alloc: Global, key: u64, value: V) -> Result<Tree<V>, NoMemory>
        ensures { IfOk result (λ r. r ≡ (key, value) ∷ []) }
    {
        let root = Branch::leaf(alloc, key, value)?;
        Ok(Tree { root })
    }

    /// The map of these entries, whose keys ascend.
    pub fn of_ascending(alloc: Global, entries: Vec<(u64, V)>) -> Result<Tree<V>, NoMemory>
        requires { IsAscending (map (λ e. e.0) entries.items) }
        ensures { IfOk result (λ r. r ≡ entries.items) }
    {
        let root = Branch::of_ascending(alloc, entries)?;
        Ok(Tree { root })
    }

    /// The whole, as a part of itself, to walk over.
    pub fn root(&self) -> &Branch<V>
        ensures { result.now ≡ self.now }
    {
        &self.root
    }

    /// The whole, taken out.
    pub(crate) fn into_root(self) -> Branch<V>
        ensures { result ≡ self }
    {
        let Tree { root } = self;
        root
    }

    /// How many entries there are.
    pub fn len(&self) -> u64
        ensures { result ≡ length self.now }
    {
        self.root.len()
    }

    /// The value at a key.
    pub fn get(&self, key: u64) -> Option<&V>
        ensures { option_copied result ≡ listed_at key self.now }
    {
        self.root.get(key)
    }

    /// The entry at a place, counted from 0. Keys ascend.
    pub fn at(&self, place: u64) -> (u64, &V)
        requires { place < length self.now }
        ensures { slice_get self.now place ≡ Some (result.0, result.1.now) }
    {
        self.root.at(place)
    }

    /// The same map once more. Its nodes are shared.
    pub fn copy(&self) -> Result<Tree<V>, NoMemory>
        ensures { IfOk result (λ r. r ≡ self.now) }
    {
        let root = self.root.copy()?;
        Ok(Tree { root })
    }

    /// The map with a value put at a key. Nodes off the path to the key are shared.
    pub fn put(&self, alloc: Global, key: u64, value: V) -> Result<Tree<V>, NoMemory>
        ensures { IfOk result (λ r. r ≡ put key value self.now) }
    {
        let root = self.root.put(alloc, key, value)?;
        Ok(Tree { root })
    }

    /// The map without the entry of a key.
    pub fn without(&self, alloc: Global, key: u64) -> Result<Tree<V>, NoMemory>
        ensures { IfOk result (λ r. r ≡ removed key self.now) }
    {
        let root = self.root.without(alloc, key)?;
        Ok(Tree { root })
    }

    /// The map of the first entries, so many, or of all where there are no more.
    pub fn first(&self, alloc: Global, count: u64) -> Result<Tree<V>, NoMemory>
        ensures { IfOk result (λ r. r ≡ take count self.now) }
    {
        let root = self.root.first(alloc, count)?;
        Ok(Tree { root })
    }
}
