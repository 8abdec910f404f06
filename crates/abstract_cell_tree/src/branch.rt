//! The tree: reading and writing.

ghost use Rattle.std.specs.Prelude.{◌≡◌, ◌<◌, ◌≤◌, ◌+◌, ◌++◌, ◌⊎◌, [], ◌∷◌, IfOk, length, Some, slice_get, take};
ghost use Rattle.std.specs.Option.{option_copied};
ghost use Rattle.abstract_cell_tree.specs.Entries.{Between, listed_at, put, removed};

use crate::span::{Span, span_of};
use std::alloc::{AllocError as NoMemory, Global};
use std::marker::Model;
use std::rc::Rc;

/// A map from keys to values, which shares its nodes with its copies and with the maps that it was made from.
#[cycle(branch)]
#[derive(Debug, Drop)]
pub struct Branch<V> {
    pub(crate) node: Node<V>,
}

/// What a tree is made of.
#[cycle(branch)]
#[derive(Debug, Drop)]
pub(crate) enum Node<V> {
    Empty,
    Leaf(u64, Rc<V>),
    Fork(Rc<Fork<V>>),
}

/// Two sides with entries: of all keys within `low` and `high`, those below `split` are on the left.
#[cycle(branch)]
#[derive(Debug, Drop)]
pub(crate) struct Fork<V> {
    pub(crate) low: u64,
    pub(crate) split: u64,
    pub(crate) high: u64,
    pub(crate) count: u64,
    pub(crate) left: Branch<V>,
    pub(crate) right: Branch<V>,
}

impl<V> Model for Branch<V> {
    ghost use Rattle.std.specs.Prelude.{ℕ, List, length};

    ghost Value = { List (ℕ × V) };

    ghost use Rattle.abstract_cell_tree.specs.Nodes.{entries, IsSound};

    ghost view = { λ a. entries a.node };

    ghost invariant = { λ a. IsSound a.node };

    ghost size = { length };

    ghost use Rattle.std.proofs.Common.{arith, length-append};

    ghost size_decreases = { λ a h. Prim.grind (arith, length-append) };
}

impl<V: Drop> Branch<V> {
    /// The map of no entries.
    pub fn new() -> Branch<V>
        ensures { result ≡ [] }
    {
        Branch { node: Node::Empty }
    }

    /// The map of one entry.
    pub(crate) fn leaf(alloc: Global, key: u64, value: V) -> Result<Branch<V>, NoMemory>
        ensures { IfOk result (λ r. r ≡ (key, value) ∷ []) }
    {
        match Rc::new(alloc, value) {
            Ok(value) => Ok(Branch {
                node: Node::Leaf(key, value),
            }),
            Err(_) => Err(NoMemory),
        }
    }

    /// The map of two sides.
    pub(crate) fn fork(
        alloc: Global,
        span: Span,
        left: Branch<V>,
        right: Branch<V>,
    ) -> Result<Branch<V>, NoMemory>
        requires left { Between span.low span.split left }
        requires right { Between span.split (span.high + 1) right }
        requires some_left { 1 ≤ length left }
        requires some_right { 1 ≤ length right }
        ensures { IfOk result (λ r. r ≡ left ++ right) }
    {
        let Some(count) = left.len().checked_add(right.len()) else {
            return Err(NoMemory);
        };
        let fork = Fork {
            low: span.low,
            split: span.split,
            high: span.high,
            count,
            left,
            right,
        };
        match Rc::new(alloc, fork) {
            Ok(fork) => Ok(Branch {
                node: Node::Fork(fork),
            }),
            Err(_) => Err(NoMemory),
        }
    }

    /// The map of all entries of two maps, those of the first with lesser keys.
    fn beside(
        alloc: Global,
        below: Branch<V>,
        least: u64,
        last: u64,
        above: Branch<V>,
        first: u64,
        greatest: u64,
    ) -> Result<Branch<V>, NoMemory>
        requires below { Between least (last + 1) below }
        requires above { Between first (greatest + 1) above }
        requires apart { last < first }
        requires some_below { 1 ≤ length below }
        requires some_above { 1 ≤ length above }
        ensures { IfOk result (λ r. r ≡ below ++ above) }
    {
        let span = span_of(last, first);
        let span = Span {
            low: span.low.min(least),
            split: span.split,
            high: span.high.max(greatest),
        };
        Branch::fork(alloc, span, below, above)
    }

    /// How many entries there are.
    pub fn len(&self) -> u64
        ensures { result ≡ length self.now }
    {
        match &self.node {
            Node::Empty => 0,
            Node::Leaf(_, _) => 1,
            Node::Fork(fork) => fork.count,
        }
    }

    /// The value at a key.
    pub fn get(&self, key: u64) -> Option<&V>
        ensures { option_copied result ≡ listed_at key self.now }
    {
        match &self.node {
            Node::Empty => None,
            Node::Leaf(here, value) => { if *here == key { Some(value) } else { None } }
            Node::Fork(fork) => {
                let fork: &Fork<V> = fork;
                if key < fork.split {
                    fork.left.get(key)
                } else {
                    fork.right.get(key)
                }
            }
        }
    }

    /// The entry at a place, counted from 0. Keys ascend.
    pub fn at(&self, place: u64) -> (u64, &V)
        requires { place < length self.now }
        ensures { slice_get self.now place ≡ Some (result.0, result.1.now) }
    {
        match &self.node {
            Node::Empty => unreachable!(),
            Node::Leaf(key, value) => (*key, value),
            Node::Fork(fork) => {
                let below = fork.left.len();
                if place < below {
                    fork.left.at(place)
                } else {
                    fork.right.at(place - below)
                }
            }
        }
    }

    /// The same map once more. Its nodes are shared.
    pub fn copy(&self) -> Result<Branch<V>, NoMemory>
        ensures { IfOk result (λ r. r ≡ self.now) }
    {
        match &self.node {
            Node::Empty => Ok(Branch::new()),
            Node::Leaf(key, value) => match value.clone() {
                Ok(value) => Ok(Branch {
                    node: Node::Leaf(*key, value),
                }),
                Err(error) => Err(error),
            },
            Node::Fork(fork) => match fork.clone() {
                Ok(fork) => Ok(Branch {
                    node: Node::Fork(fork),
                }),
                Err(error) => Err(error),
            },
        }
    }

    /// The map with a value put at a key. Nodes off the path to the key are shared.
    pub fn put(&self, alloc: Global, key: u64, value: V) -> Result<Branch<V>, NoMemory>
        ensures { IfOk result (λ r. r ≡ put key value self.now) }
    {
        match &self.node {
            Node::Empty => Branch::leaf(alloc, key, value),
            Node::Leaf(here, _) => {
                if key == *here {
                    Branch::leaf(alloc, key, value)
                } else {
                    self.put_beside(alloc, *here, *here, key, value)
                }
            }
            Node::Fork(fork) => {
                let fork: &Fork<V> = fork;
                let (low, split, high) = (fork.low, fork.split, fork.high);
                if key < low || high < key {
                    self.put_beside(alloc, low, high, key, value)
                } else if key < split {
                    let left = fork.left.put(alloc, key, value)?;
                    Branch::fork(alloc, Span { low, split, high }, left, fork.right.copy()?)
                } else {
                    let right = fork.right.put(alloc, key, value)?;
                    Branch::fork(alloc, Span { low, split, high }, fork.left.copy()?, right)
                }
            }
        }
    }

    /// The map with a value put at a key outside the range of its keys.
    fn put_beside(
        &self,
        alloc: Global,
        low: u64,
        high: u64,
        key: u64,
        value: V,
    ) -> Result<Branch<V>, NoMemory>
        requires range { Between low (high + 1) self.now }
        requires some { 1 ≤ length self.now }
        requires outside { (key < low) ⊎ (high < key) }
        ensures { IfOk result (λ r. r ≡ put key value self.now) }
    {
        let leaf = Branch::leaf(alloc, key, value)?;
        let other = self.copy()?;
        if key < low {
            Branch::beside(alloc, leaf, key, key, other, low, high)
        } else {
            Branch::beside(alloc, other, low, high, leaf, key, key)
        }
    }

    /// The map without the entry of a key.
    pub fn without(&self, alloc: Global, key: u64) -> Result<Branch<V>, NoMemory>
        ensures { IfOk result (λ r. r ≡ removed key self.now) }
    {
        match &self.node {
            Node::Empty => Ok(Branch::new()),
            Node::Leaf(here, _) => {
                if *here == key {
                    Ok(Branch::new())
                } else {
                    self.copy()
                }
            }
            Node::Fork(fork) => {
                let fork: &Fork<V> = fork;
                let (low, split, high) = (fork.low, fork.split, fork.high);
                if key < split {
                    let left = fork.left.without(alloc, key)?;
                    Branch::side_by_side(alloc, Span { low, split, high }, left, fork.right.copy()?)
                } else {
                    let right = fork.right.without(alloc, key)?;
                    Branch::side_by_side(alloc, Span { low, split, high }, fork.left.copy()?, right)
                }
            }
        }
    }

    /// The map of the first entries, so many, or of all where there are no more.
    pub fn first(&self, alloc: Global, count: u64) -> Result<Branch<V>, NoMemory>
        ensures { IfOk result (λ r. r ≡ take count self.now) }
    {
        if self.len() <= count {
            return self.copy();
        }
        match &self.node {
            Node::Empty | Node::Leaf(_, _) => Ok(Branch::new()),
            Node::Fork(fork) => {
                let fork: &Fork<V> = fork;
                let below = fork.left.len();
                if count <= below {
                    return fork.left.first(alloc, count);
                }
                let (low, split, high) = (fork.low, fork.split, fork.high);
                let right = fork.right.first(alloc, count - below)?;
                Branch::side_by_side(alloc, Span { low, split, high }, fork.left.copy()?, right)
            }
        }
    }

    /// The map of two sides, of which either may be empty.
    fn side_by_side(
        alloc: Global,
        span: Span,
        left: Branch<V>,
        right: Branch<V>,
    ) -> Result<Branch<V>, NoMemory>
        requires left { Between span.low span.split left }
        requires right { Between span.split (span.high + 1) right }
        ensures { IfOk result (λ r. r ≡ left ++ right) }
    {
        if left.len() == 0 {
            Ok(right)
        } else if right.len() == 0 {
            Ok(left)
        } else {
            Branch::fork(alloc, span, left, right)
        }
    }
}
