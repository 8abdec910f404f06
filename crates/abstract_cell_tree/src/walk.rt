//! Walks over trees, part by part.

ghost use Rattle.std.specs.Prelude.{◌≡◌, ◌≤◌, ◌++◌, IfOk, map, unwrap_or};
ghost use Rattle.abstract_cell_tree.specs.Entries.{Alike, Between, listed_at};
ghost use Rattle.abstract_cell_tree.specs.Walks.{AlikeWithin, ArePartsOf, AreSidesOf, sides_entries};

use crate::branch::{Branch, Fork, Node};
use crate::span::Span;
use crate::tree::Tree;
use std::alloc::{AllocError as NoMemory, Global};

/// How a part of a tree is made up.
#[derive(Debug, Drop)]
pub enum Parts<'a, V> {
    /// It has no entry.
    Empty,
    /// It has one entry.
    One(u64, &'a V),
    /// It has two parts.
    Two(Sides<'a, V>),
}

/// Two parts with entries. Those of the left have keys below `split`, the others no lesser ones, all within `low` and
/// `high`.
#[derive(Debug, Drop)]
pub struct Sides<'a, V> {
    pub low: u64,
    pub split: u64,
    pub high: u64,
    pub left: &'a Branch<V>,
    pub right: &'a Branch<V>,
}

impl<V: Drop> Branch<V> {
    /// How it is made up.
    pub fn parts(&self) -> Parts<'_, V>
        ensures { ArePartsOf self.now result }
    {
        match &self.node {
            Node::Empty => Parts::Empty,
            Node::Leaf(key, value) => Parts::One(*key, value),
            Node::Fork(fork) => {
                let fork: &Fork<V> = fork;
                Parts::Two(Sides {
                    low: fork.low,
                    split: fork.split,
                    high: fork.high,
                    left: &fork.left,
                    right: &fork.right,
                })
            }
        }
    }

    /// The part of it that lists the same at each key of some entries. Where these are a part of a tree of the same keys,
    /// it is the part at the same place, and a walk over both looks at each node once.
    pub fn around(&self, entries: &Branch<V>) -> &Branch<V>
        ensures { Alike entries.now result.now self.now }
    {
        match entries.parts() {
            Parts::Empty => self,
            Parts::One(key, _) => self.within(key, key),
            Parts::Two(sides) => self.within(sides.low, sides.high),
        }
    }

    /// The part of it that lists the same at each key within bounds.
    fn within(&self, low: u64, high: u64) -> &Branch<V>
        ensures { AlikeWithin low high result.now self.now }
    {
        match &self.node {
            Node::Empty | Node::Leaf(_, _) => self,
            Node::Fork(fork) => {
                let fork: &Fork<V> = fork;
                if high < fork.split {
                    fork.left.within(low, high)
                } else if fork.split <= low {
                    fork.right.within(low, high)
                } else {
                    self
                }
            }
        }
    }
}

impl<V: Drop> Tree<V> {
    /// The map of two sides with others of the same keys in their place, where such are given; none, where none is.
    pub fn of_sides(
        alloc: Global,
        sides: &Sides<'_, V>,
        left: Option<Tree<V>>,
        right: Option<Tree<V>>,
    ) -> Result<Option<Tree<V>>, NoMemory>
        requires sides { AreSidesOf (sides_entries sides.now) sides.now }
        requires left { map (λ e. e.0) (unwrap_or left sides.now.left.now) ≡ map (λ e. e.0) sides.now.left.now }
        requires right { map (λ e. e.0) (unwrap_or right sides.now.right.now) ≡ map (λ e. e.0) sides.now.right.now }
        ensures { IfOk result (λ r. unwrap_or r (sides_entries sides.now) ≡ unwrap_or left sides.now.left.now ++ unwrap_or right sides.now.right.now) }
    {
        if left.is_none() && right.is_none() {
            return Ok(None);
        }
        let left = side(sides.left, left)?;
        let right = side(sides.right, right)?;
        let span = Span {
            low: sides.low,
            split: sides.split,
            high: sides.high,
        };
        let root = Branch::fork(alloc, span, left, right)?;
        Ok(Some(Tree { root }))
    }
}

/// The new side where there is one, else the old one.
fn side<V: Drop>(old: &Branch<V>, new: Option<Tree<V>>) -> Result<Branch<V>, NoMemory>
    ensures { IfOk result (λ r. r ≡ unwrap_or new old.now) }
{
    match new {
        Some(new) => Ok(new.into_root()),
        None => old.copy(),
    }
}
