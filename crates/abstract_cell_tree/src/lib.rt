//! Maps from 64-bit keys to values, as trees that share what they have in common.
//!
//! A `Tree` stands for its entries, ascending by their keys, and contracts see that list alone. A copy shares the whole
//! tree and takes no memory. A changed map is a new tree that shares all nodes off the path to the changed key, so the
//! old one stays as it was.
//!
//! *How it is kept.* Keys are told apart by their bits, from the most significant, and bits in which all keys below a node
//! agree are passed over. Thus a fork has entries on both sides, n entries have n - 1 forks, and no way is longer than the
//! number of bits that keys have. The shape depends on the keys alone. Of the keys 4, 6 and 7 the root parts 4 from the
//! others, and a fork below it 6 from 7. Each fork knows its number of entries, so an entry is found by its place too.
//!
//! *Walks.* `Branch::parts` takes a part of a tree apart, and `around` finds the part of another tree that lists the same at
//! the keys of a part. Where both trees have these keys, that is the part at the same place, so a walk over one tree with
//! another beside it looks at each node once, and searches for no key. `Tree::of_sides` puts the changed parts together, and
//! shares those that did not change.
#![tactic(auto)]

mod branch;
mod build;
mod span;
mod tree;
mod walk;

pub use branch::Branch;
pub use tree::Tree;
pub use walk::{Parts, Sides};
