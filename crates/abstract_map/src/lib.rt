//! Maps of abstract words, kept as shared trees of cells.
//!
//! A map of an instruction set, as a memory or a register file, is a function from keys to cells: a number, and the
//! place that wrote it. An `AbstractMap` stands for such functions, with a cell for each listed key and a rest for every other
//! key: `{ 4: {1}, rest {0, 7} }` describes each memory that has 1 at the key 4, and 0 or 7 at every other key.
//!
//! Contracts see a map as a plain one of `abstract_map_laws`: its width, its rest, and the ascending list of its keys with their
//! cells. Each call gives what is defined there by keys, and never speaks of the list, so that another form of the map
//! keeps every clause. `Fits` says that the words fit the width, keys ascend below 2^32, and that no more are listed than
//! the base allows.
//!
//! *Keys.* A key that is one number is `KeySet::One`. Else it is the listed keys that it may be, and whether it can be no
//! other. A read gives the join of all the cells that may be meant, and a write joins into each of them: of
//! `{ 1: {1}, 2: {2}, rest {0} }` a read at "1, 2 or another" gives `{0, 1, 2}`, and a write of {9} at "1, and no other"
//! among several gives `{ 1: {1, 9}, 2: {2}, rest {0} }`.
//!
//! *Folding.* On a base that joins, at most 256 cells are listed: past that the cell of the greatest key is joined into
//! the rest and unlisted. With room for two, a write of {9} at the key 5 of `{ 1: {1}, 8: {2}, rest {0} }` gives
//! `{ 1: {1}, 5: {9}, rest {0, 2} }`. On a base that does not join, the keys themselves are the bound.
//!
//! *How it is kept.* The cells stand in a `Tree` of `abstract_cell_tree`, by the bits of their keys: a copy shares it, and copies the
//! rest alone. A write, at one key or at several, makes the cells that change and the nodes on the paths to their keys; all
//! others are shared with the old map. A join and a widening walk over the first map, with the other beside it, and share
//! each part in which no cell changes.
#![tactic(auto)]

mod absorbs;
mod abstract_maps;
mod access;
mod cells;
mod fold;
mod join;
mod keys;
pub mod laws;
mod merge;
mod same;
mod update;
mod widen;

pub use abstract_maps::AbstractMap;
pub use keys::KeySet;
