//! Maps of abstract words as definitions by keys, and their laws over any base.
//!
//! A memory or a register file is a function from keys to cells, a number and the place that wrote it. An abstract map
//! stands for such functions: it has cells at finitely many listed keys, and a rest for every other key. With sets as
//! words, the map `{ 4: {1}, rest {0, 7} }` describes each memory that has 1 at the key 4, and 0 or 7 at every other.
//!
//! *By keys.* Each call is defined by what `cell m k`, the listed cell or else the rest, is at every key, and by which
//! keys are listed (specs/Calls). Nothing goes along two lists at once, so a sorted list and a tree meet the same words.
//! Cells that are equal to the rest stay listed.
//!
//! *Folding.* On a base that joins a map lists at most 256 cells. Past that the cell of the greatest key is joined into
//! the rest and unlisted, until 256 are left. With room for two, a write of {9} at the key 5 of
//! `{ 1: {1}, 8: {2}, rest {0} }` gives `{ 1: {1}, 5: {9}, rest {0, 2} }`. The folded map absorbs the unfolded one at
//! each key, which is all that the laws need to know of it. Widening never lists a key that the old map did not.
//!
//! *What every user may rest on* (specs/Laws). What is read describes the concrete cell, and what is written the concrete
//! map with that cell written; of a base that does not join, at one key alone. Join and widening describe what either
//! side does, and absorb both. Absorption is reflexive and transitive, and what absorbs describes all that the other does.
//! Widening gives the old map where it absorbs the new one, and else one of lesser rank, by each list of stamps that holds
//! those of both; a rank is at most 257 times that of a cell. Results fit, and no call lists a stamp that it was not lent.
//!
//! *What does not hold.* What absorbs both sides of a join absorbs the join only where nothing is folded. With room for
//! one, `{ 0: {0}, rest {0} }` and `{ 1: {1}, rest {0} }` join to `{ 0: {0}, rest {0, 1} }`. The map
//! `{ 1: any, rest {0} }` absorbs both, and not their join.
#![tactic(auto)]

mod cell;
pub mod laws;

pub use cell::AbstractCell;
