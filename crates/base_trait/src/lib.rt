//! What stands for machine words in an analysis: the trait `Base`, its laws, and the log of reads.
//!
//! An instruction set is described by a program over words. An analysis runs the same program over
//! abstract words, each of which stands for a set of numbers (abstract interpretation: Cousot and
//! Cousot, POPL 1977; Lim and Reps, "TSL", TOPLAS 35(1), 2013). A base is a kind of such words: one
//! number, a small set, an interval, a form over the values that registers began with. Beside its
//! word a cell of a map has a note, which may tell the places that wrote it.
//!
//! *What a base is.* Its operations are functions, kept in one record (specs/Algebra): `words` for
//! words over the contexts of the analysis, `notes` for notes. `describes` says which numbers a word stands
//! for in a valuation, the list of the numbers that the tracked cells had before the instruction; only words
//! that are forms look at it. `fits` says that a word is one of a width.
//!
//! *What every user may rest on* (specs/Laws). Operations describe the results on each numbers that their
//! operands describe: `{1, 2} + {3}` has to describe 4 and 5. `join` and `widen` describe what either side does;
//! `absorbs` is reflexive and transitive, and what absorbs describes all that the other describes.
//! Widening keeps the old word where it absorbs the new one, and else the word's rank falls, so that
//! each chain of widenings ends: an interval [3, 5] that meets [3, 6] becomes [3, 2^w - 1], whose rank is
//! 1 in place of 2. A note's rank is counted by any list of stamps that has all stamps at hand.
//!
//! *What the laws leave open*: how precise an operation is. They say it of joins alone: what absorbs both sides
//! absorbs the join. Each instance says in its contracts which value its calls give, and in laws of its own which
//! are the best.
//!
//! *What is written once.* Notes and contexts have their calls by their types (`CellNote`, `Context`), so no base
//! repeats them. `dispatch` is the table from the kinds of operations to the functions of an instance. `all_numbers` and `successive_numbers`
//! list the numbers of words that have no list of their own.
#![tactic(auto)]

mod base;
mod context;
mod dispatch;
pub mod laws;
mod note;
mod numbers;
mod precision;
mod tri;
mod uses;

pub use base::Base;
pub use context::Context;
pub use note::CellNote;
pub use numbers::{all_numbers, successive_numbers};
pub use precision::{JOINED_TURNS, MOST_LISTED, UNROLLED_TURNS};
pub use tri::Tri;
pub use uses::{Log, Stamp, Use};
