//! Laws of tables of analyses: which are one, and that their texts tell them. Nothing runs.
//!
//! # Tables that are one say the same
//!
//! Rows of numbers that generate one submodule are many, and a table of affine relations may be written with any of them. So two
//! tables count as one where the blocks of each address are alike but for that (`AreSameTables` of `fixpoint_theory`, specs/Table).
//!
//! | law | says |
//! |---|---|
//! | `same_tables_same_verdict` | such tables have one verdict, where their elements fit |
//! | `same_tables_are_true` | where one of them is true of every run, so is the other |
//!
//! # Tables of analyses are printable
//!
//! A text of a table tells its table only where the table is *printable* (specs/Tables): exits have 32 bits; each use is of a map that
//! is a field of states, at a key of its type or at any, and lists stamps; uses come one a cell, in the order of the state's fields;
//! and the notes of elements are such as texts tell. Without that two tables may have one text: the exits 4 and 2^32 + 4 are both
//! written `exit 00000004`, and a use of a map that is no field is not written.
//!
//! *What notes and elements keep.* Which notes texts tell is a property F of notes, and which elements is a property K of elements.
//! Each call of a base keeps F (specs/Notes), and each call of a domain K (specs/Domains): the entry has it, joins and widenings keep
//! it, an element with K opens to a value whose notes have F, and such a value closes to an element with K.
//!
//! | elements | F | K |
//! |---|---|---|
//! | cells over sets, intervals, known bits | all notes, which tell nothing | each note has F |
//! | cells over definitions and uses | sets of stamps of the code that are not empty, the entry first, then addresses, ascending | each note has F |
//! | affine relations | all notes | all elements |
//! | pairs | both | both |
//!
//! | law | says |
//! |---|---|
//! | `tables_are_printable` | the table of a trace is printable, for each domain that keeps its laws and such properties, and each problem that is well posed |
//! | `stamps_keep`, `nothing_keeps` | notes keep their property |
//! | `cells_keep`, `relations_keep`, `pairs_keep` | so do elements |
//!
//! Evaluations keep that maps are those of fields, and that their notes have F (proofs/Evaluated), and logs have uses of cells of states
//! alone (proofs/Reading). The elements that a worklist state reaches have K, since worklist states are those of elements that have it (proofs/Plays).
#![tactic(auto)]

mod domain;
pub mod laws;

pub use domain::PrintableDomain;
