//! Values of specifications: truth values, words, constructor values and maps of stamped cells.
//!
//! A map lists cells by ascending keys, and has one cell for the rest. With 7 at key 4 and 0 for the rest, `cell(4)` has 7 and
//! `cell(5)` has 0; a `put` at key 2 lists a cell before that of 4. The stamp of a cell says where its number came from: the entry
//! or the instruction at an address. A `State` is the program counter with the other fields. An `Entry` is what is given of the
//! states at which a run or an analysis begins.
//!
//! What is proved: `cell` and `put` are the definitions (`cell_at`, `put_cell` of specs/Values), and copies are the same value.
//! `has_type` decides whether a value has a type of a specification, as specs/Types defines it. Contracts see values as the plain
//! data of specs/Values, by the views of specs/Views.
//!
//! It stands on `spec_ir`, which has types and specifications, and on `base_trait`, which has stamps.
#![tactic(auto)]

mod copies;
mod entry;
mod maps;
mod types;
mod value;

pub use base_trait::Stamp;
pub use copies::{copy, copy_all};
pub use entry::{Entry, GivenNumber, KeyAt, Line};
pub use types::has_type;
pub use value::{Cell, MapValue, ReadSeen, State, Value};
