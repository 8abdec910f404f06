//! The second and the third pass over a tree: faults of types and of the machine, and what is
//! declared.
//!
//! # Types
//!
//! `declarations` looks at the types that a specification names, in the order of its text. A name
//! means `BOOL`, a word of 1 to 64 bits, a declared type, or nothing; `INT0`, `INT08` and `INT65`
//! are words that there are not. A datatype that contains itself, directly or through others, is
//! at fault at its name, and so is one of more than 8,192 leaves. Then come its fields. A key of a
//! map is a word of at most 32 bits or an enumeration, a value a word, and the default is one of
//! its values.
//!
//! `BOOL`, a word and a map have one leaf; a datatype has one for each constructor and those of
//! all fields:
//!
//! | type | leaves |
//! |---|---|
//! | `Colour = Red \| Green` | 2 |
//! | `Point = Point(x: INT8, y: INT8)` | 3 |
//! | `Shape = Dot(at: Point, in: Colour) \| None` | 1 + 3 + 2 + 1 = 7 |
//!
//! A type that contains itself has no number of leaves, nor has one that contains such a type or a
//! field of an unknown type, directly or through others: they are not counted, and not too large.
//!
//! # The machine
//!
//! `machine` looks for the datatype `State` of one constructor: the counter, an `INT32`, and words
//! and maps, no map type twice; and for the function `interpInstr` from an `Instr` and a `State`
//! to a `State`. The fault that stands first in the text is answered, that of a missing
//! declaration at the source's end.
//!
//! # What is proved
//!
//! `specs/Types.antt` and `specs/MachineRules.antt` have the first fault as functions, a rule a
//! line. Which datatypes contain themselves and which are too large comes as two tables, and
//! `specs/Leaves.antt` says by relations when they are right. Each call answers Ok exactly where
//! there is no fault, and else the first, or that memory ran out. Ok gives what
//! `specs/Declarations.antt` says that the items declare. The laws say that there is one first
//! fault or none, that without one all types are there and contain types of lower rank alone, and
//! what a machine has.
//!
//! The code counts leaves in rounds, up to one past the limit, until a round adds no count
//! (`counts.rt`). That a datatype without a count then has no number of leaves goes by induction
//! over how its leaves would be counted (`proofs/Counting.antt`, `proofs/Bridge.antt`).
#![tactic(auto)]

mod contents;
mod counts;
mod datatype_meanings;
mod declare;
mod known;
pub mod laws;
mod passes;
mod sizes;
mod state_machine;
mod type_names;
mod types;

pub use passes::declarations;
pub use state_machine::{instr_of, machine};
pub use type_names::Meaning;
