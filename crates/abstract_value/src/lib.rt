//! Abstract values: flags, words, constructor values and maps of abstract words.
//!
//! A value of an instruction set is a truth value, a word, a constructor with its fields, or a map. An abstract value
//! stands for several: a flag for the truth values that it may be, a word for the numbers that the base says, a map for
//! the maps that it describes, and a constructor value for the tuples of each constructor that is present. With sets as
//! words, `Some({1, 2}) or None` is `{ None: present, Some: [{1, 2}] }`.
//!
//! Contracts see a value as the plain one of `abstract_value_laws`, by the view `abs` (specs/View), and each call gives what is
//! defined there or in `abstract_value_laws`, over any base. So the laws of plain values hold of each call: joins and widenings
//! describe both sides, what absorbs describes all that the other does, and widening ends.
//!
//! *Joining.* `{ None: present }` and `{ Some: [{1}] }` join to `{ None: present, Some: [{1}] }`, and `{ Some: [{1}] }` with
//! `{ Some: [{2}] }` to `{ Some: [{1, 2}] }`. Widening goes the same way with the widening of words and of maps. Calls are
//! total: of a flag and a word, say, or of words of two widths, the first is given, and neither absorbs the other.
//!
//! *Concrete values.* `AbstractValue::of_value` of `Some(3)` is `{ None: missing, Some: [{3}] }`. Its map has the concrete cells, with
//! notes of their stamps; past what the base may list, the cell of the greatest key goes into the rest.
//!
//! *Room.* A constructor value holds the constructors that are present (`Constructors`), so one of a hundred takes the room
//! of one, and contracts see all places (specs/Constructors). Copies, and joins in which a constructor comes from one side,
//! share its fields.
//!
//! *Equality* is that of views (specs/Same), as a table that is looked up by values needs it: capacities and allocators
//! don't count. Equal values hash alike.
#![tactic(auto)]

mod absorbs;
mod calls;
mod constructors;
mod copies;
mod hashed;
pub mod laws;
mod merge;
mod of_value;
mod rank;
mod same;
mod typed;
mod value;
mod way;

pub use constructors::{Constructors, both_alone, put, share, shared_list};
pub use of_value::{case_count, one_case};
pub use value::AbstractValue;
pub use way::Way;
