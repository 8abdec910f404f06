//! The first pass over a specification: names that are declared twice, and counts past the limits.
//!
//! Types and map types share one name space; constructors, of all types together, have another, and
//! functions a third. Parameters, fields of a constructor, variables of a pattern and fields of a
//! decode row are apart each. What is declared before is kept in tables that find a name in one step.
//!
//! Proved: `check_names` answers Ok exactly where no name stands twice and no count is past its limit,
//! and else exactly the first such place, by the definitions in specs/Names.antt.
#![tactic(auto)]

mod items;
mod names;
mod patterns;

pub use items::check_names;
