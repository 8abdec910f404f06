//! Patterns: their first fault, the typed pattern and its variables.
//!
//! `specs/Patterns.antt` has one line for each form of a pattern: `pattern_fault`, the variables in
//! order, and the typed pattern. A constructor pattern has the faults of its name and count first,
//! then those of its parts, and last a type other than the one that is wanted.
//!
//! `checked_pattern` is proved to answer exactly that. Two laws serve matches: a pattern without a
//! fault suits the shape of what it is matched with, and its variables have types of the environment.
#![tactic(auto)]

mod faults;
pub mod laws;
mod pattern;

pub use faults::{count_fault, fits, is_width, literal_fault, type_fault, unknown};
pub use pattern::checked_pattern;
