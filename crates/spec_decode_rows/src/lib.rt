//! The last pass over a specification: its decode rows.
//!
//! A row is wrong where its widths, numbers, guards or arguments don't fit each other or the
//! constructor, and where a word may meet it and an earlier row: where both agree on every bit that
//! both fix, whatever their guards say. Rows are compared bit by bit, each with all earlier ones.
//!
//! Proved: `check_rows` answers the rows of the specification exactly where none is wrong, and else
//! exactly the first wrong row, by the definitions in specs/Fits.antt, specs/Bits.antt and
//! specs/Rows.antt.
#![tactic(auto)]

mod arguments;
mod bits;
mod fields;
mod guards;
pub mod laws;
mod numbers;
mod overlaps;
mod parts;
mod rows;

pub use rows::check_rows;
