//! Cells of states by their texts alone: `NAME` is a field, `NAME[KEY]` the cell of a map at a key, and `NAME[*]` a map at any key.
//!
//! A name is a letter or `_` and then letters, digits and `_`, and not `_` alone. The text of a key is one or more of these bytes. Which field and
//! which key that is, if any, is no matter here.
#![tactic(auto)]

mod name;
mod split;

pub use name::{CellName, CellPart, cell_name};
pub use split::split_once;
