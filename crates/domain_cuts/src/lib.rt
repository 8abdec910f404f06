//! Elements of cells, cut in code.
//!
//! `cell_piece` gives what is left of an element where one cell lies between two numbers, by `value_piece` of the field and `map_piece` of a map. They are the definitions of `domain_cell_pieces` (specs/Pieces), whose laws say that pieces cover what was cut.
#![tactic(auto)]

mod elements;
mod maps;
mod values;

pub use elements::cell_piece;
pub use maps::map_piece;
pub use values::value_piece;
