//! How elements of cells are cut, as definitions and laws. Nothing runs.
//!
//! The piece of an element between two numbers of a cell has in that cell what is left of the word (specs/Pieces). In sets of at most two numbers,
//! of the element `{1, 2}, { 4: {7, 9}, rest {0} }` the piece of the cell 4 of the map between 0 and 8 is `{1, 2}, { 4: {7}, rest {0} }`.
//! A key that is not listed is listed by its piece, where there is room. Where there is none the element stays as it is. (No piece should be worse than
//! the element; that is not proved.)
//!
//! *What is proved* (specs/Laws): in each state of an element, the pieces between numbers around that of the cell hold of it, and elements that are the same have the same pieces.
#![tactic(auto)]

pub mod laws;
