//! What a domain is, as definitions: elements that stand for sets of states, and the calls by which an instruction is
//! evaluated on them.
//!
//! In an analysis an element stands at each code address. An instruction is not evaluated on the element itself, but on an
//! abstract value of the type of states. So a domain has three calls besides those of `fixpoint_theory` specs/Elements
//! (specs/Domain): `entry` makes the element of an entry, `open` the state value of an element at an address, and `close`
//! the element of the state value behind an instruction. Take intervals for the two words of a state behind its counter,
//! with the element 0..9, 5..5. At 4096 it opens to the value `State(4096, 0..9, 5..5)`. An instruction that adds both and
//! goes on gives `State(4100, 5..14, 5..5)`, and that closes to 5..14, 5..5. The counter is dropped: an element has the
//! address at which it stands.
//!
//! *Valuations.* Words of a state value may be forms over the numbers that some cells, the tracked ones, had before the
//! instruction. The valuation of a state is the list of these numbers. What an element opens to describes the state in the valuation
//! of that state, and what closes describes the next state in the valuation before.
//!
//! *Laws* (`DomainLaws`). The entry's element holds of each state of the entry. Where an element holds of a state, what it
//! opens to describes the state. Where a value describes the next state, what it closes to holds of that. No call lists a
//! stamp that it was not lent. Elements that are the same open to one value, and close to elements that are the same.
//!
//! *States* (specs/States). Of a specification a domain needs to know the number of the datatype of states, and the fields
//! behind the counter: each is a word, or a map with so many keys, a width and a default. An entry fits where each line names
//! a cell that is there, and gives numbers of its width (specs/Entries). A state value is made by the one constructor of
//! states, and its maps list keys of their types alone (specs/Values).
//!
//! *Pieces* (specs/Pieces). What is left of an element where a cell lies between two numbers holds of each state of the element in which the
//! number of the cell does. So pieces between numbers that follow each other cover the element.
//!
//! # Elements of cells
//!
//! As plain data they are an abstract value for each field of a state but the counter. They are a domain, over
//! each base that joins and does not look at the valuation.
//!
//! An element holds of a state where each of its values describes the field (specs/Cells). With sets of at most two numbers,
//! the element `{1, 2}, { 4: {7}, rest {0} }` holds of the states whose word is 1 or 2 and whose map has 7 at the key 4, and 0
//! elsewhere. Join, widening and absorption go value by value; a rank is the sum over the fields. There is one way to write
//! an element, so that the same is equality.
//!
//! *The element of an entry* (specs/Entry). A word has what is given of it, or 0. A map has its `*` line, or its default, at
//! every key, and then the cells that lines name are written into it, each with the note of the entry. So the lines `R[4] 7`
//! and `R[5] 1..2` over the default 0 give `{ 4: {7}, 5: {1, 2}, rest {0} }`. Past the number of cells that a map may list,
//! the cell of the greatest key goes into the rest.
//!
//! *Opening and closing* (specs/Calls). The state value has the counter as a constant and the element's values behind it.
//! Closing takes the values behind the first field of the one constructor.
//!
//! *What is proved*: all laws of a domain, for each specification that the elements are for (specs/Laws).
#![tactic(auto)]

mod cell_range;
mod field;
pub mod laws;

pub use cell_range::CellRange;
pub use field::Field;
