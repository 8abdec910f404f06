//! Elements of analyses as text.
//!
//! An element is written by its parts, each behind the line `part NAME` that names its base:
//!
//! - *cells*: a line for each word field behind the counter, and for each map a line for its rest, `NAME[*]`, and one for each listed
//!   cell, with ascending keys. Behind the cell stands its word, and where it came from, if the base tells that;
//! - *affine relations*: a line for each generating row, `row` and its k + 1 numbers in hex;
//! - *pairs*: the parts of both.
//!
//! # An example
//!
//! Of a state with a map `r` of four words of 32 bits, the element over sets that has 0 everywhere but for 5 at the key 1, and over
//! definitions and uses the same, is
//!
//! ```text
//! part kset
//! r[*] {00000000}
//! r[1] {00000005}
//! part defuse
//! r[*] {00000000} from entry
//! r[1] {00000005} from 00001000
//! ```
//!
//! What each text is, specs/Cells, specs/Rows and specs/Parts say. The text of cells is a function of the element. A submodule has
//! many lists of generating rows: its text is that of any of them in which each row adds to those before it. So `WriteElement` says
//! which bytes are texts of an element, and its calls append one. After an error of them nothing is said of what was appended: callers use
//! `append_element` and `append_word`, which leave what stood there.
#![tactic(auto)]

mod appended;
mod cells;
mod element;
mod named;
mod part_cells;
mod rows;

pub use appended::{append_element, append_word};
pub use element::WriteElement;
pub use named::NamedBase;
