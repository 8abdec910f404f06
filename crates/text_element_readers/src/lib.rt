//! Elements of analyses, read back from the lines of a table.
//!
//! What `text_elements` writes of an element is read here, for each domain: the line `part NAME` and the cells or the rows of that part, and of a
//! pair the parts of both. What is read of lines, specs/Reading says. A line that is not taken stays for what follows, and where
//! an element is not read to its end the first line that is left is the faulty one.
//!
//! Rows of affine relations are read into those that a domain keeps, which generate the same submodule.
//!
//! A word of 32 bits, as the counter of an instruction that is left open, is read of its text (specs/Words). Each word has one text.
#![tactic(auto)]

mod element;
pub mod laws;
mod part;
mod words;

pub use element::ReadElement;
