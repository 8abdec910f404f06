//! Tables of an analysis, read from their text.
//!
//! What `text_tables` writes is read here: in format 2, and in format 1, which has one line of code and no order of bytes. A text is that
//! of a table of an image, over a base, or it is refused at its first line that no table of these has there:
//!
//! | fault | the line |
//! |---|---|
//! | X1 | has another form, or ends without LF; it names an address that is no code word's, a cell out of order, or a row that adds nothing; it says how a block ends that lists what comes next |
//! | X2 | is line 2, and names another base |
//! | X3 | tells of another order of bytes, or of other code |
//!
//! What is read of a text, specs/Tables says: the head line by line (specs/Heads), then the blocks (specs/Blocks), each with its address
//! (specs/Starts), the element that its domain reads, what stands behind that (specs/Ends), and how the block ends where it is left open
//! (specs/Endings). A line is taken where it stands; the first line that is not taken is faulty. So a field of states may be called `use`,
//! `next` or `at`.
//!
//! Laws of these definitions (specs/Readings, proofs/One, Some, Shorter) say what holds of tables that are read.
#![tactic(auto)]

mod addresses;
mod block;
mod endings;
mod head;
mod lines;
mod setting;
mod table;
mod uses;

pub use table::{OpenTable, read_table};
