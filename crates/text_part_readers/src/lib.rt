//! Parts of elements read back from lines: cells, and rows of affine relations.
//!
//! Each call takes the lines that are left, and leaves those behind what it read; where it read nothing, those from the first faulty
//! line on. What is read, specs/Cells and specs/Rows say as functions of the lines.
//!
//! - *Cells* (`read_cells`): the fields of states but the counter, in their order. A word field is `NAME WORD`. A map is its rest,
//!   `NAME[*] WORD NOTE`, and its listed cells, `NAME[KEY] WORD NOTE`, with ascending keys, at most as many as the base may list. A cell is
//!   taken while the next line is one, and a line that is none stays for what follows.
//! - *Rows* (`read_rows`): `row N N ..`, with k + 1 numbers of 32 bits. A row is taken where those before it do not generate it.
//!
//! Lines have one spelling: digits are in lower case and as many as the width has, and one space stands between.
#![tactic(auto)]

mod cells;
mod fields;
mod keys;
mod pieces;
mod rows;

pub use fields::read_cells;
pub use keys::key_in;
pub use pieces::cut;
pub use rows::read_rows;
