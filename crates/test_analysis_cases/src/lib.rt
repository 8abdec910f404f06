//! Analyses of code, as lines of text: what a case says is read, its code is analysed, and the table that comes out is written and checked.
//!
//! A case is the name of a domain, a machine, the code words at 00001000 in hex, and an entry, with a `;` for each line end:
//! `defuse mini | 01010005 02000025 | pc 00001000`. `analysed` answers the addresses at which transfers were made, and what a program has to
//! say of the table (`Reporter`): its blocks by their addresses, and the verdicts of the checker on it, and on it with something changed
//! (`cut`). Where an analysis stops, the answer says how.
//!
//! A program of cases has its own names of domains, and writes their elements; what each case gives stands in its stdout.
#![tactic(auto)]

mod analyses;
mod case;
mod cells;
mod cut;
mod machine;
mod program;
mod reporter;
mod subject;
mod text;

pub use analyses::{analysed, push_checked, push_cut};
pub use case::{Case, no};
pub use cells::push_cells;
pub use cut::{Cut, with_block, without};
pub use program::{Program, answer};
pub use reporter::{Notation, Reporter};
pub use subject::{Subject, Unread, entry};
