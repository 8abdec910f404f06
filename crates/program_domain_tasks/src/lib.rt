//! What is asked in a domain: the table of an analysis, what is measured of it, the verdict on a table, a table written anew, a slice of
//! one, or its answers to claims.
//!
//! Each is done in a domain that is made for the specification: the code is analysed and its table is written (src/table), or it is
//! measured and its table checked (src/measure); the text of a table is read and checked (src/check), or read and written in format 2
//! (src/convert). Of a table that is read and accepted, a slice is written (src/slice), or an answer to each claim of another text
//! (src/claims). A table that is written by an analysis, and one that is accepted, is true of every run of the machine.
//!
//! The tables are those of which no block is left open; only a table that is written anew may be another. The rest is the work of
//! `program_open_tasks`, which takes from here what both need: what is made of a specification (src/prepared), the texts, and what is
//! refused.
//!
//! The definitions of `program_domains` speak of plain elements, and the code of its own. specs/Own says what a task comes to with those of the
//! code. That this is what the definitions say, `program_base_tasks` shows for each base.
#![tactic(auto)]

mod check;
mod claims;
mod closed_table;
mod convert;
mod measure;
mod prepared;
mod slice;
mod table;
mod task;
mod verdict;

pub use check::{answer_accepted, check_in_domain};
pub use claims::{answer_bytes, claims_in_domain};
pub use closed_table::first_open;
pub use convert::convert_in_domain;
pub use measure::measure_in_domain;
pub use prepared::{Prepared, prepare};
pub use slice::{slice_bytes, slice_in_domain};
pub use table::{analyse_in_domain, open_table_answer};
pub use task::{AnalysisStart, DomainTask, SliceCriterion, Subject};
pub use verdict::require_closed;
