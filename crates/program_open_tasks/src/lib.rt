//! What is asked in a domain of tables that may be left open: the table of an analysis, the verdict on one, a slice of one, or its answers to claims.
//!
//! Blocks end as their transfers do: where what comes next is not known, a block is left open, and the table says how it ends. The code is
//! analysed so and its table is written (src/left_open); the text of a table is read with the endings of its blocks and checked
//! (src/open_check). Of a table that is read and accepted, a slice is written (src/open_slice), or an answer to each claim of another text
//! (src/open_claims). Such a table is true of the runs up to and with the first state at an address that is left open, and where there is
//! one, the line `until open` stands before a slice and before answers (src/until_open).
//!
//! The rest is as in `program_domain_tasks`, for tables of which no block is left open. specs/Open and specs/OpenTables say what a task
//! comes to with the elements of the code.
#![tactic(auto)]

mod left_open;
mod open_check;
mod open_claims;
mod open_slice;
mod open_verdict;
mod until_open;

pub use left_open::analyse_open_in_domain;
pub use open_check::check_open_in_domain;
pub use open_claims::claims_open_in_domain;
pub use open_slice::slice_open_in_domain;
