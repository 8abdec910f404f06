//! Analyses of a code image in a domain, checks of their tables, and what both promise, in the words of the meaning.
//!
//! `analyse` and `check` are those of `fixpoint_worklist` and `fixpoint_table_check`, of an `ImageAnalysis` (`analysis_transfer`) in any
//! `Domain`. Besides what is proved there, a table that `analyse` answers, and one that `check` accepts, is *true of the runs* of the
//! machine (`IsTrueOfRuns`, `analysis_transfer_laws` specs/Runs). From every state that the entry describes, after any number of steps,
//! under every bound on turns:
//!
//! - the element at each code address describes every state that the meaning puts there;
//! - no code word is met that has no decoding;
//! - each step leads to an address that the block of its instruction lists, as next or as an exit;
//! - the block's use list holds every definition that the step's reads see, where the base tells definitions.
//!
//! Elements are not split here, whatever number of cases the analysis has: the program runs `analysis_cuts`, which at 0 is this, and tests run both.
//!
//! # An example
//!
//! A machine has a counter and a word `x`. At 4096 stands an instruction that sets `x` to 5, at 4100 one that adds 1 to it, and the entry
//! says that the counter is 4096 and `x` is 0. Over small sets, `analyse` answers the table
//!
//! | address | element | next | exits | uses |
//! |---|---|---|---|---|
//! | 4096 | `x: {0}` | 4100 | | |
//! | 4100 | `x: {5}` | | 4104 | |
//!
//! So `x` is 5 whenever a run from the entry is at 4100, and it goes on at 4104. Over definitions and uses
//! the block of 4100 lists the use of `x` from 4096 besides. `check` accepts this table, and one with `x: {5, 7}` at 4100, if the rest fits: it
//! is true as well. Of a table with `x: {7}` there it says that 4100 is open.
//!
//! # Left open
//!
//! `analyse_open` and `check_open` are `analyse` and `check` of `fixpoint_open_tables`: where a code word has no decoding, or an
//! instruction may lead to more addresses than the limit, the block stands without next addresses and exits, and the rest is analysed. A
//! table that is answered, and one that is accepted with the endings of its blocks, is true of the runs up to and with the first state at
//! such an address (`IsTrueUntilOpen`, `analysis_transfer_laws` specs/OpenRuns); with no open address that is the truth above.
#![tactic(auto)]

mod left_open;
mod tables;

pub use left_open::{analyse_open, check_open};
pub use tables::{analyse, check};
