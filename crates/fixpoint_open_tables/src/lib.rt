//! Tables that are left open: analyses that give a table of every program, and what such a table says of runs.
//!
//! An analysis of `fixpoint_worklist` ends without a table where a code word that is reached has no decoding, or where an
//! instruction's new counter may be more addresses than the limit. Here the block of such an address stands in the table
//! with its element and uses, and with neither next addresses nor exits; how it ends is listed beside the table (`Ending`).
//! The address is *open*. The rest is analysed.
//!
//! # An example
//!
//! Over intervals of the numbers 0 to 99, take at 4096 an instruction that goes on at 4104 or behind it, at 4100 a word
//! without decoding, at 4104 one that adds 2, and at 4108 one that goes on wherever the number says. With the numbers 0 to 9
//! in the entry the table is
//!
//! | address | element | next | ending |
//! |---|---|---|---|
//! | 4096 | 0..9 | 4100, 4104 | |
//! | 4100 | 0..9 | | undecodable |
//! | 4104 | 0..9 | 4108 | |
//! | 4108 | 2..11 | | open 2..11 |
//!
//! # What is said
//!
//! | what | where | says |
//! |---|---|---|
//! | left open | specs/LeftOpen | the analysis in which an outcome without a list of targets has none, and no element behind the instruction |
//! | endings | specs/Endings | how each block ends, and when a table is closed but open: closed for that analysis, with the endings of its transfers |
//! | runs | specs/Runs | what the table says of every run until it is at an open address, and with that state |
//! | verdict | specs/Verdicts | that of `fixpoint_table_check` on the table alone, unless an ending is wrong at its address or before it |
//!
//! # What is proved
//!
//! `analyse` always gives a table, where memory lasts. It is that of the one complete legal trace of the analysis that is left
//! open, and it is closed but open. `check` accepts exactly the tables with endings that are closed but open, made here or
//! elsewhere. From every state of the entry, under every bound on turns, as long as the states before are at no open
//! address:
//!
//! - the element at the counter describes the state, also at an open address;
//! - a step from an address that is not open goes to one that its block lists;
//! - the block's uses cover each read of the step, also from an open address whose word has a decoding;
//! - a code word without decoding is met at an open address alone.
//!
//! Where no address is open, that is what a closed table says (`laws`).
//!
//! # How
//!
//! `LeftOpen` is an analyser over another one, so the worklist and the checker are used as they are. Its own machine makes
//! no step, since no machine is described by transfers that stop short. Of a table that is closed but open the analysis that
//! is left open at the table's open addresses alone is sound for the machine that has no turn left there, and the table is
//! closed for it; a run of the machine is one of that machine until it is at an open address (proofs/Soundness).
//!
//! A block that lists a next address or an exit has a list of targets, so the endings of a closed table take one transfer for
//! each other block.
#![tactic(auto)]

mod analysis;
mod apart;
mod block_endings;
mod checker;
mod ending;
mod endings;
pub mod laws;
mod left_open;

pub use analysis::{OpenReport, analyse};
pub use block_endings::{add_ending, table_endings};
pub use checker::check;
pub use ending::Ending;
pub use endings::Endings;
pub use left_open::LeftOpen;
