//! Checks a table, made here or elsewhere: whether it is closed, and so holds of every run.
//!
//! `check` tests the entry first, then each listed address, ascending, by one transfer: its decoding, the number of
//! its targets, its targets, its uses, and whether each target that is a code address is listed with an element
//! that absorbs what the transfer gives. It answers the first part that fails. It trusts nothing of how the table
//! was made, and takes no joins and no widening. It works over any `Analyser` that is ready (`IsReady`) and sound for its machine (`Described`).
//!
//! *What is proved.* The verdict is the one of the definition (`fixpoint_theory` specs/Verdicts), which is accepted
//! exactly where the table is closed; the law `verdicts_mean` there says what each other verdict means. An accepted
//! table is sound, whoever made it: what it says holds of every run of the machine. At most one
//! step is made for a listed address, and exactly one for each where the table is accepted.
//!
//! *How.* The transfer that the code makes may write its element otherwise than the definition's does. Outcomes
//! that are the same have the same fault (proofs/Sameness), so the loop's invariant speaks of the definition alone:
//! the blocks of all entries so far stand.
#![tactic(auto)]

mod checker;
mod fault;
mod open;
mod same_uses;

pub use checker::check;
