//! The analysis of a problem by cases over any domain, as a definition and laws. Nothing runs.
//!
//! The element at an address is split before its transfer, and each case goes its own way: what each sends stays apart by addresses (`by_cases` of
//! `fixpoint_cases`). Take intervals, and at 4096 a branch to 4000 where x is below 8, on x from 0 to 9, split at 8. To 4000 goes x from 0 to 7, and
//! to 4100 x from 8 to 9.
//!
//! *What is proved* (specs/Laws), for each domain that keeps its laws, each problem that is well posed, each way to split elements that loses
//! no state, and each depth:
//!
//! | law | says |
//! |---|---|
//! | `case_analyses_keep_the_laws` | the analysis by cases keeps the laws of an analysis, where elements that are the same are split alike: so all laws of `fixpoint_theory` hold of it |
//! | `case_analyses_are_sound` | from a state of an element, under every bound on turns, each step leads where an element arrives that holds of the next state, and the uses cover the reads |
//! | `closed_by_cases_are_true` | a table that is closed for it is true of every run |
//! | `open_by_cases_are_true` | one that is closed but where it is left open is true of every run up to and with the first state there |
//! | `case_transfers_are_one` | there is one transfer by cases, whatever reinterpretation it is by |
#![tactic(auto)]

pub mod laws;
