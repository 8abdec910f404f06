//! What is asked over a base that is named.
//!
//! Each base stands for a domain (`over_base`, src/named), and the task is done there (`in_domain`, src/over): the table of an analysis,
//! what is measured of it, the verdict on a table, a table written anew, a slice of one, or its answers to claims; and the analysis, the
//! verdict, the slice and the answers where blocks may be left open. What it comes to is what `program_domains` says of the base (`Done`,
//! specs/Named): the domain of the code is one of the definitions (proofs/Ties).
#![tactic(auto)]

mod named;
mod over;

pub use named::over_base;
