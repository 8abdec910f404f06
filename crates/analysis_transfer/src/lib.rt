//! The analysis of a code image in a domain, as an `Analyser` of `fixpoint_theory`: its transfers run the code of a specification on
//! elements of any domain. So `fixpoint_worklist::analyse` and `fixpoint_table_check::check` stand on it.
//!
//! # A transfer, with an example
//!
//! Take sets of at most two numbers for the words, a state of a counter and a word `x`, and at 4096 an instruction that adds 1
//! to `x` and goes on where `x` was not 0, and else to 4294967292. From the element `x: {0, 1}` it goes so:
//!
//! | step | gives |
//! |---|---|
//! | the word at 4096 is fetched and decoded | the instruction |
//! | the element is opened at 4096 | `State({4096}, {0, 1})` |
//! | the function of instructions is evaluated on both, with 64 turns as they come and 2 joins before widening | `State({4100, 4294967292}, {1, 2})` and the reads |
//! | the counter has members, at most as many as the limit | the targets 4100 and 4294967292 |
//! | the state is closed | `x: {1, 2}` |
//! | the reads are merged | the uses |
//!
//! Where the word has no decoding, it is the outcome. Where the counter may be more addresses than the limit, its word is, with the
//! uses. Where the evaluation has no value there are no targets and no element, and the uses of its reads stand. One step is counted
//! for each word that has a decoding. No evaluation is too deep, since widening ends each activation.
//!
//! # What is proved
//!
//! Each part gives what `analysis_transfer_laws` defines (specs/Transfer there), over any domain. An analysis is ready (`IsReady`,
//! specs/Analysis) where the problem is well posed, the domain is for the specification, its base joins, and code, decoder and fields are
//! the specification's. Then it keeps the laws of an analysis, and is sound for the machine of the meaning.
#![tactic(auto)]

mod analysis;
mod counter;
mod targets;
mod transfers;

pub use analysis::ImageAnalysis;
