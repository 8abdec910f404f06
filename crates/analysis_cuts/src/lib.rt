//! Analyses of an image by cases: at each address those cells may be cut on which the next counter hangs.
//!
//! `analyse` and `check` are those of `analysis_images`, with the transfers by cases: an element is split at most so often over as the analysis says
//! (`cases`), before its instruction is evaluated, and each case goes its own way. Over sets, and with one split, take `x: {0, 3}` at the branch
//! `if x == 0:32 then 4200 else 4104`: the case `x: {0}` goes to 4200 and the case `x: {3}` to 4104. At 0 both are what `analysis_images` gives.
//!
//! Of the cells that an instruction compares the first is cut whose cuts narrow the element (specs/Narrowing of `fixpoint_cases`): none of the pieces absorbs it. So a base that
//! cannot be cut, as known bits, costs no evaluation more, and the pieces of a first split are cut at the next comparison: at the branch `if x == 0:32 && y == 0:32 ..` two splits tell
//! four cases of `x: {0, 3}, y: {0, 3}`.
//!
//! `CutAnalysis` is the analysis of an image as one whose elements are split (`SplitAnalyser` of `fixpoint_case_leaves`), over any domain, by what
//! `analysis_choices` says of each instruction. `ByCases` makes an analyser of it, whose worklist and checker are those of every analyser.
//!
//! *What is proved.* Splitting loses no state, so the analysis by cases keeps the laws of an analysis and is sound for the machine of the meaning. A
//! table that `analyse` answers, and one that `check` accepts, is true of the runs of the machine: that is the same statement as without cases.
#![tactic(auto)]

mod cut_analysis;
mod left_open;
mod narrowing;
mod pieces;
mod tables;

pub use cut_analysis::CutAnalysis;
pub use left_open::{analyse_open, check_open};
pub use tables::{analyse, check};
