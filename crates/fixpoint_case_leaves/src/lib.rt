//! Analysers by cases in code: how an element is split, and what the transfers of its pieces send where.
//!
//! An analysis whose elements are split (`SplitAnalyser`) says of an element at an address which pieces it has, or that it is not split there. Pieces are split
//! again, to a depth. That gives the cases of `fixpoint_cases` (specs/Cases there), up to how elements are written.
//!
//! `ByCases` is an analyser whose transfers make the transfer of each case, and keep what arrives apart by addresses (specs/Sent of `fixpoint_cases`). Take
//! the element `x: {1, 5, 9}` at a branch that goes to 4200 where `x < 4` and else to 4104, split at 4: the case `{1}` sends `{1}` to 4200, the case
//! `{5, 9}` sends `{5, 9}` to 4104. Where two cases go to one address, what arrives there is the join of both. A transfer by cases is one
//! step, however many cases are evaluated. No more than one case at each depth is kept beside what arrives.
//!
//! An element that is not split moves as it does without cases, and so does each at depth 0, so that one type stands for an analysis with cases and without.
//! Where the counter of a case may be too many addresses the element moves as if it were not split: the word that is shown is then that of its whole counter.
//!
//! *What is proved.* What the code sends is what the definition says of the cases, whatever stands for the elements. So `ByCases` keeps the laws of
//! an analyser, and is sound, for each way to split and each depth.
#![tactic(auto)]

mod by_cases;
mod case_transfer;
mod cases;
mod leaves;
mod split;

pub use by_cases::ByCases;
pub use split::SplitAnalyser;
