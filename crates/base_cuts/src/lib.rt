//! How the words of bases are cut.
//!
//! A word may be cut at numbers: of the interval 3 to 9 the part between 0 and 5 is 3 to 5, and the part between 6 and 20 is 6 to 9.
//! `meet` (specs/Cuts) gives what is left of a word between two numbers, or nothing. The one law that soundness needs is
//! `meet_describes`: a number that the word describes, and that lies between, stays described. So a base may always give the word
//! itself (`uncut`); known bits, affine forms and single numbers do. Sets, intervals and strided intervals are cut exactly (specs/Sets, specs/Intervals,
//! specs/Strides), and pairs part by part (specs/Pairs).
//!
//! `CutBase` has both in code, beside `Base`, for each base of words.
#![tactic(auto)]

mod cut_base;
mod intervals;
pub mod laws;
mod pairs;
mod sets;
mod strides;
mod uncut;
mod width;

pub use cut_base::CutBase;
