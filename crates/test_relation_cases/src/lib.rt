//! Analyses over affine relations, cells and pairs of domains, as lines of text: domains whose elements have texts (`ShownDomain`), and what an
//! analysis in one of them gives.
//!
//! An element of cells is a line for each cell of its fields, behind the line `part kset` that names its base; one of affine relations a
//! line for each generating row, behind `part affine`; one of a pair has the lines of both parts. A row has the constant's column first, then
//! one for each tracked cell. Rows stand from the last column on, each reduced by those before it, so that each submodule has one text.
//!
//! A text to be read is an entry without its counter, `r[0] any;r[1] 2`, or several with a ` / ` between: the join of their elements. That of a
//! pair has a ` & ` between its parts.
//!
//! `over` analyses a subject in such a domain, `over_both` in two side by side. The answer is the trace, and the table with the verdicts on it
//! and on it with something cut; or else, where an address and a text are given (`Replacement`), the verdict on the table with that element.
//!
//! *What is proved.* An element that is read fits its domain.
#![tactic(auto)]

mod analyses;
mod domains;
mod least;
mod pairs;
mod rows;
mod verdicts;

pub use analyses::{over, over_both};
pub use domains::ShownDomain;
pub use verdicts::Replacement;
