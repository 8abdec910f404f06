//! The check of terms.
//!
//! The checks of terms call one another, one function for each production; what is left of a production
//! once its parts are checked is a step of `spec_term_steps`. Matches are compiled once, where they are
//! checked; that the premises of `spec_match_compiler` hold is shown by lemmas on the definitions.
//!
//! Proved: `check_body_term` answers exactly the first fault of a body by the definitions of
//! `spec_typing`, and where there is none its typed term and its core term.
#![tactic(auto)]

mod body;
mod terms;

pub use body::check_body_term;
