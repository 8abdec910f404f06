//! What stands at a code address in an analysis: the trait `Domain`.
//!
//! A domain value is made for a specification. Its elements are seen as plain data of a type that the instance chooses
//! (`Plain`, by `view`), and each call answers an element that is the same as its value, a function of `elements` or
//! `meaning`. What every user may rest on is `laws`, with each specification that the domain is for. What the two records
//! are, with an example, says the head of `domain_laws`.
//!
//! # From a domain to an analysis
//!
//! A struct of references to a domain, its specification and what else a transfer needs is an analysis (`analysis_transfer`), with the
//! domain's elements. It is ready where, besides, `is_for` says that the domain is for its specification.
#![tactic(auto)]

mod domain;

pub use domain::Domain;
