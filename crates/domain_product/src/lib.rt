//! The domain of pairs: two domains side by side.
//!
//! `PairDomain` is made of two domains, and its element is an element of each: it holds of the states that both hold of. Each
//! call acts on both parts. An element opens to both state values put side by side, and a state value closes by its parts.
//! With sets of numbers and intervals, the element whose first part has `{5, 9}` for a cell and whose second has `0..7`
//! opens to a state value whose word there is `({5, 9}, 0..7)`, which may be 5 alone.
//!
//! *What it is for.* A pair is for the specifications that both are for, where both bases join and at most one of them looks
//! at the valuation, as affine forms do (`may_pair` of `domain_product_laws`). Pairs are domains, so they nest.
//!
//! *What is proved.* Each call gives what `pair_meaning` of `domain_product_laws` and `paired` of `fixpoint_theory` define, and the pair
//! has all laws of `domain_trait`.
#![tactic(auto)]

mod domain;
mod sides;

pub use domain::PairDomain;
