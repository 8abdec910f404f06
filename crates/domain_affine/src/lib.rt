//! The domain of affine relations: its element is a submodule of the vectors of 1 and the numbers of the tracked cells.
//!
//! `AffineDomain` is made for the states of a specification. It tracks words of 32 bits and maps of at most 64 keys to such
//! words, at most 64 cells in all. With a counter, a word `r` of 32 bits and a map `m` of the keys 0 and 1 to words of 32 bits
//! with the default 7, these are `r`, `m[0]` and `m[1]`. The entry `r 5`, `m[1] any` gives the rows (1, 5, 7, 0) and
//! (0, 0, 0, 1). At 4096 that opens to `State(4096, 5, { 0: 7, 1: m[1], rest any })`. The value
//! `State(4100, 1 + m[1], { 0: 7, 1: m[1], rest any })` closes to (1, 1, 7, 0) and (0, 1, 0, 1): `r` is `m[1]` and 1 more.
//!
//! *What is proved.* Each call gives what `domain_affine_laws` defines, and the domain has all laws of `domain_trait`: the
//! entry's element holds of each state of the entry, an opened element describes each state of which it holds, a closed one
//! holds of each next state that the value describes, joins hold of what either side does, and their chains end.
#![tactic(auto)]

mod closed;
mod domain;
mod entry;
mod opened;
mod tracked;

pub use domain::AffineDomain;
