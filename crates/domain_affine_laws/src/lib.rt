//! Elements of affine relations as a domain, as plain data: what they open to, and what they close to.
//!
//! *Tracked cells* (specs/Tracked). Of the fields behind the counter, words of 32 bits are tracked, and all keys of maps of
//! at most 64 keys to such words, in the order of the fields and at most 64 in all. With a word `r` of 32 bits, a map `m` of
//! the keys 0 and 1 to words of 32 bits with the default 7, and a word of 8 bits, these are three cells: `r`, `m[0]` and
//! `m[1]`. An element is a submodule of the vectors of 1 and their numbers, of which `domain_affine_element_laws` tells.
//!
//! *The element of an entry* (specs/Entry). A cell is a constant where one number is given, else any. So the lines `r 5` and
//! `m[1] any` give the rows (1, 5, 7, 0) and (0, 0, 0, 1).
//!
//! *Opening* (specs/Opened). The counter is a constant. A tracked cell is the least constant that it must be, or else itself.
//! A map lists its keys where they are tracked. Its rest is any, and so is a word that is not tracked. The rows (1, 5, 0, 0),
//! (0, 0, 1, 0), (0, 0, 0, 1) open at 4096 to `State(4096, 5, { 0: m[0], 1: m[1], rest any }, any)`.
//!
//! *Closing* (specs/Closed). The words of the state value at the tracked cells are forms over the valuation before. From these
//! rows, the value `State(4100, 1 + m[0], { 0: m[0], 1: m[1], rest any }, any)` closes to the rows (1, 1, 0, 0), (0, 1, 1, 0),
//! (0, 0, 0, 1): `r` is `m[0]` and 1 more.
//!
//! *What is proved* (specs/Laws): all laws of a domain, for each specification that the elements are for, where a map may
//! list 64 cells. A map lists all its keys or none, and each tracked cell has the word at its place. The tracked cells are
//! those of the fields' types.
#![tactic(auto)]

pub mod laws;
