//! Tests of rows modulo 2^32, of forms, and of affine elements: each call, with answers worked out by hand. They stand apart, since a crate
//! with tests is proved a second time with them.
#![tactic(auto)]

#[cfg(test)]
mod elements;
#[cfg(test)]
mod rows;
