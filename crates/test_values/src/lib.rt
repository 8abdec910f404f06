//! Tests of maps and values, in a crate of their own: each call at concrete bases, with answers worked out by hand.
#![tactic(auto)]

#[cfg(test)]
mod concrete;
#[cfg(test)]
mod map_tests;
#[cfg(test)]
mod maps;
#[cfg(test)]
mod tree_tests;
#[cfg(test)]
mod value_tests;
#[cfg(test)]
mod values;
