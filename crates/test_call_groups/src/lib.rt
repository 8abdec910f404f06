//! Tests of groups of functions, worked out by hand.
#![tactic(auto)]

#[cfg(test)]
mod tests;
