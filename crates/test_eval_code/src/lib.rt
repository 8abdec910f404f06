//! Tests of the code of a specification.
#![tactic(auto)]

#[cfg(test)]
mod tests;
