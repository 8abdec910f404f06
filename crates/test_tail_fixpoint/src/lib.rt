//! Tests of the driver of self calls.
#![tactic(auto)]

#[cfg(test)]
mod tests;
