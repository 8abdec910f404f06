//! Tests of whole reads and writes at each input and sink. What can be said of runs are cases of `test_program`.
#![tactic(auto)]

#[cfg(test)]
mod tests;
