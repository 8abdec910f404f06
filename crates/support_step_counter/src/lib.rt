//! A counter of steps that takes no code.
//!
//! Contracts bound how many steps a call makes: a call that is lent a counter says how far it has gone on. It takes no
//! bytes, and nothing but `tick` changes it.
#![tactic(auto)]

mod steps;

pub use steps::Steps;
