//! What turns give, and activations between their turns.
//!
//! Nothing here evaluates code; the crate `evaluator` does.
//!
//! *An activation* is a call of a function: a first turn of its group on the arguments, and then as many as the driver asks for.
//! Where the first turn asks for no other (`asks_again`), its leaves are the value, and there need be no driver.
//!
//! *Laws.* `may_be_evaluated`: an accepted specification with its own code may be evaluated.
#![tactic(auto)]

mod activity;
mod laws;
mod turn_yield;

pub use activity::{ActivationStep, Activity, advance, args_of, begin};
pub use laws::may_be_evaluated;
pub use turn_yield::{TurnYield, asks_again, call_in_group, join_given, leaf, value_in};
