//! Which arms of a choice are evaluated: those that a condition may take, and those that a decision on a value may pick.
//!
//! A condition that may be true and false takes both arms; a decision on a value of which two constructors are present picks the arms of both. What
//! they give is then joined, two at a time, as the decision is nested. A plan says which arms, in which order, and what their variables
//! name. On the set {1, 2} the decision "row 0 where the word is 1, else row 1" has the plan of both rows, and on {2} that of row 1.
//!
//! - `plan_decision`, `either_of_two`: the plans, which are made without evaluating an arm, in a loop along the literals of a position;
//! - `plans_decide`, `plans_branch`: what the arms of a plan give, joined, is what the decision or the condition gives;
//! - `plans_fit`: values that a plan names fit.
#![tactic(auto)]

pub mod laws;
mod plan;
mod plans;

pub use plan::Plan;
pub use plans::{either_of_two, plan_decision};
