//! Which arms of a choice are evaluated.

use abstract_value::AbstractValue;
use base_trait::Base;

/// Which arms of a choice are evaluated.
#[derive(Drop)]
pub enum Plan<B: Base> {
    /// None: there is no value.
    Nothing,
    /// An arm by its number, with the values of its variables.
    Arm(u32, Vec<AbstractValue<B>>),
    /// One and then another, whose answers are joined.
    Both(Box<Plan<B>>, Box<Plan<B>>),
}
