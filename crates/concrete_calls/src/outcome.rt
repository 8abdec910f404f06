//! What calls come to.

use abstract_value::AbstractValue;
use base_concrete::Concrete;

/// What a call comes to: a value, or an activation had no turn left.
#[derive(Drop)]
pub enum CallResult {
    Done(AbstractValue<Concrete>),
    OutOfFuel,
}
