//! Laws of the type of values. Those of plain values are in `abstract_value_laws` and `abstract_value_laws`. Nothing runs.

ghost use Rattle.abstract_value.specs.Same.{TellsViews};

use super::value::AbstractValue;
use base_trait::Base;

/// Values are equal exactly where their views are the same.
pub fn equal_values_are_the_same<B: Base>()
    ensures { TellsViews ⟦<AbstractValue<B> as PartialEq>⟧.eq }
{}
