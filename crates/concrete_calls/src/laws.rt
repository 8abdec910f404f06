//! Laws of values over single numbers, stated in specs/Laws. Nothing runs.

ghost use Rattle.concrete_calls.specs.Laws.{CallsAreMeant, StandingIsSame, ValueStands};

/// What stands for a concrete value is the same value, however maps list their cells.
pub fn standing_is_same()
    ensures { StandingIsSame }
{}

/// The abstract value of a concrete one stands for it.
pub fn value_stands()
    ensures { ValueStands }
{}

/// Calls on what stands for concrete arguments answer what the direct meaning gives on these.
pub fn calls_are_meant()
    ensures { CallsAreMeant }
{}
