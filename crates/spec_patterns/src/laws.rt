//! Laws, stated in specs/Laws.antt. Nothing runs.

ghost use Rattle.spec_patterns.specs.Laws.{PatternsSuit, VariablesHaveTypes};

/// A typed pattern suits the shape of what it is matched with.
pub fn patterns_suit()
    ensures { PatternsSuit }
{}

/// The variables of a pattern have types of the environment.
pub fn variables_have_types()
    ensures { VariablesHaveTypes }
{}
