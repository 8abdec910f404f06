//! A law of the numbers at which cells are cut, stated in specs/Laws.antt. Nothing runs.

ghost use Rattle.analysis_choices.specs.Laws.{CutsDecide};

/// Numbers of 32 bits between which no cut lies make a comparison alike.
pub fn cuts_decide()
    ensures { CutsDecide }
{}
