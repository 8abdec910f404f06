//! What holds of the outcomes of analyses, and of what elements tell. These functions do nothing: their contracts are laws.

ghost use Rattle.program_domains.specs.Laws.{AnalysesAreOne, AnalysesHaveSome, ClosedAnalysesAreOpen, MeasuresAreOne, MeasuresHaveSome, OpenAnalysesAreOne, OpenAnalysesHaveSome, SumsAreExact};

/// Of a well-posed problem an analysis has one outcome at most, but that over relations two may be texts of its table.
pub fn analyses_are_one()
    ensures { AnalysesAreOne }
{}

/// It has an outcome: the text of its table, or the refusal of its first stop.
pub fn analyses_have_some()
    ensures { AnalysesHaveSome }
{}

/// An analysis that is left open has one outcome at most, but that over relations two may be texts of its table.
pub fn open_analyses_are_one()
    ensures { OpenAnalysesAreOne }
{}

/// It has an outcome: the text of its table.
pub fn open_analyses_have_some()
    ensures { OpenAnalysesHaveSome }
{}

/// Where an analysis has a table, the one that is left open has the same.
pub fn closed_analyses_are_open()
    ensures { ClosedAnalysesAreOpen }
{}

/// What is measured of an analysis has one outcome at most: how long its trace is, how many elements its table has, and the verdict on it.
pub fn measures_are_one()
    ensures { MeasuresAreOne }
{}

/// It has an outcome: these, or the refusal of its first stop.
pub fn measures_have_some()
    ensures { MeasuresHaveSome }
{}

/// Where affine relations describe some numbers, a sum is told exactly where it is 0 for all that they describe.
pub fn sums_are_exact()
    ensures { SumsAreExact }
{}
