//! What holds of the outcomes of the commands. These functions do nothing: their contracts are laws.

ghost use Rattle.program_analyses.specs.Laws.{AnalyseHasOne, AnalyseHasSome, CheckHasOne, CheckHasSome, ClaimsHasOne, ClaimsHasSome, ConvertHasOne, ConvertHasSome, SliceHasOne, SliceHasSome};
ghost use Rattle.program_analyses.specs.StressLaws.{StressHasOne, StressHasSome, StressIsAccepted};

/// Over the bytes that names hold, `analyse` has one outcome at most, left open or not, but that over affine relations two may be texts of its table.
pub fn analyse_has_one()
    ensures { AnalyseHasOne }
{}

/// It has an outcome.
pub fn analyse_has_some()
    ensures { AnalyseHasSome }
{}

/// `check` has one outcome at most, over relations too: the rows of an element change no verdict.
pub fn check_has_one()
    ensures { CheckHasOne }
{}

/// It has an outcome.
pub fn check_has_some()
    ensures { CheckHasSome }
{}

/// `convert` has one outcome at most, but that over affine relations two may be texts of one table.
pub fn convert_has_one()
    ensures { ConvertHasOne }
{}

/// It has an outcome.
pub fn convert_has_some()
    ensures { ConvertHasSome }
{}

/// `slice` has one outcome at most, over relations too: the rows of an element change neither a verdict nor a slice.
pub fn slice_has_one()
    ensures { SliceHasOne }
{}

/// It has an outcome.
pub fn slice_has_some()
    ensures { SliceHasSome }
{}

/// `claims` has one outcome at most, over relations too: the rows of an element change no answer.
pub fn claims_has_one()
    ensures { ClaimsHasOne }
{}

/// It has an outcome.
pub fn claims_has_some()
    ensures { ClaimsHasSome }
{}

/// It has one outcome at most, over relations too: the summary tells only numbers and a verdict, which the rows of an element do not change.
pub fn stress_has_one()
    ensures { StressHasOne }
{}

/// It has an outcome.
pub fn stress_has_some()
    ensures { StressHasSome }
{}

/// Where it answers, the verdict is that the table is accepted.
pub fn stress_is_accepted()
    ensures { StressIsAccepted }
{}
