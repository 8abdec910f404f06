//! How the commands on tables agree. These functions do nothing: their contracts are laws.

ghost use Rattle.program_laws.specs.AgreementLaws.{AnalyseThenCheck, AnalysesAreAccepted, AnalysesAreTold, AnalysesTellOne, ConversionsStay, ConvertTwice, OpenAnalysesAreAccepted, OwedByInputs, TablesAreTold, TextsAreReadBack};

/// A text that is read as a table is a text of it.
pub fn tables_are_told()
    ensures { TablesAreTold }
{}

/// Each text of a table that its texts tell is read as it.
pub fn texts_are_read_back()
    ensures { TextsAreReadBack }
{}

/// The text of the table of an analysis is read back as that table.
pub fn analyses_are_told()
    ensures { AnalysesAreTold }
{}

/// Two texts that the analysis of a problem comes to tell one table, up to how its elements are written.
pub fn analyses_tell_one()
    ensures { AnalysesTellOne }
{}

/// A check accepts what an analysis prints, whenever its elements were widened.
pub fn analyses_are_accepted()
    ensures { AnalysesAreAccepted }
{}

/// A check of a table that may be left open accepts what an analysis prints that is left open.
pub fn open_analyses_are_accepted()
    ensures { OpenAnalysesAreAccepted }
{}

/// A text that was written anew stays as it is, up to how elements are written.
pub fn conversions_stay()
    ensures { ConversionsStay }
{}

/// What is owed depends on the inputs of the words alone.
pub fn owed_by_inputs()
    ensures { OwedByInputs }
{}

/// Where `analyse` owes a text, `check` of that text with the same other words, but for `--widen`, owes that it is accepted; where both are
/// left open, too.
pub fn analyse_then_check()
    ensures { AnalyseThenCheck }
{}

/// Where `convert` owes a text, `convert` of that text with the same other words owes a text of the same table.
pub fn convert_twice()
    ensures { ConvertTwice }
{}
