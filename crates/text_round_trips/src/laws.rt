//! Laws of elements that are written and read, stated in specs/Laws.antt. Nothing runs.

ghost use Rattle.std.specs.Prelude.{ℕ, Bool, List};
ghost use Rattle.semantics_values.specs.States.{State};
ghost use Rattle.fixpoint_theory.specs.Elements.{Elements};
ghost use Rattle.text_elements.specs.Parts.{ElementText};
ghost use Rattle.text_element_readers.specs.Reading.{ElementReading};
ghost use Rattle.text_element_readers.specs.Words.{WordReading};
ghost use Rattle.text_round_trips.specs.Laws.{CellsBegin, CellsRoundTrip, PairsBegin, PairsRoundTrip, RelationsBegin, RelationsRoundTrip};
ghost use Rattle.text_round_trips.specs.Words.{CellsWordsTell, PairsWordsTell, RelationsWordsTell};
ghost use Rattle.text_round_trips.specs.Analyses.{TextsOfTracesAreAccepted, TracesAreWritable};
ghost use Rattle.text_round_trips.specs.TableLaws.{ConvertedTextsAreRead, FittingTablesAreOfCode, OpenTablesReadAreWritable, OpenTextsAreRead, OpenTextsAreTold, OpenTextsTellTables, TablesReadAreWritable, TextsAreRead, TextsAreTold, TextsTellTables};
ghost use Rattle.text_round_trips.specs.Machines.{MachinesHaveUseTexts};
ghost use Rattle.text_round_trips.specs.OpenAnalyses.{OpenTracesAreWritable, TextsOfOpenTracesAreAccepted};

use crate::domain::WrittenDomain;
use fixpoint_theory::Analyser;
use text_elements::NamedBase;

/// The definitions of elements that are written and read.
pub trait WrittenElements {
    /// What elements are as plain data.
    ghost Plain: { Type 0 };

    /// What is read of lines.
    ghost Reads: { ElementReading Plain };

    /// Which texts are those of an element.
    ghost IsText: { ElementText Plain };

    ghost elements: { Elements Plain State };

    /// What elements have whose texts tell them, where a test tells addresses of code words.
    ghost IsPrintable: { (ℕ → Bool) → Plain → Type 0 };
}

/// Cells are written and read back.
pub fn cells_round_trip<B: NamedBase>()
    ensures { CellsRoundTrip B.algebra B.NoteFits B.texts B.readings }
{}

/// Affine relations are written and read back.
pub fn relations_round_trip()
    ensures { RelationsRoundTrip }
{}

/// Pairs are written and read back, where both parts are.
pub fn pairs_round_trip<A: WrittenElements, B: WrittenElements>()
    ensures { PairsRoundTrip A.Reads B.Reads A.IsText B.IsText A.elements B.elements A.IsPrintable B.IsPrintable }
{}

/// Texts of cells begin with the line of a part.
pub fn cells_begin<B: NamedBase>()
    ensures { CellsBegin B.texts }
{}

/// Texts of affine relations do.
pub fn relations_begin()
    ensures { RelationsBegin }
{}

/// Texts of pairs do, where those of their first part do.
pub fn pairs_begin<A: WrittenElements, B: WrittenElements>()
    ensures { PairsBegin A.IsText B.IsText }
{}

/// The definitions of words that are written and read.
pub trait WrittenWords {
    /// What words are as plain data.
    ghost Word: { Type 0 };

    /// The text of a word of so many bits.
    ghost write: { ℕ → Word → List ℕ };

    /// What is read of a text as a word of 32 bits.
    ghost reads: { WordReading Word };

    /// Which words are of 32 bits.
    ghost Fits: { Word → Type 0 };
}

/// Words of cells are written and read back.
pub fn cells_words_tell<B: NamedBase>()
    ensures { CellsWordsTell B.algebra B.texts B.readings }
{}

/// Affine words are written and read back.
pub fn relations_words_tell()
    ensures { RelationsWordsTell }
{}

/// Pairs of words are written and read back, where both parts are, and no text of the first has a space.
pub fn pairs_words_tell<A: WrittenWords, B: WrittenWords>()
    ensures { PairsWordsTell A.write B.write A.reads B.reads A.Fits B.Fits }
{}

/// The definitions of elements that are written and read.
pub trait PlainTexts {
    /// What elements are as plain data.
    ghost Plain: { Type 0 };

    /// What is read of lines.
    ghost Reads: { ElementReading Plain };

    /// What is written of elements.
    ghost IsText: { ElementText Plain };

    ghost elements: { Elements Plain State };

    /// Which elements texts tell, where a test tells the addresses of code words.
    ghost IsPrintable: { (ℕ → Bool) → Plain → Type 0 };

    /// What words are as plain data.
    ghost Word: { Type 0 };

    /// What is read of a text as a word of 32 bits.
    ghost word_in: { WordReading Word };

    /// The text of a word of so many bits.
    ghost word_text: { ℕ → Word → List ℕ };

    /// Which words are of 32 bits.
    ghost WordFits: { Word → Type 0 };
}

/// A text that is read is one of the table that is read with its endings.
pub fn open_texts_are_told<T: PlainTexts>()
    ensures { OpenTextsAreTold T.Reads T.word_in T.IsText T.word_text T.elements T.IsPrintable T.WordFits }
{}

/// A table that is read with its endings is one that its texts tell.
pub fn open_tables_read_are_writable<T: PlainTexts>()
    ensures { OpenTablesReadAreWritable T.Reads T.word_in T.IsText T.word_text T.elements T.IsPrintable T.WordFits }
{}

/// A text of such a table is read as that table with its endings.
pub fn open_texts_are_read<T: PlainTexts>()
    ensures { OpenTextsAreRead T.Reads T.word_in T.IsText T.word_text T.elements T.IsPrintable T.WordFits }
{}

/// Tables with one text are alike, and end alike.
pub fn open_texts_tell_tables<T: PlainTexts>()
    ensures { OpenTextsTellTables T.Reads T.word_in T.IsText T.word_text T.elements T.IsPrintable T.WordFits }
{}

/// A text that is read is one of the table that is read.
pub fn texts_are_told<T: PlainTexts>()
    ensures { TextsAreTold T.Reads T.word_in T.IsText T.word_text T.elements T.IsPrintable T.WordFits }
{}

/// A table that is read is one that its texts tell.
pub fn tables_read_are_writable<T: PlainTexts>()
    ensures { TablesReadAreWritable T.Reads T.word_in T.IsText T.word_text T.elements T.IsPrintable T.WordFits }
{}

/// A text of such a table is read as that table.
pub fn texts_are_read<T: PlainTexts>()
    ensures { TextsAreRead T.Reads T.word_in T.IsText T.word_text T.elements T.IsPrintable T.WordFits }
{}

/// Tables with one text are alike.
pub fn texts_tell_tables<T: PlainTexts>()
    ensures { TextsTellTables T.Reads T.word_in T.IsText T.word_text T.elements T.IsPrintable T.WordFits }
{}

/// What is written of a table that was read is read as that table.
pub fn converted_texts_are_read<T: PlainTexts>()
    ensures { ConvertedTextsAreRead T.Reads T.word_in T.IsText T.word_text T.elements T.IsPrintable T.WordFits }
{}

/// The blocks of a table of an analysis that fits, and fits the image, are those of its code.
pub fn fitting_tables_are_of_code<A: Analyser>(analyser: &A)
    ensures { FittingTablesAreOfCode (A.analysis analyser.now) }
{}

/// The fields of a machine that was checked tell uses.
pub fn machines_have_use_texts()
    ensures { MachinesHaveUseTexts }
{}

/// The table of a trace is one that its texts tell.
pub fn traces_are_writable<D: WrittenDomain>(domain: &D)
    ensures { TracesAreWritable D.B.algebra D.B.CAP (D.elements domain.now) (D.meaning domain.now) D.ElementFits }
{}

/// A text of the table of a complete legal trace is read as that table, and accepted.
pub fn texts_of_traces_are_accepted<D: WrittenDomain>(domain: &D)
    ensures { TextsOfTracesAreAccepted D.B.algebra D.B.CAP (D.elements domain.now) (D.meaning domain.now) D.ElementFits D.Reads D.word_in D.IsText
        D.word_text D.WordFits }
{}

/// The table of a trace of an analysis that is left open, with its endings, is one that its texts tell.
pub fn open_traces_are_writable<D: WrittenDomain>(domain: &D)
    ensures { OpenTracesAreWritable D.B.algebra D.B.CAP (D.elements domain.now) (D.meaning domain.now) D.ElementFits }
{}

/// A text of the table of a complete legal trace of such an analysis is read as that table with its endings, and accepted.
pub fn texts_of_open_traces_are_accepted<D: WrittenDomain>(domain: &D)
    ensures { TextsOfOpenTracesAreAccepted D.B.algebra D.B.CAP (D.elements domain.now) (D.meaning domain.now) D.ElementFits D.Reads D.word_in
        D.IsText D.word_text }
{}
