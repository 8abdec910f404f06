//! Laws of tables that are one, stated in specs/Laws.antt. Nothing runs.

ghost use Rattle.analysis_table_laws.specs.Laws.{SameTablesAreTrue, SameTablesSameVerdict};
ghost use Rattle.std.specs.Prelude.{ℕ, Bool};
ghost use Rattle.base_trait.specs.NoNotes.{no_notes};
ghost use Rattle.base_defuse.specs.Notes.{stamp_notes};
ghost use Rattle.analysis_table_laws.specs.InvariantLaws.{CellsKeep, OpenTablesArePrintable, PairsKeep, RelationsKeep, ShownWordsFit, TablesArePrintable};
ghost use Rattle.analysis_table_laws.specs.Notes.{AreStampsOf, NotesKeep, TellsNothing};

use crate::domain::PrintableDomain;
use analysis_transfer_laws::PlainDomain;
use fixpoint_theory::Analyser;

/// Tables that are one have one verdict.
pub fn same_tables_same_verdict<A: Analyser>(analyser: &A)
    requires ready { A.IsReady analyser.now }
    ensures { SameTablesSameVerdict (A.analysis analyser.now) }
{}

/// Where one of them is true of every run, so is the other.
pub fn same_tables_are_true<D: PlainDomain>(domain: &D)
    ensures { SameTablesAreTrue D.B.algebra D.B.CAP (D.elements domain.now) (D.meaning domain.now) }
{}

/// The table of a trace is printable.
pub fn tables_are_printable<D: PrintableDomain>(domain: &D)
    ensures { TablesArePrintable D.B.algebra D.B.CAP (D.elements domain.now) (D.meaning domain.now) D.ElementFits }
{}

/// The table of a trace of an analysis that is left open is printable.
pub fn open_tables_are_printable<D: PrintableDomain>(domain: &D)
    ensures { OpenTablesArePrintable D.B.algebra D.B.CAP (D.elements domain.now) (D.meaning domain.now) D.ElementFits }
{}

/// Words that transfers show are of 32 bits.
pub fn shown_words_fit<D: PrintableDomain>(domain: &D)
    ensures { ShownWordsFit D.B.algebra D.B.CAP (D.elements domain.now) (D.meaning domain.now) }
{}

/// Sets of stamps stay sets of some stamps of the code.
pub fn stamps_keep()
    ensures { (code : ℕ → Bool) → NotesKeep stamp_notes code (AreStampsOf code) }
{}

/// Notes that tell nothing have nothing to keep.
pub fn nothing_keeps()
    ensures { (code : ℕ → Bool) → NotesKeep no_notes code (TellsNothing code) }
{}

/// Elements of cells keep what notes keep.
pub fn cells_keep<D: PrintableDomain>(domain: &D)
    ensures { CellsKeep D.B.algebra D.NoteFits }
{}

/// Elements of affine relations have no notes.
pub fn relations_keep()
    ensures { RelationsKeep }
{}

/// Pairs keep what both parts keep.
pub fn pairs_keep<A: PrintableDomain, B: PrintableDomain>(first: &A, second: &B)
    ensures { PairsKeep A.B.algebra B.B.algebra (A.elements first.now) (B.elements second.now) (A.meaning first.now) (B.meaning second.now)
        A.NoteFits B.NoteFits A.ElementFits B.ElementFits }
{}
