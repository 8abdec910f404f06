//! Laws of analyses by cases, stated in specs/Laws.antt. Nothing runs.

ghost use Rattle.analysis_cases.specs.Laws.{CaseAnalysesAreSound, CaseAnalysesKeepTheLaws, CaseTransfersAreOne, ClosedByCasesAreTrue, OpenByCasesAreTrue};

use analysis_transfer_laws::PlainDomain;

/// The analysis of a problem by cases keeps the laws of an analysis.
pub fn case_analyses_keep_the_laws<D: PlainDomain>(domain: &D)
    ensures { CaseAnalysesKeepTheLaws D.B.algebra D.B.CAP (D.elements domain.now) (D.meaning domain.now) }
{}

/// It is sound for the machine of the problem.
pub fn case_analyses_are_sound<D: PlainDomain>(domain: &D)
    ensures { CaseAnalysesAreSound D.B.algebra D.B.CAP (D.elements domain.now) (D.meaning domain.now) }
{}

/// A table that is closed for it is true of every run.
pub fn closed_by_cases_are_true<D: PlainDomain>(domain: &D)
    ensures { ClosedByCasesAreTrue D.B.algebra D.B.CAP (D.elements domain.now) (D.meaning domain.now) }
{}

/// One that is closed but where it is left open is true of every run up to there.
pub fn open_by_cases_are_true<D: PlainDomain>(domain: &D)
    ensures { OpenByCasesAreTrue D.B.algebra D.B.CAP (D.elements domain.now) (D.meaning domain.now) }
{}

/// There is one transfer by cases, whatever reinterpretation it is by.
pub fn case_transfers_are_one<D: PlainDomain>(domain: &D)
    ensures { CaseTransfersAreOne D.B.algebra D.B.CAP (D.elements domain.now) (D.meaning domain.now) }
{}
