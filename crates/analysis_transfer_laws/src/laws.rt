//! Laws of transfers, stated in specs/Laws.antt. Nothing runs.

ghost use Rattle.analysis_transfer_laws.specs.Laws.{ClosedTablesAreTrue, ClosedTablesHold, EvaluationsGiveStates, ReinterpretationsExist, TransfersAreOne, TransfersAreSound, TransfersKeepTheLaws};
ghost use Rattle.analysis_transfer_laws.specs.OpenRuns.{OpenTruthIsTruth};
ghost use Rattle.analysis_transfer_laws.specs.Uses.{UsesAreMerged};

use crate::domain::PlainDomain;

/// Merged uses are in order, and cover what the uses cover.
pub fn uses_are_merged()
    ensures { UsesAreMerged }
{}

/// There is a reinterpretation at each address.
pub fn reinterpretations_exist<D: PlainDomain>(domain: &D)
    ensures { ReinterpretationsExist D.B.algebra D.B.CAP (D.elements domain.now) (D.meaning domain.now) }
{}

/// There is one transfer, whatever reinterpretation it is by.
pub fn transfers_are_one<D: PlainDomain>(domain: &D)
    ensures { TransfersAreOne D.B.algebra D.B.CAP (D.elements domain.now) (D.meaning domain.now) }
{}

/// A state that an instruction gives fits.
pub fn evaluations_give_states<D: PlainDomain>(domain: &D)
    ensures { EvaluationsGiveStates D.B.algebra D.B.CAP (D.elements domain.now) (D.meaning domain.now) }
{}

/// The analysis of a problem keeps what the theory of fixed points rests on.
pub fn transfers_keep_the_laws<D: PlainDomain>(domain: &D)
    ensures { TransfersKeepTheLaws D.B.algebra D.B.CAP (D.elements domain.now) (D.meaning domain.now) }
{}

/// It is sound for the machine.
pub fn transfers_are_sound<D: PlainDomain>(domain: &D)
    ensures { TransfersAreSound D.B.algebra D.B.CAP (D.elements domain.now) (D.meaning domain.now) }
{}

/// A closed table holds of every run of the machine.
pub fn closed_tables_hold<D: PlainDomain>(domain: &D)
    ensures { ClosedTablesHold D.B.algebra D.B.CAP (D.elements domain.now) (D.meaning domain.now) }
{}

/// So it is true of every run in the words of the meaning.
pub fn closed_tables_are_true<D: PlainDomain>(domain: &D)
    ensures { ClosedTablesAreTrue D.B.algebra D.B.CAP (D.elements domain.now) (D.meaning domain.now) }
{}

/// A table that is left open nowhere is true until then exactly if it is true of every run.
pub fn open_truth_is_truth<D: PlainDomain>(domain: &D)
    ensures { OpenTruthIsTruth D.B.algebra (D.elements domain.now) }
{}
