//! What holds of every analysis whose tables are left open: each contract is a law, stated in specs/Laws.antt, and
//! nothing runs.

ghost use Rattle.fixpoint_theory.specs.Analysis.{Analysis, AnalysisLaws};
ghost use Rattle.fixpoint_open_tables.specs.Laws.{AcceptedAreClosedButOpen, ClosedIfNowhereOpen, OpenTablesAreSound, SoundIfNowhereOpen, VerdictsAreOne};
ghost use Rattle.fixpoint_open_tables.specs.LeftOpen.{left_open};

use fixpoint_theory::Analyser;

/// An analysis whose tables are left open keeps the laws.
pub fn left_open_keeps_the_laws<A: Analyser>(analyser: &A)
    requires ready { A.IsReady analyser.now }
    ensures { AnalysisLaws (left_open (A.analysis analyser.now)) }
{}

/// What a table says that is closed but open holds of every run up to and with the first state at an open address.
pub fn open_tables_are_sound<A: Analyser>(analyser: &A)
    requires ready { A.IsReady analyser.now }
    ensures { OpenTablesAreSound (A.analysis analyser.now) (A.machine analyser.now) }
{}

/// Where no address is open, a table is closed but open exactly where it is closed.
pub fn closed_if_nowhere_open<A: Analyser>(analyser: &A)
    ensures { ClosedIfNowhereOpen (A.analysis analyser.now) }
{}

/// Where no address is open, a table is sound until open exactly where it is sound.
pub fn sound_if_nowhere_open<A: Analyser>(analyser: &A)
    ensures { SoundIfNowhereOpen (A.analysis analyser.now) (A.machine analyser.now) }
{}

/// A table is accepted with its endings exactly where it is closed but open.
pub fn accepted_are_closed_but_open<A: Analyser>(analyser: &A)
    requires ready { A.IsReady analyser.now }
    ensures { AcceptedAreClosedButOpen (A.analysis analyser.now) }
{}

/// There is one verdict on a table with its endings.
pub fn verdicts_are_one<A: Analyser>(analyser: &A)
    ensures { VerdictsAreOne (A.analysis analyser.now) }
{}
