//! What holds of every analysis: each contract is a law, stated in specs/Laws.antt and specs/Elements.antt, and nothing
//! runs.

ghost use Rattle.fixpoint_theory.specs.Analysis.{Analysis};
ghost use Rattle.fixpoint_theory.specs.Elements.{BoundsHold, ElementLaws, SameElementsHold};
ghost use Rattle.fixpoint_theory.specs.Pairs.{paired};
ghost use Rattle.fixpoint_theory.specs.Laws.{AcceptedAreClosed, ClosedTablesAreSound, CompleteTracesClose, LegalTracesAreOne, LegalTracesAreShort, LegalTracesEnd, TablesAreOne, TablesFitTheImage, VerdictsMean};

use crate::analyser::Analyser;

/// A join and a widening describe what either side does.
pub fn bounds_hold<A: Analyser>(analyser: &A)
    requires ready { A.IsReady analyser.now }
    ensures { BoundsHold (A.analysis analyser.now).elements }
{}

/// Elements that are the same describe the same states.
pub fn same_elements_hold<A: Analyser>(analyser: &A)
    requires ready { A.IsReady analyser.now }
    ensures { SameElementsHold (A.analysis analyser.now).elements }
{}

/// Pairs of elements keep the laws of their parts.
pub fn pairs_keep_the_laws<A: Analyser>(first: &A, second: &A)
    requires first { A.IsReady first.now }
    requires second { A.IsReady second.now }
    ensures { ElementLaws (paired (A.analysis first.now).elements (A.analysis second.now).elements) }
{}

/// A legal trace has at most so many addresses as the code words times the height, the joins and one.
pub fn legal_traces_are_short<A: Analyser>(analyser: &A)
    requires ready { A.IsReady analyser.now }
    ensures { LegalTracesAreShort (A.analysis analyser.now) }
{}

/// There is one legal trace to an end.
pub fn legal_traces_are_one<A: Analyser>(analyser: &A)
    ensures { LegalTracesAreOne (A.analysis analyser.now) }
{}

/// There is a legal trace to an end.
pub fn legal_traces_end<A: Analyser>(analyser: &A)
    requires ready { A.IsReady analyser.now }
    ensures { LegalTracesEnd (A.analysis analyser.now) }
{}

/// The table of a legal trace after which nothing is pending is closed.
pub fn complete_traces_close<A: Analyser>(analyser: &A)
    requires ready { A.IsReady analyser.now }
    ensures { CompleteTracesClose (A.analysis analyser.now) }
{}

/// A table of a trace has addresses and stamps of the image alone, and its lists ascend.
pub fn tables_fit_the_image<A: Analyser>(analyser: &A)
    requires ready { A.IsReady analyser.now }
    ensures { TablesFitTheImage (A.analysis analyser.now) }
{}

/// There is one table of a trace, up to how its elements are written.
pub fn tables_are_one<A: Analyser>(analyser: &A)
    requires ready { A.IsReady analyser.now }
    ensures { TablesAreOne (A.analysis analyser.now) }
{}

/// What a closed table says holds of every run of a machine for which the analysis is sound.
pub fn closed_tables_are_sound<A: Analyser>(analyser: &A)
    requires ready { A.IsReady analyser.now }
    ensures { ClosedTablesAreSound (A.analysis analyser.now) (A.machine analyser.now) }
{}

/// A table is accepted exactly where it is closed.
pub fn accepted_are_closed<A: Analyser>(analyser: &A)
    requires ready { A.IsReady analyser.now }
    ensures { AcceptedAreClosed (A.analysis analyser.now) }
{}

/// A table has a verdict exactly where what the verdict means holds of it.
pub fn verdicts_mean<A: Analyser>(analyser: &A)
    requires ready { A.IsReady analyser.now }
    ensures { VerdictsMean (A.analysis analyser.now) }
{}
