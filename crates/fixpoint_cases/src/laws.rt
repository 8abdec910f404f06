//! Laws of cases, stated in specs/Laws.antt. Nothing runs.

ghost use Rattle.fixpoint_cases.specs.Laws.{AnalysesByCasesAreSound, AnalysesByCasesKeepTheLaws, CasesCover, CasesFit, ChoicesSplit, ElementsMayStayUncut, FirstChoicesSplitAlike, PairsAreCut, PairsHaveSamePieces, SameElementsHaveSameCases, UnsplitElementsMoveAsBefore};
ghost use Rattle.fixpoint_cases.specs.Cases.{Split};

use fixpoint_theory::Analyser;

/// By any cuts of any cell the pieces of an element cover it, and elements are split by each choice of cells and cuts.
pub fn choices_split<A: Analyser>(analyser: &A)
    ensures { ChoicesSplit (A.analysis analyser.now).elements }
{}

/// Elements may stay uncut.
pub fn elements_may_stay_uncut<A: Analyser>(analyser: &A)
    ensures { ElementsMayStayUncut (A.analysis analyser.now).elements }
{}

/// Pairs are cut as their parts are.
pub fn pairs_are_cut<A: Analyser>(first: &A, second: &A)
    ensures { PairsAreCut (A.analysis first.now).elements (A.analysis second.now).elements }
{}

/// Pairs that are the same have the same pieces, where their parts do.
pub fn pairs_have_same_pieces<A: Analyser>(first: &A, second: &A)
    ensures { PairsHaveSamePieces (A.analysis first.now).elements (A.analysis second.now).elements }
{}

/// By choices of an address alone, elements that are the same are split alike.
pub fn first_choices_split_alike<A: Analyser>(analyser: &A)
    ensures { FirstChoicesSplitAlike (A.analysis analyser.now).elements }
{}

/// Cases of an element that fits fit.
pub fn cases_fit<A: Analyser>(analyser: &A)
    ensures { CasesFit (A.analysis analyser.now).elements }
{}

/// Each state of an element is one of a case.
pub fn cases_cover<A: Analyser>(analyser: &A)
    ensures { CasesCover (A.analysis analyser.now).elements }
{}

/// An analysis by cases keeps the laws of an analysis.
pub fn analyses_by_cases_keep_the_laws<A: Analyser>(analyser: &A)
    ensures { AnalysesByCasesKeepTheLaws (A.analysis analyser.now) }
{}

/// An analysis by cases is sound for each machine for which the analysis is.
pub fn analyses_by_cases_are_sound<A: Analyser>(analyser: &A)
    ensures { AnalysesByCasesAreSound (A.analysis analyser.now) (A.machine analyser.now) }
{}

/// Elements that are the same have cases that are the same, however they are split.
pub fn same_elements_have_same_cases<A: Analyser>(analyser: &A)
    ensures { (split : Split A.Plain) → SameElementsHaveSameCases (A.analysis analyser.now).elements split }
{}

/// An element that is not split moves as it does without cases, and so does each at depth 0.
pub fn unsplit_elements_move_as_before<A: Analyser>(analyser: &A)
    ensures { UnsplitElementsMoveAsBefore (A.analysis analyser.now) }
{}
