//! Laws of claims, stated in specs/Laws.antt. Nothing runs.

ghost use Rattle.analysis_query_laws.specs.Answers.{Telling};
ghost use Rattle.analysis_query_laws.specs.Laws.{CellsTellTruly, ClaimsHold, FormsAreSums, PairsTellTruly, RelationsTellTruly, SumsAreExact, SumsAreOfMembers};
ghost use Rattle.analysis_query_laws.specs.SliceLaws.{NumberedRunsAreRuns, SlicesAreOfUses, SlicesAreOne, SlicesAreThere, SlicesHoldChains};

use analysis_transfer_laws::PlainDomain;
use base_trait::Base;
use fixpoint_theory::Analyser;

/// What elements of cells tell is true.
pub fn cells_tell_truly<B: Base>()
    ensures { CellsTellTruly B.algebra }
{}

/// What elements of affine relations tell is true.
pub fn relations_tell_truly()
    ensures { RelationsTellTruly }
{}

/// What pairs tell is true, where what their parts tell is.
pub fn pairs_tell_truly<A: PlainDomain, B: PlainDomain>(first: &A, second: &B)
    ensures { PairsTellTruly (A.elements first.now) (B.elements second.now) }
{}

/// Sums are exact where some numbers are described.
pub fn sums_are_exact()
    ensures { SumsAreExact }
{}

/// What is told of a sum does not depend on how a submodule is written.
pub fn sums_are_of_members()
    ensures { SumsAreOfMembers }
{}

/// The form of a sum is the sum.
pub fn forms_are_sums()
    ensures { FormsAreSums }
{}

/// A yes of a table that is true of every run is true of every state at its address.
pub fn claims_hold<D: PlainDomain>(domain: &D)
    ensures { (told : Telling D.Plain) → ClaimsHold (D.elements domain.now) told D.B.algebra }
{}

/// There is one slice of a table for a read.
pub fn slices_are_one()
    ensures { SlicesAreOne }
{}

/// There is a slice, where finitely many addresses have uses.
pub fn slices_are_there()
    ensures { SlicesAreThere }
{}

/// A slice is the same however elements are seen.
pub fn slices_are_of_uses<A: Analyser>()
    ensures { SlicesAreOfUses A.view }
{}

/// A run with the numbers of its steps for stamps is the run of the meaning, but for stamps.
pub fn numbered_runs_are_runs()
    ensures { NumberedRunsAreRuns }
{}

/// A slice of a table that is true of every run holds each chain of each read that it is of.
pub fn slices_hold_chains<D: PlainDomain>(domain: &D)
    ensures { SlicesHoldChains D.B.algebra (D.elements domain.now) }
{}
