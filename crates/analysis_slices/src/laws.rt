//! What a slice says of every run, stated in specs/Tables.antt. Nothing runs.

ghost use Rattle.analysis_slices.specs.Tables.{SlicesHoldChains};

use domain_trait::Domain;

/// The slice of a table that is true of every run holds each chain of each read that it is of.
pub fn slices_hold_chains<D: Domain>(domain: &D)
    ensures { SlicesHoldChains D.view D.B.algebra (D.elements domain.now) }
{}
