//! A law of claims of tables, stated in specs/Tables.antt. Nothing runs.

ghost use Rattle.analysis_claims.specs.Tables.{YesIsTrue};

use crate::claim_elem::ClaimElement;

/// A yes of a table that is true of every run is true of every state at its address.
pub fn yes_is_true<D: ClaimElement>(domain: &D)
    ensures { YesIsTrue D.view (D.elements domain.now) (D.telling domain.now) D.B.algebra }
{}
