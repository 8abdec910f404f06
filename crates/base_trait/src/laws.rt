//! Laws of logs and stamps, stated in specs/Uses.antt and specs/Stamps.antt. Nothing runs.

ghost use Rattle.base_trait.specs.Stamps.{AreInOrder};
ghost use Rattle.base_trait.specs.Uses.{GrownLogsCover};

use super::uses::Stamp;

/// What a log covers it covers as it grows: so a read that is added keeps what was covered.
pub fn grown_logs_cover()
    ensures { GrownLogsCover }
{}

/// The order `<` of stamps has the entry first, then addresses, ascending: it is that of `is_before`.
pub fn stamps_are_in_order()
    ensures { AreInOrder ⟦<Stamp as Ord>⟧.cmp }
{}
