//! Laws of elements of affine relations as a domain, stated in specs/Laws.antt. Nothing runs.

ghost use Rattle.domain_affine_laws.specs.Laws.{AffineKeepsTheLaws, CellsHaveTheirWords, OpensWholeMaps, OthersHaveNone, TypesAreTracked};

/// Elements of affine relations are a domain for each specification that they are for.
pub fn affine_keeps_the_laws()
    ensures { AffineKeepsTheLaws }
{}

/// The tracked cells of fields are those of their types.
pub fn types_are_tracked()
    ensures { TypesAreTracked }
{}

/// A tracked cell has the word at its place.
pub fn cells_have_their_words()
    ensures { CellsHaveTheirWords }
{}

/// A cell that is not tracked has none.
pub fn others_have_none()
    ensures { OthersHaveNone }
{}

/// A map lists all its keys, where they are tracked, or none.
pub fn opens_whole_maps()
    ensures { OpensWholeMaps }
{}
