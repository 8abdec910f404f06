//! Laws of elements of cells, stated in specs/Laws.antt. Nothing runs.

ghost use Rattle.domain_laws.specs.Laws.{CellsKeepTheLaws};

use base_trait::Base;

/// Elements of cells are a domain for each specification that they are for.
pub fn cells_keep_the_laws<B: Base>()
    ensures { CellsKeepTheLaws B.algebra }
{}
