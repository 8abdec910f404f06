//! Laws of pieces of elements of cells, stated in specs/Laws.antt. Nothing runs.

ghost use Rattle.domain_cell_pieces.specs.Laws.{CellsAreCut};

use base_trait::Base;

/// Elements of cells are cut as their words are.
pub fn cells_are_cut<B: Base>()
    ensures { CellsAreCut B.algebra }
{}
