//! Room for cells.

ghost use Rattle.std.specs.Prelude.{◌≡◌, IfOk, drop};
ghost use Rattle.word_operations.specs.Width.{IsWidth};
ghost use Rattle.base_trait.specs.Lists.{Each};
ghost use Rattle.abstract_map_laws.specs.Calls.{folded, rest_with};
ghost use Rattle.abstract_map_laws.specs.Cells.{CellFits};
ghost use Rattle.abstract_map_laws.specs.Maps.{Fits};
ghost use Rattle.abstract_map.specs.Unfolded.{FitsUnfolded};

use super::abstract_maps::AbstractMap;
use super::cells::{CellOf, copy_cell, joined_into};
use abstract_cell_tree::Tree;
use base_trait::Base;
use std::alloc::{AllocError as NoMemory, Global};

impl<B: Base> AbstractMap<B> {
    /// Where the base joins, cells past what it may list go into the rest, that of the greatest key first.
    pub(crate) fn folded(self, alloc: Global, ctx: &B::Ctx) -> Result<AbstractMap<B>, NoMemory>
        requires map { FitsUnfolded B.algebra ctx.now self }
        ensures value { IfOk result (λ r. r ≡ folded B.algebra ctx.now B.CAP self) }
        ensures fits { IfOk result (λ r. Fits B.algebra ctx.now B.CAP r) }
    {
        if self.cells.len() <= B::CAP {
            return Ok(self);
        }
        let own = copy_cell::<B>(alloc, ctx, &self.rest)?;
        let rest = folded_rest::<B>(alloc, ctx, self.width, own, &self.cells)?;
        match self.cells.first(alloc, B::CAP) {
            Ok(cells) => Ok(AbstractMap {
                width: self.width,
                rest,
                cells,
            }),
            Err(error) => {
                drop(rest);
                Err(error)
            }
        }
    }
}

/// The rest with the cells past what the base may list, that of the greatest key first.
fn folded_rest<B: Base>(
    alloc: Global,
    ctx: &B::Ctx,
    w: u32,
    rest: CellOf<B>,
    cells: &Tree<CellOf<B>>,
) -> Result<CellOf<B>, NoMemory>
    requires width { IsWidth w }
    requires rest { CellFits B.algebra ctx.now w rest }
    requires cells { Each (λ e. CellFits B.algebra ctx.now w e.1) cells.now }
    ensures { IfOk result (λ r. r ≡ rest_with B.algebra ctx.now w rest (drop B.CAP cells.now)) }
{
    let mut rest = rest;
    let mut place = cells.len();
    while B::CAP < place {
        place -= 1;
        rest = joined_into::<B>(alloc, ctx, w, rest, cells.at(place).1)?;
    }
    Ok(rest)
}
