//! Whether a map absorbs another.

ghost use Rattle.std.specs.Prelude.{◌≡◌, map};
ghost use Rattle.std.specs.List.{list_all};
ghost use Rattle.abstract_cell_tree.specs.Entries.{Alike};
ghost use Rattle.abstract_map_laws.specs.Calls.{absorbs_of};
ghost use Rattle.abstract_map_laws.specs.Cells.{absorbs_cell};
ghost use Rattle.abstract_map_laws.specs.Keys.{either_key};
ghost use Rattle.abstract_map_laws.specs.Maps.{Fits, cell, keys};

use super::abstract_maps::AbstractMap;
use super::cells::{CellOf, absorbs};
use abstract_cell_tree::{Branch, Parts};
use base_trait::Base;

impl<B: Base> AbstractMap<B> {
    /// Whether it absorbs the new map at each key that either lists, and at the rest: if so it describes every concrete
    /// map that the new one describes. Both have one width.
    pub fn absorbs(&self, ctx: &B::Ctx, new: &AbstractMap<B>) -> bool
        requires old { Fits B.algebra ctx.now B.CAP self.now }
        requires new { Fits B.algebra ctx.now B.CAP new.now }
        requires width { self.now.width ≡ new.now.width }
        ensures { result ≡ absorbs_of B.algebra ctx.now self.now new.now }
    {
        self.absorbs_listed(ctx, new) && absorbs::<B>(ctx, self.width, &self.rest, &new.rest)
    }

    /// Whether it does at each key that either lists.
    fn absorbs_listed(&self, ctx: &B::Ctx, new: &AbstractMap<B>) -> bool
        requires old { Fits B.algebra ctx.now B.CAP self.now }
        requires new { Fits B.algebra ctx.now B.CAP new.now }
        requires width { self.now.width ≡ new.now.width }
        ensures value { result ≡ list_all (λ k. absorbs_cell B.algebra ctx.now self.now.width (cell self.now k) (cell new.now k)) (either_key (keys self.now) (keys new.now)) }
    {
        let (old_cells, new_cells) = (self.root(), new.root());
        self.absorbs_at(ctx, new, old_cells, old_cells, new_cells)
            && self.absorbs_at(ctx, new, new_cells, old_cells, new_cells)
    }

    /// Whether it does at the key of each of these cells. Its own cells and the new ones are parts around them.
    fn absorbs_at(
        &self,
        ctx: &B::Ctx,
        new: &AbstractMap<B>,
        cells: &Branch<CellOf<B>>,
        old_cells: &Branch<CellOf<B>>,
        new_cells: &Branch<CellOf<B>>,
    ) -> bool
        requires old { Fits B.algebra ctx.now B.CAP self.now }
        requires new { Fits B.algebra ctx.now B.CAP new.now }
        requires width { self.now.width ≡ new.now.width }
        requires old_cells { Alike cells.now old_cells.now self.now.cells }
        requires new_cells { Alike cells.now new_cells.now new.now.cells }
        ensures value { result ≡ list_all (λ k. absorbs_cell B.algebra ctx.now self.now.width (cell self.now k) (cell new.now k)) (map (λ e. e.0) cells.now) }
    {
        match cells.parts() {
            Parts::Empty => true,
            Parts::One(key, _) => {
                let old = self.cell_near(old_cells, key);
                absorbs::<B>(ctx, self.width, old, new.cell_near(new_cells, key))
            }
            Parts::Two(sides) => {
                let (left, right) = (sides.left, sides.right);
                self.absorbs_at(
                    ctx,
                    new,
                    left,
                    old_cells.around(left),
                    new_cells.around(left),
                ) && self.absorbs_at(
                    ctx,
                    new,
                    right,
                    old_cells.around(right),
                    new_cells.around(right),
                )
            }
        }
    }
}
