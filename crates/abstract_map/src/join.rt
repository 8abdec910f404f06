//! Joining two maps.

ghost use Rattle.std.specs.Prelude.{◌≡◌, IfOk};
ghost use Rattle.base_trait.specs.Lists.{Each};
ghost use Rattle.abstract_cell_tree.specs.Entries.{Alike};
ghost use Rattle.abstract_map_laws.specs.Calls.{join_of, merged};
ghost use Rattle.abstract_map_laws.specs.Cells.{CellFits, join_cells};
ghost use Rattle.abstract_map_laws.specs.Keys.{either_key};
ghost use Rattle.abstract_map_laws.specs.Maps.{Fits, cell, cells_at, keys};
ghost use Rattle.abstract_map.specs.Merged.{with_new};
ghost use Rattle.abstract_map.specs.Unfolded.{FitsUnfolded};

use super::abstract_maps::AbstractMap;
use super::cells::{CellOf, join_cell};
use super::merge::Merge;
use abstract_cell_tree::{Branch, Parts, Tree};
use base_trait::Base;
use std::alloc::{AllocError as NoMemory, Global};

impl<B: Base> AbstractMap<B> {
    /// A map that describes each concrete map that either describes. Both have one width.
    ///
    /// It lists the keys of either; where a side lists no cell, its rest is joined.
    pub fn join(
        &self,
        alloc: Global,
        ctx: &B::Ctx,
        other: &AbstractMap<B>,
    ) -> Result<AbstractMap<B>, NoMemory>
        requires left { Fits B.algebra ctx.now B.CAP self.now }
        requires right { Fits B.algebra ctx.now B.CAP other.now }
        requires width { self.now.width ≡ other.now.width }
        ensures value { IfOk result (λ r. r ≡ join_of B.algebra ctx.now B.CAP self.now other.now) }
        ensures fits { IfOk result (λ r. Fits B.algebra ctx.now B.CAP r) }
    {
        self.merged(alloc, ctx, other)?.folded(alloc, ctx)
    }

    /// The map of the keys of either, however many they are.
    fn merged(
        &self,
        alloc: Global,
        ctx: &B::Ctx,
        other: &AbstractMap<B>,
    ) -> Result<AbstractMap<B>, NoMemory>
        requires left { Fits B.algebra ctx.now B.CAP self.now }
        requires right { Fits B.algebra ctx.now B.CAP other.now }
        requires width { self.now.width ≡ other.now.width }
        ensures value { IfOk result (λ r. r ≡ merged B.algebra ctx.now self.now other.now) }
        ensures fits { IfOk result (λ r. FitsUnfolded B.algebra ctx.now r) }
    {
        let width = self.width;
        let rest = join_cell::<B>(alloc, ctx, width, &self.rest, &other.rest)?;
        match self.merged_cells(alloc, ctx, other) {
            Ok(cells) => Ok(AbstractMap { width, rest, cells }),
            Err(error) => {
                drop(rest);
                Err(error)
            }
        }
    }

    /// The joined cells at the keys of either.
    fn merged_cells(
        &self,
        alloc: Global,
        ctx: &B::Ctx,
        other: &AbstractMap<B>,
    ) -> Result<Tree<CellOf<B>>, NoMemory>
        requires left { Fits B.algebra ctx.now B.CAP self.now }
        requires right { Fits B.algebra ctx.now B.CAP other.now }
        requires width { self.now.width ≡ other.now.width }
        ensures value { IfOk result (λ r. r ≡ cells_at (either_key (keys self.now) (keys other.now)) (λ k. join_cells B.algebra ctx.now self.now.width (cell self.now k) (cell other.now k))) }
    {
        let cells = self.merged_with(alloc, ctx, Merge::Join, other)?;
        self.with_new(alloc, ctx, other.root(), self.root(), cells)
    }

    /// Cells, with those of a part of another map whose keys are not listed here, joined with the rest. Its own cells are a
    /// part around them.
    fn with_new(
        &self,
        alloc: Global,
        ctx: &B::Ctx,
        cells: &Branch<CellOf<B>>,
        own: &Branch<CellOf<B>>,
        out: Tree<CellOf<B>>,
    ) -> Result<Tree<CellOf<B>>, NoMemory>
        requires map { Fits B.algebra ctx.now B.CAP self.now }
        requires cells { Each (λ e. CellFits B.algebra ctx.now self.now.width e.1) cells.now }
        requires own { Alike cells.now own.now self.now.cells }
        ensures value { IfOk result (λ r. r ≡ with_new self.now.cells (λ x. join_cells B.algebra ctx.now self.now.width self.now.rest x) cells.now out) }
    {
        match cells.parts() {
            Parts::Empty => Ok(out),
            Parts::One(key, new) => {
                if own.get(key).is_some() {
                    return Ok(out);
                }
                let cell = join_cell::<B>(alloc, ctx, self.width, &self.rest, new)?;
                out.put(alloc, key, cell)
            }
            Parts::Two(sides) => {
                let (left, right) = (sides.left, sides.right);
                let out = self.with_new(alloc, ctx, left, own.around(left), out)?;
                self.with_new(alloc, ctx, right, own.around(right), out)
            }
        }
    }
}
