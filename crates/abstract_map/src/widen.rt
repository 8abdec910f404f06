//! Widening a map by a new one.

ghost use Rattle.std.specs.Prelude.{◌≡◌, IfOk, map, not};
ghost use Rattle.std.specs.List.{filter};
ghost use Rattle.base_trait.specs.Lists.{Each};
ghost use Rattle.abstract_cell_tree.specs.Entries.{Alike};
ghost use Rattle.abstract_map_laws.specs.Calls.{news, widen_of};
ghost use Rattle.abstract_map_laws.specs.Cells.{CellFits, joined, widen_cells};
ghost use Rattle.abstract_map_laws.specs.Keys.{has_key};
ghost use Rattle.abstract_map_laws.specs.Maps.{Fits, keys};

use super::abstract_maps::AbstractMap;
use super::cells::{CellOf, copy_cell, joined_if, widen_cell};
use super::merge::Merge;
use abstract_cell_tree::{Branch, Parts};
use base_trait::Base;
use std::alloc::{AllocError as NoMemory, Global};

impl<B: Base> AbstractMap<B> {
    /// A map that describes each concrete map that either describes, such that no chain of widenings grows for ever: it
    /// is the old map where that absorbs the new one, and else of lesser rank. Both have one width.
    ///
    /// It lists the old keys. Each is widened with what the new map has there, and the rest with the join of the new rest
    /// and of the cells that the new map alone lists.
    pub fn widen(
        &self,
        alloc: Global,
        ctx: &B::Ctx,
        new: &AbstractMap<B>,
    ) -> Result<AbstractMap<B>, NoMemory>
        requires old { Fits B.algebra ctx.now B.CAP self.now }
        requires new { Fits B.algebra ctx.now B.CAP new.now }
        requires width { self.now.width ≡ new.now.width }
        ensures value { IfOk result (λ r. r ≡ widen_of B.algebra ctx.now self.now new.now) }
        ensures fits { IfOk result (λ r. Fits B.algebra ctx.now B.CAP r) }
    {
        let rest = self.widened_rest(alloc, ctx, new)?;
        match self.merged_with(alloc, ctx, Merge::Widen, new) {
            Ok(cells) => Ok(AbstractMap {
                width: self.width,
                rest,
                cells,
            }),
            Err(error) => {
                drop(rest);
                Err(error)
            }
        }
    }

    /// The old rest, widened with the new one.
    fn widened_rest(
        &self,
        alloc: Global,
        ctx: &B::Ctx,
        new: &AbstractMap<B>,
    ) -> Result<CellOf<B>, NoMemory>
        requires old { Fits B.algebra ctx.now B.CAP self.now }
        requires new { Fits B.algebra ctx.now B.CAP new.now }
        requires width { self.now.width ≡ new.now.width }
        ensures value { IfOk result (λ r. r ≡ widen_cells B.algebra ctx.now self.now.width self.now.rest (joined B.algebra ctx.now self.now.width new.now.rest (news self.now new.now))) }
    {
        let others = self.new_rest(alloc, ctx, new)?;
        widen_cell::<B>(alloc, ctx, self.width, &self.rest, &others)
    }

    /// The new rest, joined with the cells that the new map alone lists.
    fn new_rest(
        &self,
        alloc: Global,
        ctx: &B::Ctx,
        new: &AbstractMap<B>,
    ) -> Result<CellOf<B>, NoMemory>
        requires old { Fits B.algebra ctx.now B.CAP self.now }
        requires new { Fits B.algebra ctx.now B.CAP new.now }
        requires width { self.now.width ≡ new.now.width }
        ensures value { IfOk result (λ r. r ≡ joined B.algebra ctx.now self.now.width new.now.rest (news self.now new.now)) }
        ensures fits { IfOk result (λ r. CellFits B.algebra ctx.now self.now.width r) }
    {
        let rest = copy_cell::<B>(alloc, ctx, &new.rest)?;
        self.joined_new(alloc, ctx, rest, new.root(), self.root())
    }

    /// A rest, joined with those cells of a part of another map whose keys are not listed here. Its own cells are a part
    /// around them.
    fn joined_new(
        &self,
        alloc: Global,
        ctx: &B::Ctx,
        rest: CellOf<B>,
        cells: &Branch<CellOf<B>>,
        own: &Branch<CellOf<B>>,
    ) -> Result<CellOf<B>, NoMemory>
        requires map { Fits B.algebra ctx.now B.CAP self.now }
        requires rest { CellFits B.algebra ctx.now self.now.width rest }
        requires cells { Each (λ e. CellFits B.algebra ctx.now self.now.width e.1) cells.now }
        requires own { Alike cells.now own.now self.now.cells }
        ensures value { IfOk result (λ r. r ≡ joined B.algebra ctx.now self.now.width rest (map (λ e. e.1) (filter (λ e. not (has_key (keys self.now) e.0)) cells.now))) }
        ensures fits { IfOk result (λ r. CellFits B.algebra ctx.now self.now.width r) }
    {
        match cells.parts() {
            Parts::Empty => Ok(rest),
            Parts::One(key, cell) => {
                let is_new = !own.get(key).is_some();
                joined_if::<B>(alloc, ctx, self.width, is_new, rest, cell)
            }
            Parts::Two(sides) => {
                let (left, right) = (sides.left, sides.right);
                let rest = self.joined_new(alloc, ctx, rest, left, own.around(left))?;
                self.joined_new(alloc, ctx, rest, right, own.around(right))
            }
        }
    }
}
