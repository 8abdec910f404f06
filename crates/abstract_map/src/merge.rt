//! Cells of one map merged with those of another, where they stand.

ghost use Rattle.std.specs.Prelude.{◌≡◌, ◌∷◌, [], IfOk, map, unwrap_or};
ghost use Rattle.word_operations.specs.Width.{IsWidth};
ghost use Rattle.base_trait.specs.Lists.{Each};
ghost use Rattle.abstract_cell_tree.specs.Entries.{Alike};
ghost use Rattle.abstract_map_laws.specs.Cells.{CellFits};
ghost use Rattle.abstract_map_laws.specs.Maps.{Fits, cell};
ghost use Rattle.abstract_map.specs.Merged.{merge_cells};

use super::abstract_maps::AbstractMap;
use super::cells::{CellOf, join_cell, widen_cell};
use abstract_cell_tree::{Branch, Parts, Tree};
use base_trait::Base;
use std::alloc::{AllocError as NoMemory, Global};

/// How two cells are made one.
#[derive(Clone, Copy, Debug)]
pub(crate) enum Merge {
    Join,
    Widen,
}

impl<B: Base> AbstractMap<B> {
    /// The cells, each merged with what the other map has at its key. Parts in which none changes are shared.
    pub(crate) fn merged_with(
        &self,
        alloc: Global,
        ctx: &B::Ctx,
        how: Merge,
        other: &AbstractMap<B>,
    ) -> Result<Tree<CellOf<B>>, NoMemory>
        requires left { Fits B.algebra ctx.now B.CAP self.now }
        requires right { Fits B.algebra ctx.now B.CAP other.now }
        requires width { self.now.width ≡ other.now.width }
        ensures value { IfOk result (λ r. r ≡ map (λ e. (e.0, merge_cells B.algebra ctx.now self.now.width how e.1 (cell other.now e.0))) self.now.cells) }
    {
        match other.merged_into(alloc, ctx, how, self.root(), other.root())? {
            Some(cells) => Ok(cells),
            None => self.cells.copy(),
        }
    }

    /// The cells of a part of another map, each merged with what this one has at its key; none, where all stay as they
    /// are. Its own cells are a part around them.
    fn merged_into(
        &self,
        alloc: Global,
        ctx: &B::Ctx,
        how: Merge,
        cells: &Branch<CellOf<B>>,
        own: &Branch<CellOf<B>>,
    ) -> Result<Option<Tree<CellOf<B>>>, NoMemory>
        requires map { Fits B.algebra ctx.now B.CAP self.now }
        requires cells { Each (λ e. CellFits B.algebra ctx.now self.now.width e.1) cells.now }
        requires own { Alike cells.now own.now self.now.cells }
        ensures value { IfOk result (λ r. unwrap_or r cells.now ≡ map (λ e. (e.0, merge_cells B.algebra ctx.now self.now.width how e.1 (cell self.now e.0))) cells.now) }
    {
        match cells.parts() {
            Parts::Empty => Ok(None),
            Parts::One(key, old) => {
                let here = self.cell_near(own, key);
                let cell = merged_cell::<B>(alloc, ctx, self.width, how, old, here)?;
                changed::<B>(alloc, key, old, cell)
            }
            Parts::Two(sides) => {
                let (left, right) = (sides.left, sides.right);
                let left = self.merged_into(alloc, ctx, how, left, own.around(left))?;
                let right = self.merged_into(alloc, ctx, how, right, own.around(right))?;
                Tree::of_sides(alloc, &sides, left, right)
            }
        }
    }
}

/// The old cell and the new one made one.
fn merged_cell<B: Base>(
    alloc: Global,
    ctx: &B::Ctx,
    w: u32,
    how: Merge,
    old: &CellOf<B>,
    new: &CellOf<B>,
) -> Result<CellOf<B>, NoMemory>
    requires width { IsWidth w }
    requires old { CellFits B.algebra ctx.now w old.now }
    requires new { CellFits B.algebra ctx.now w new.now }
    ensures value { IfOk result (λ r. r ≡ merge_cells B.algebra ctx.now w how old.now new.now) }
{
    match how {
        Merge::Join => join_cell::<B>(alloc, ctx, w, old, new),
        Merge::Widen => widen_cell::<B>(alloc, ctx, w, old, new),
    }
}

/// The map of one cell at a key, unless it is the old one.
fn changed<B: Base>(
    alloc: Global,
    key: u64,
    old: &CellOf<B>,
    cell: CellOf<B>,
) -> Result<Option<Tree<CellOf<B>>>, NoMemory>
    ensures { IfOk result (λ r. unwrap_or r ((key, old.now) ∷ []) ≡ (key, cell) ∷ []) }
{
    if cell == *old {
        Ok(None)
    } else {
        Ok(Some(Tree::one(alloc, key, cell)?))
    }
}
