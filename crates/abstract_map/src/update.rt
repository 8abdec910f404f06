//! Writing at a key.

ghost use Rattle.std.specs.Prelude.{◌≡◌, IfOk, if◌then◌else◌, map, option_map};
ghost use Rattle.word_operations.specs.Width.{IsWidth};
ghost use Rattle.base_trait.specs.Lists.{Each, IsAscending};
ghost use Rattle.abstract_cell_tree.specs.Entries.{listed_at, put};
ghost use Rattle.abstract_map_laws.specs.Calls.{update_of, written};
ghost use Rattle.abstract_map_laws.specs.Cells.{CellFits, join_cells};
ghost use Rattle.abstract_map_laws.specs.Keys.{IsKeyed, has_key, one, some};
ghost use Rattle.abstract_map_laws.specs.Maps.{Fits};
ghost use Rattle.abstract_map.specs.Placed.{placed};
ghost use Rattle.abstract_map.specs.Unfolded.{FitsUnfolded};
ghost use Rattle.abstract_map.specs.View.{keys_of};

use super::abstract_maps::AbstractMap;
use super::cells::{CellOf, cell_of, copy_cell, join_cell, joined_if};
use super::keys::KeySet;
use abstract_cell_tree::Tree;
use base_trait::Base;
use std::alloc::{AllocError as NoMemory, Global};

impl<B: Base> AbstractMap<B> {
    /// The map after a write: it describes each concrete map with a described cell written at a key that may be meant.
    /// Of a base that does not join, that is owed at one key alone. Keys are below 2^32, and those of a set are listed.
    ///
    /// At one key, that key is listed with the word and the note. Else they are joined into each listed cell that may be
    /// meant, and into the rest unless the key can be no other, so what was there before stays described.
    pub fn update(
        &self,
        alloc: Global,
        ctx: &B::Ctx,
        key: &KeySet,
        v: &B::Word,
        note: &B::Note,
    ) -> Result<AbstractMap<B>, NoMemory>
        requires map { Fits B.algebra ctx.now B.CAP self.now }
        requires key { IsKeyed (keys_of key.now) }
        requires word { B.algebra.words.fits ctx.now self.now.width v.now }
        ensures value { IfOk result (λ r. r ≡ update_of B.algebra ctx.now B.CAP self.now (keys_of key.now) (record { word = v.now; note = note.now })) }
        ensures fits { IfOk result (λ r. Fits B.algebra ctx.now B.CAP r) }
    {
        match key {
            KeySet::One(key) => self.written(alloc, ctx, *key, v, note)?.folded(alloc, ctx),
            KeySet::Some { listed, all_listed } => {
                let cell = cell_of::<B>(alloc, ctx, v, note)?;
                self.joined_at(alloc, ctx, listed, *all_listed, &cell)
            }
        }
    }

    /// The map with a word and a note written at a key, however many are listed then.
    fn written(
        &self,
        alloc: Global,
        ctx: &B::Ctx,
        key: u64,
        v: &B::Word,
        note: &B::Note,
    ) -> Result<AbstractMap<B>, NoMemory>
        requires map { Fits B.algebra ctx.now B.CAP self.now }
        requires key { IsKeyed (one key) }
        requires word { B.algebra.words.fits ctx.now self.now.width v.now }
        ensures value { IfOk result (λ r. r ≡ written self.now key (record { word = v.now; note = note.now })) }
        ensures fits { IfOk result (λ r. FitsUnfolded B.algebra ctx.now r) }
    {
        let width = self.width;
        let rest = copy_cell::<B>(alloc, ctx, &self.rest)?;
        match self.put(alloc, ctx, key, v, note) {
            Ok(cells) => Ok(AbstractMap { width, rest, cells }),
            Err(error) => {
                drop(rest);
                Err(error)
            }
        }
    }

    /// The cells with a word and a note put at their key's place.
    fn put(
        &self,
        alloc: Global,
        ctx: &B::Ctx,
        key: u64,
        v: &B::Word,
        note: &B::Note,
    ) -> Result<Tree<CellOf<B>>, NoMemory>
        ensures value { IfOk result (λ r. r ≡ put key (record { word = v.now; note = note.now }) self.now.cells) }
    {
        let cell = cell_of::<B>(alloc, ctx, v, note)?;
        self.cells().put(alloc, key, cell)
    }

    /// The map with a cell joined into each of these listed ones, and into the rest unless they are all.
    fn joined_at(
        &self,
        alloc: Global,
        ctx: &B::Ctx,
        listed: &[u64],
        all_listed: bool,
        cell: &CellOf<B>,
    ) -> Result<AbstractMap<B>, NoMemory>
        requires map { Fits B.algebra ctx.now B.CAP self.now }
        requires cell { CellFits B.algebra ctx.now self.now.width cell.now }
        ensures value { IfOk result (λ r. r ≡ update_of B.algebra ctx.now B.CAP self.now (some listed.now all_listed) cell.now) }
        ensures fits { IfOk result (λ r. Fits B.algebra ctx.now B.CAP r) }
    {
        let rest = copy_cell::<B>(alloc, ctx, &self.rest)?;
        let rest = joined_if::<B>(alloc, ctx, self.width, !all_listed, rest, cell)?;
        match joined_named::<B>(alloc, ctx, self.width, self.cells(), listed, cell) {
            Ok(cells) => Ok(AbstractMap {
                width: self.width,
                rest,
                cells,
            }),
            Err(error) => {
                drop(rest);
                Err(error)
            }
        }
    }
}

/// The cells, with one joined into each whose key is named. The others are shared.
fn joined_named<B: Base>(
    alloc: Global,
    ctx: &B::Ctx,
    w: u32,
    cells: &Tree<CellOf<B>>,
    named: &[u64],
    cell: &CellOf<B>,
) -> Result<Tree<CellOf<B>>, NoMemory>
    requires width { IsWidth w }
    requires old { Each (λ e. CellFits B.algebra ctx.now w e.1) cells.now }
    requires new { CellFits B.algebra ctx.now w cell.now }
    requires order { IsAscending (map (λ e. e.0) cells.now) }
    ensures value { IfOk result (λ r. r ≡ map (λ e. (e.0, if has_key named.now e.0 then join_cells B.algebra ctx.now w e.1 cell.now else e.1)) cells.now) }
{
    let mut out = cells.copy()?;
    for key in named {
        out = joined_there::<B>(alloc, ctx, w, out, cells, *key, cell)?;
    }
    Ok(out)
}

/// A cell joined into that of a key, where it is listed, put into others.
fn joined_there<B: Base>(
    alloc: Global,
    ctx: &B::Ctx,
    w: u32,
    out: Tree<CellOf<B>>,
    cells: &Tree<CellOf<B>>,
    key: u64,
    cell: &CellOf<B>,
) -> Result<Tree<CellOf<B>>, NoMemory>
    requires width { IsWidth w }
    requires old { Each (λ e. CellFits B.algebra ctx.now w e.1) cells.now }
    requires new { CellFits B.algebra ctx.now w cell.now }
    ensures value { IfOk result (λ r. r ≡ placed key (option_map (λ y. join_cells B.algebra ctx.now w y cell.now) (listed_at key cells.now)) out) }
{
    let Some(old) = cells.get(key) else {
        return Ok(out);
    };
    let new = join_cell::<B>(alloc, ctx, w, old, cell)?;
    out.put(alloc, key, new)
}
