//! Reading at a key.

ghost use Rattle.std.specs.Prelude.{◌≡◌, IfOk, map};
ghost use Rattle.abstract_map_laws.specs.Calls.{access_of};
ghost use Rattle.abstract_map_laws.specs.Cells.{CellFits, joined};
ghost use Rattle.abstract_map_laws.specs.Keys.{some};
ghost use Rattle.abstract_map_laws.specs.Maps.{Fits, cell};
ghost use Rattle.abstract_map.specs.View.{keys_of};

use super::abstract_maps::AbstractMap;
use super::cells::{CellOf, copy_cell, joined_if, joined_into};
use super::keys::KeySet;
use base_trait::Base;
use std::alloc::{AllocError as NoMemory, Global};

impl<B: Base> AbstractMap<B> {
    /// The word and the note that a read gives: they describe the concrete cell at each key that may be meant.
    ///
    /// At one key they are those of its cell, or of the rest. Else they are the join of the listed cells that may be meant,
    /// ascending, and then of the rest unless the key can be no other.
    pub fn access(
        &self,
        alloc: Global,
        ctx: &B::Ctx,
        key: &KeySet,
    ) -> Result<(B::Word, B::Note), NoMemory>
        requires map { Fits B.algebra ctx.now B.CAP self.now }
        ensures value { IfOk result (λ r. record { word = r.0; note = r.1 } ≡ access_of B.algebra ctx.now self.now (keys_of key.now)) }
        ensures fits { IfOk result (λ r. B.algebra.words.fits ctx.now self.now.width r.0) }
    {
        let cell = self.accessed(alloc, ctx, key)?;
        Ok((cell.word, cell.note))
    }

    /// The cell that a read at the key gives.
    fn accessed(&self, alloc: Global, ctx: &B::Ctx, key: &KeySet) -> Result<CellOf<B>, NoMemory>
        requires map { Fits B.algebra ctx.now B.CAP self.now }
        ensures value { IfOk result (λ r. r ≡ access_of B.algebra ctx.now self.now (keys_of key.now)) }
        ensures fits { IfOk result (λ r. CellFits B.algebra ctx.now self.now.width r) }
    {
        match key {
            KeySet::One(key) => copy_cell::<B>(alloc, ctx, self.cell(*key)),
            KeySet::Some { listed, all_listed } => {
                self.all_joined(alloc, ctx, listed, *all_listed)
            }
        }
    }

    /// The join of these cells, and of the rest unless they are all.
    fn all_joined(
        &self,
        alloc: Global,
        ctx: &B::Ctx,
        listed: &[u64],
        all_listed: bool,
    ) -> Result<CellOf<B>, NoMemory>
        requires map { Fits B.algebra ctx.now B.CAP self.now }
        ensures value { IfOk result (λ r. r ≡ access_of B.algebra ctx.now self.now (some listed.now all_listed)) }
        ensures fits { IfOk result (λ r. CellFits B.algebra ctx.now self.now.width r) }
    {
        match listed {
            [] => copy_cell::<B>(alloc, ctx, &self.rest),
            [first, others @ ..] => {
                let cell = self.joined_from(alloc, ctx, *first, others)?;
                joined_if::<B>(alloc, ctx, self.width, !all_listed, cell, &self.rest)
            }
        }
    }

    /// The cell at the first key, joined with those at the others.
    fn joined_from(
        &self,
        alloc: Global,
        ctx: &B::Ctx,
        first: u64,
        others: &[u64],
    ) -> Result<CellOf<B>, NoMemory>
        requires map { Fits B.algebra ctx.now B.CAP self.now }
        ensures value { IfOk result (λ r. r ≡ joined B.algebra ctx.now self.now.width (cell self.now first) (map (cell self.now) others.now)) }
        ensures fits { IfOk result (λ r. CellFits B.algebra ctx.now self.now.width r) }
    {
        let mut all = copy_cell::<B>(alloc, ctx, self.cell(first))?;
        for key in others {
            all = joined_into::<B>(alloc, ctx, self.width, all, self.cell(*key))?;
        }
        Ok(all)
    }
}
