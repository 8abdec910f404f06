//! The notes of two bases side by side.

use super::pair::Pair;
use base_trait::{CellNote, Context, Log};
use std::alloc::{AllocError as NoMemory, Global};

/// Notes of two kinds side by side: each call acts on both parts. A stamp is one of the pair where it is one of
/// both parts.
impl<A: CellNote + Drop, B: CellNote + Drop> CellNote for Pair<A, B> {
    ghost use Rattle.base_trait.specs.PairedNotes.{paired_notes};

    ghost notes = { paired_notes A.notes B.notes };

    /// The entry in both parts: of two sets, the entry in both.
    fn entry(alloc: Global) -> Result<Pair<A, B>, NoMemory> {
        Ok(Pair(A::entry(alloc)?, B::entry(alloc)?))
    }

    /// The address in both parts: of two sets, 1000 in both where the instruction at 1000 has written the cell.
    fn stamp(alloc: Global, at: u32) -> Result<Pair<A, B>, NoMemory> {
        Ok(Pair(A::stamp(alloc, at)?, B::stamp(alloc, at)?))
    }

    /// The joins of both parts: where both are sets, the entry in both and 1000 in both join to `entry,1000` in
    /// both.
    fn join(alloc: Global, x: &Pair<A, B>, y: &Pair<A, B>) -> Result<Pair<A, B>, NoMemory> {
        Ok(Pair(A::join(alloc, &x.0, &y.0)?, B::join(alloc, &x.1, &y.1)?))
    }

    /// The widenings of both parts: where both are sets, the entry in both with 1000 in both is `entry,1000` in
    /// both.
    fn widen(alloc: Global, old: &Pair<A, B>, new: &Pair<A, B>) -> Result<Pair<A, B>, NoMemory> {
        Ok(Pair(
            A::widen(alloc, &old.0, &new.0)?,
            B::widen(alloc, &old.1, &new.1)?,
        ))
    }

    /// Whether both parts absorb: where both are sets, `entry,1000` in both absorbs 1000 in both, and not 1000
    /// beside 1004.
    fn absorbs(old: &Pair<A, B>, new: &Pair<A, B>) -> bool {
        A::absorbs(&old.0, &new.0) && B::absorbs(&old.1, &new.1)
    }

    /// Both parts once more: of 1000 in both it is 1000 in both.
    fn copy(alloc: Global, x: &Pair<A, B>) -> Result<Pair<A, B>, NoMemory> {
        Ok(Pair(A::copy(alloc, &x.0)?, B::copy(alloc, &x.1)?))
    }

    /// What the first part adds, then what the second adds: where both are the set of 1000, two uses from 1000.
    fn on_read(
        alloc: Global,
        log: &mut Log,
        map: u32,
        key: Option<u64>,
        note: &Pair<A, B>,
    ) -> Result<(), NoMemory> {
        A::on_read(alloc, log, map, key, &note.0)?;
        B::on_read(alloc, log, map, key, &note.1)
    }
}

/// The contexts of two bases side by side.
impl<A: Context + Drop, B: Context + Drop> Context for Pair<A, B> {
    /// Both contexts once more: of the context `()` and two tracked cells, `()` and the list of these two.
    fn copy(alloc: Global, ctx: &Pair<A, B>) -> Result<Pair<A, B>, NoMemory> {
        Ok(Pair(A::copy(alloc, &ctx.0)?, B::copy(alloc, &ctx.1)?))
    }
}
