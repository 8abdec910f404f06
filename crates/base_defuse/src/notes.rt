//! Sets of stamps as notes of cells.

use super::stamps::Stamps;
use super::union::{copied, has_all};
use base_trait::{CellNote, Log, Stamp};
use std::alloc::{AllocError as NoMemory, Global};

impl CellNote for Stamps {
    ghost use Rattle.base_defuse.specs.Notes.{stamp_notes};

    ghost notes = { stamp_notes };

    /// The set of the entry alone, which is best: no other stamp is one of it.
    fn entry(alloc: Global) -> Result<Stamps, NoMemory> {
        Stamps::one(alloc, Stamp::Entry)
    }

    /// The set of the address alone, which is best: 1000 where the instruction at 1000 has written the cell.
    fn stamp(alloc: Global, at: u32) -> Result<Stamps, NoMemory> {
        Stamps::one(alloc, Stamp::At(at))
    }

    /// The union, which is best: `entry` and 1000 join to `entry,1000`.
    fn join(alloc: Global, x: &Stamps, y: &Stamps) -> Result<Stamps, NoMemory> {
        Stamps::union(alloc, x, y)
    }

    /// The union, which is best: `entry,1000` with 1004 is `entry,1000,1004`. Chains end, as there are only so many
    /// addresses.
    fn widen(alloc: Global, old: &Stamps, new: &Stamps) -> Result<Stamps, NoMemory> {
        Stamps::union(alloc, old, new)
    }

    /// Exactly whether each stamp of the new set is one of the old: `entry,1000` absorbs 1000, and not 1004.
    fn absorbs(old: &Stamps, new: &Stamps) -> bool {
        has_all(old.items(), new.items())
    }

    /// The same set once more: of `entry,1000` it is `entry,1000`.
    fn copy(alloc: Global, x: &Stamps) -> Result<Stamps, NoMemory> {
        Stamps::copy(alloc, x)
    }

    /// Adds the use of the note's stamps. A read of map 2 at key 7 with `entry,1000` adds the use of map 2 at 7
    /// from these two.
    fn on_read(
        alloc: Global,
        log: &mut Log,
        map: u32,
        key: Option<u64>,
        note: &Stamps,
    ) -> Result<(), NoMemory> {
        log.record(map, key, copied(alloc, note.items())?)
    }
}
