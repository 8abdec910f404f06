//! The notes of cells.

ghost use Rattle.std.specs.Prelude.{◌≡◌, ◌++◌, IfOk, OnOk};
ghost use Rattle.base_trait.specs.Algebra.{Notes};
ghost use Rattle.base_trait.specs.Lists.{IsGrown};
ghost use Rattle.base_trait.specs.Uses.{uses_of};

use super::uses::{Log, Stamp};
use std::alloc::{AllocError as NoMemory, Global};

/// What a cell of a map tells beside its word: where its value may come from. The note `()` tells nothing.
///
/// A base has the calls of its notes by the type of its notes alone.
pub trait CellNote {
    ghost notes: { Notes Self };

    /// The note of a cell that no instruction has written: as a set of stamps, the entry alone.
    fn entry(alloc: Global) -> Result<Self, NoMemory>
        ensures value { IfOk result (λ r. r ≡ notes.entry) };

    /// The note of a cell that the instruction at `at` has written: at 1000, as a set of stamps, 1000 alone.
    fn stamp(alloc: Global, at: u32) -> Result<Self, NoMemory>
        ensures value { IfOk result (λ r. r ≡ notes.at at) };

    /// A note of the stamps of both. As sets, those of the entry and of 1000 join to `entry,1000`.
    fn join(alloc: Global, x: &Self, y: &Self) -> Result<Self, NoMemory>
        ensures value { IfOk result (λ r. r ≡ notes.join x.now y.now) };

    /// A note of the stamps of both, such that no chain of widenings grows for ever. As sets, `entry` with 1000
    /// gives `entry,1000`, and that with 1000 once more stays.
    fn widen(alloc: Global, old: &Self, new: &Self) -> Result<Self, NoMemory>
        ensures value { IfOk result (λ r. r ≡ notes.widen old.now new.now) };

    /// Whether `old` takes in all stamps of `new`: as sets, `entry,1000` absorbs 1000, and not 1004.
    fn absorbs(old: &Self, new: &Self) -> bool
        ensures value { result ≡ notes.absorbs old.now new.now };

    /// The same note once more: of the set `entry,1000` it is `entry,1000`.
    fn copy(alloc: Global, x: &Self) -> Result<Self, NoMemory>
        ensures value { IfOk result (λ r. r ≡ x.now) };

    /// Adds a read of a map at a key, or at any key, to the log. Where memory runs out a front of it may have been
    /// added. As sets, a read of map 2 at key 7 with `entry,1000` adds the use of map 2 at 7 from these two.
    fn on_read(
        alloc: Global,
        log: &mut Log,
        map: u32,
        key: Option<u64>,
        note: &Self,
    ) -> Result<(), NoMemory>
        ensures value { OnOk result (uses_of log.new ≡ uses_of log.old ++ notes.reads map key note.now) }
        ensures kept { IsGrown (uses_of log.old) (uses_of log.new) };
}

/// Notes that tell nothing. Each is the same as each other and absorbs it, and a read adds no use to the log.
impl CellNote for () {
    ghost use Rattle.base_trait.specs.NoNotes.{no_notes};

    ghost notes = { no_notes };

    fn entry(_alloc: Global) -> Result<(), NoMemory> {
        Ok(())
    }

    fn stamp(_alloc: Global, _at: u32) -> Result<(), NoMemory> {
        Ok(())
    }

    fn join(_alloc: Global, _x: &(), _y: &()) -> Result<(), NoMemory> {
        Ok(())
    }

    fn widen(_alloc: Global, _old: &(), _new: &()) -> Result<(), NoMemory> {
        Ok(())
    }

    fn absorbs(_old: &(), _new: &()) -> bool {
        true
    }

    fn copy(_alloc: Global, _x: &()) -> Result<(), NoMemory> {
        Ok(())
    }

    fn on_read(
        _alloc: Global,
        _log: &mut Log,
        _map: u32,
        _key: Option<u64>,
        _note: &(),
    ) -> Result<(), NoMemory> {
        Ok(())
    }
}

/// The one stamp of a cell: it stands for that stamp and for no other. Words are single numbers beside it, and the
/// sides of a join or a widening are equal.
impl CellNote for Stamp {
    ghost use Rattle.base_trait.specs.OneStamp.{one_stamp};

    ghost notes = { one_stamp };

    /// The entry, as of each cell at the start of a run.
    fn entry(_alloc: Global) -> Result<Stamp, NoMemory> {
        Ok(Stamp::Entry)
    }

    /// The address: 1000 where the instruction at 1000 has written the cell.
    fn stamp(_alloc: Global, at: u32) -> Result<Stamp, NoMemory> {
        Ok(Stamp::At(at))
    }

    /// The first side, which is both where they are equal: 1000 and 1000 give 1000.
    fn join(_alloc: Global, x: &Stamp, _y: &Stamp) -> Result<Stamp, NoMemory> {
        Ok(*x)
    }

    /// The old side, which is both where they are equal: 1000 with 1000 gives 1000.
    fn widen(_alloc: Global, old: &Stamp, _new: &Stamp) -> Result<Stamp, NoMemory> {
        Ok(*old)
    }

    /// Whether both are one stamp: 1000 absorbs 1000, and neither 1004 nor the entry.
    fn absorbs(old: &Stamp, new: &Stamp) -> bool {
        old.is_same(*new)
    }

    /// The same stamp once more: of 1000 it is 1000.
    fn copy(_alloc: Global, x: &Stamp) -> Result<Stamp, NoMemory> {
        Ok(*x)
    }

    /// Adds the use of the one stamp. A read of map 2 at key 7 with 1000 adds the use of map 2 at 7 from 1000.
    fn on_read(
        alloc: Global,
        log: &mut Log,
        map: u32,
        key: Option<u64>,
        note: &Stamp,
    ) -> Result<(), NoMemory> {
        log.record(map, key, vec![in alloc; *note]?)
    }
}

/// Notes of two kinds side by side: each call acts on both parts. A stamp is one of the pair where it is one of
/// both parts.
impl<A: CellNote + Drop, B: CellNote + Drop> CellNote for (A, B) {
    ghost use Rattle.base_trait.specs.PairedNotes.{paired_notes};

    ghost notes = { paired_notes A.notes B.notes };

    /// The entry in both parts: of two sets, the entry in both.
    fn entry(alloc: Global) -> Result<(A, B), NoMemory> {
        Ok((A::entry(alloc)?, B::entry(alloc)?))
    }

    /// The address in both parts: of two sets, 1000 in both where the instruction at 1000 has written the cell.
    fn stamp(alloc: Global, at: u32) -> Result<(A, B), NoMemory> {
        Ok((A::stamp(alloc, at)?, B::stamp(alloc, at)?))
    }

    /// The joins of both parts: where both are sets, the entry in both and 1000 in both join to `entry,1000` in
    /// both.
    fn join(alloc: Global, x: &(A, B), y: &(A, B)) -> Result<(A, B), NoMemory> {
        Ok((A::join(alloc, &x.0, &y.0)?, B::join(alloc, &x.1, &y.1)?))
    }

    /// The widenings of both parts: where both are sets, the entry in both with 1000 in both is `entry,1000` in
    /// both.
    fn widen(alloc: Global, old: &(A, B), new: &(A, B)) -> Result<(A, B), NoMemory> {
        Ok((
            A::widen(alloc, &old.0, &new.0)?,
            B::widen(alloc, &old.1, &new.1)?,
        ))
    }

    /// Whether both parts absorb: where both are sets, `entry,1000` in both absorbs 1000 in both, and not 1000
    /// beside 1004.
    fn absorbs(old: &(A, B), new: &(A, B)) -> bool {
        A::absorbs(&old.0, &new.0) && B::absorbs(&old.1, &new.1)
    }

    /// Both parts once more: of 1000 in both it is 1000 in both.
    fn copy(alloc: Global, x: &(A, B)) -> Result<(A, B), NoMemory> {
        Ok((A::copy(alloc, &x.0)?, B::copy(alloc, &x.1)?))
    }

    /// What the first part adds, then what the second adds: where both are the set of 1000, two uses from 1000.
    fn on_read(
        alloc: Global,
        log: &mut Log,
        map: u32,
        key: Option<u64>,
        note: &(A, B),
    ) -> Result<(), NoMemory> {
        A::on_read(alloc, log, map, key, &note.0)?;
        B::on_read(alloc, log, map, key, &note.1)
    }
}
