//! Calls on notes.

use base_defuse::Stamps;
use base_trait::{Base, CellNote, Log};
use std::alloc::{AllocError as NoMemory, Global};
use test_case_lines::{Read, Unread, both, given, note, number, parts};

/// What a call on notes gives, if the case is one.
pub(crate) fn noted<B: Base>(alloc: Global, case: &str) -> Read<String> {
    let (name, rest) = parts(case);
    let (first, second) = parts(rest);
    match name {
        "Use" => use_of::<B>(alloc, first, second),
        "JoinNotes" | "WidenNotes" | "AbsorbsNote" | "SameNote" => {
            match both(note::<B>(alloc, first)?, note::<B>(alloc, second)) {
                Ok((x, y)) => given(of_two::<B>(alloc, name, &x, &y)),
                Err(error) => Err(error),
            }
        }
        _ => Err(Unread::No),
    }
}

fn of_two<B: Base>(
    alloc: Global,
    name: &str,
    x: &B::Note,
    y: &B::Note,
) -> Result<String, NoMemory> {
    match name {
        "JoinNotes" => uses::<B>(alloc, 0, None, &B::join_note(alloc, x, y)?),
        "WidenNotes" => uses::<B>(alloc, 0, None, &B::widen_note(alloc, x, y)?),
        "AbsorbsNote" => format!(in alloc; "{}", B::absorbs_note(x, y)),
        _ => format!(in alloc; "{}", *x == *y),
    }
}

/// What a read of a map at a key in hex, or at `any`, adds for a note.
fn use_of<B: Base>(alloc: Global, map: &str, rest: &str) -> Read<String> {
    let (key, stamps) = parts(rest);
    let key = number(key);
    let Ok(map) = map.parse::<u32>() else {
        return Err(Unread::No);
    };
    let note = note::<B>(alloc, stamps)?;
    given(uses::<B>(alloc, map, key, &note))
}

/// What a read adds to a log for a copy of a note.
fn uses<B: Base>(
    alloc: Global,
    map: u32,
    key: Option<u64>,
    note: &B::Note,
) -> Result<String, NoMemory> {
    let mut log = Log::new(alloc);
    let copy = B::copy_note(alloc, note)?;
    B::on_read(alloc, &mut log, map, key, &copy)?;
    format!(in alloc; "{:?}", log.uses)
}

/// The stamps of a note of the entry and an address that is taken apart and made again, if the case is one.
pub(crate) fn made_again(alloc: Global, case: &str) -> Read<String> {
    let (name, at) = parts(case);
    match (name, u32::from_str_radix(at, 16)) {
        ("MadeAgain", Ok(at)) => given(stamps_again(alloc, at)),
        _ => Err(Unread::No),
    }
}

fn stamps_again(alloc: Global, at: u32) -> Result<String, NoMemory> {
    let early = Stamps::entry(alloc)?;
    let late = Stamps::stamp(alloc, at)?;
    let note = Stamps::join(alloc, &late, &early)?;
    let again = Stamps::new(note.into_items());
    format!(in alloc; "{:?}", again.items())
}
