//! Merging.

use crate::merged_uses;
use base_trait::{Log, Stamp, Use};
use domain_laws::Field;
use std::alloc::{AllocError as NoMemory, Global};

/// Notes a read of a cell that has one stamp.
fn note(
    alloc: Global,
    log: &mut Log,
    map: u32,
    key: Option<u64>,
    stamp: Stamp,
) -> Result<(), NoMemory> {
    log.record(map, key, vec![in alloc; stamp]?)
}

/// A map of 16 registers.
fn registers(map: u32) -> Field {
    Field::Map {
        map,
        keys: 16,
        width: 32,
        default: 0,
    }
}

fn is_use(one: &Use, map: u32, key: Option<u64>, from: &[Stamp]) -> bool {
    one.map == map && one.key == key && one.from.as_slice() == from
}

#[test]
fn reads_of_one_cell_are_one_use(rt: HostRuntime) -> Result<(), NoMemory> {
    let alloc = rt.alloc();
    let mut log = Log::new(alloc);
    note(alloc, &mut log, 0, Some(4), Stamp::Entry)?;
    note(alloc, &mut log, 0, Some(3), Stamp::At(4096))?;
    note(alloc, &mut log, 0, Some(4), Stamp::At(4100))?;
    let uses = merged_uses(alloc, &[registers(0)], &log)?;
    assert_eq!(rt; uses.len(), 2);
    assert!(rt; is_use(&uses[0], 0, Some(3), &[Stamp::At(4096)]));
    assert!(rt; is_use(&uses[1], 0, Some(4), &[Stamp::Entry, Stamp::At(4100)]));
    Ok(())
}

#[test]
fn uses_come_by_fields_and_any_key_first(rt: HostRuntime) -> Result<(), NoMemory> {
    let alloc = rt.alloc();
    let mut log = Log::new(alloc);
    note(alloc, &mut log, 7, Some(0), Stamp::Entry)?;
    note(alloc, &mut log, 0, Some(1), Stamp::Entry)?;
    note(alloc, &mut log, 2, Some(0), Stamp::At(8))?;
    note(alloc, &mut log, 2, None, Stamp::At(4))?;
    let fields = [registers(2), Field::Word { w: 1 }, registers(0)];
    let uses = merged_uses(alloc, &fields, &log)?;
    assert_eq!(rt; uses.len(), 4);
    assert!(rt; is_use(&uses[0], 2, None, &[Stamp::At(4)]));
    assert!(rt; is_use(&uses[1], 2, Some(0), &[Stamp::At(8)]));
    assert!(rt; is_use(&uses[2], 0, Some(1), &[Stamp::Entry]));
    assert!(rt; is_use(&uses[3], 7, Some(0), &[Stamp::Entry]));
    Ok(())
}
