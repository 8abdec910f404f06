//! Slices of a small table.

use analysis_slices::slice;
use base_trait::{Stamp, Use};
use fixpoint_theory::{Block, Table};
use std::alloc::{AllocError as NoMemory, Global};
use std::collections::BTreeMap;
use std::test::Fail;

/// Lists a use of map 0 at an address, behind those that it lists already as a block of its own.
fn list(table: &mut Table<u8>, alloc: Global, at: u32, uses: Vec<Use>) -> Result<(), NoMemory> {
    table.blocks.insert(
        at,
        Block {
            elem: 0,
            next: Vec::new(alloc),
            exits: Vec::new(alloc),
            uses,
        },
    )?;
    Ok(())
}

/// A use of map 0 at a key, or at any, from one place.
fn from_one(alloc: Global, key: Option<u64>, from: Stamp) -> Result<Use, NoMemory> {
    Ok(Use {
        map: 0,
        key,
        from: vec![in alloc; from]?,
    })
}

/// At 4096 `R[0]` from the entry; at 4100 `R[1]` from 4096; at 4104 `R[1]` from 4096, and `R[2]` from 4100; at 4108 `R[*]` from 4104 and 4108.
fn small_table(alloc: Global) -> Result<Table<u8>, NoMemory> {
    let mut table = Table {
        blocks: BTreeMap::new(alloc),
    };
    let first = vec![in alloc; from_one(alloc, Some(0), Stamp::Entry)?]?;
    list(&mut table, alloc, 4096, first)?;
    let second = vec![in alloc; from_one(alloc, Some(1), Stamp::At(4096))?]?;
    list(&mut table, alloc, 4100, second)?;
    let mut third = vec![in alloc; from_one(alloc, Some(1), Stamp::At(4096))?]?;
    third.push(from_one(alloc, Some(2), Stamp::At(4100))?)?;
    list(&mut table, alloc, 4104, third)?;
    let mut any = from_one(alloc, None, Stamp::At(4104))?;
    any.from.push(Stamp::At(4108))?;
    list(&mut table, alloc, 4108, vec![in alloc; any]?)?;
    Ok(table)
}

#[test]
fn slices_of_one_key(rt: HostRuntime) -> Result<(), Fail> {
    let alloc = rt.alloc();
    let table = small_table(alloc)?;
    let two = slice(alloc, &table, 4104, 0, Some(2))?;
    assert!(rt; two.entry);
    assert_eq!(rt; two.at.as_slice(), [4096, 4100].as_slice());
    let one = slice(alloc, &table, 4104, 0, Some(1))?;
    assert!(rt; one.entry);
    assert_eq!(rt; one.at.as_slice(), [4096].as_slice());
    let zero = slice(alloc, &table, 4096, 0, Some(0))?;
    assert!(rt; zero.entry);
    assert!(rt; zero.at.is_empty());
    Ok(())
}

#[test]
fn slices_of_any_key(rt: HostRuntime) -> Result<(), Fail> {
    let alloc = rt.alloc();
    let table = small_table(alloc)?;
    let all = slice(alloc, &table, 4108, 0, Some(7))?;
    assert!(rt; all.entry);
    assert_eq!(rt; all.at.as_slice(), [4096, 4100, 4104, 4108].as_slice());
    let any = slice(alloc, &table, 4104, 0, None)?;
    assert_eq!(rt; any.at.as_slice(), [4096, 4100].as_slice());
    Ok(())
}

#[test]
fn slices_of_nothing(rt: HostRuntime) -> Result<(), Fail> {
    let alloc = rt.alloc();
    let table = small_table(alloc)?;
    let unlisted = slice(alloc, &table, 8192, 0, None)?;
    assert!(rt; !unlisted.entry && unlisted.at.is_empty());
    let other = slice(alloc, &table, 4104, 1, None)?;
    assert!(rt; !other.entry && other.at.is_empty());
    Ok(())
}
