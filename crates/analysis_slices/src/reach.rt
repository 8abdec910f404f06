//! The search for the addresses of a slice.

ghost use Rattle.std.specs.Prelude.{◌≡◌, map as map_of, IfOk};
ghost use Rattle.base_trait.specs.Uses.{Seen, seen};
ghost use Rattle.fixpoint_theory.specs.Views.{listings};
ghost use Rattle.analysis_query_laws.specs.Slices.{IsSlice, listed_uses};

use crate::answer::Slice;
use crate::slice_search::SliceSearch;
use base_trait::Use;
use fixpoint_theory::Table;
use std::alloc::{AllocError as NoMemory, Global};

/// The uses that a table lists at an address; none where it does not list it.
fn uses_at<E>(table: &Table<E>, at: u32) -> &[Use]
    ensures { map_of seen result.now ≡ listed_uses (listings (λ e. e) table.now) at }
{
    match table.blocks.get(&at) {
        Some(block) => &block.uses,
        None => &[],
    }
}

/// The slice of a table for the reads of a map, at a key or at any, by the instruction at an address: the addresses from which the cells come
/// that it reads, whether at once or by way of other instructions.
pub fn slice<E>(
    alloc: Global,
    table: &Table<E>,
    at: u32,
    map: u32,
    key: Option<u64>,
) -> Result<Slice, NoMemory>
    ensures { IfOk result (λ r. IsSlice (listings (λ e. e) table.now) at map key r.entry r.at.items) }
{
    let mut found = SliceSearch::nothing(alloc);
    found.add_asked(uses_at(table, at), map, key)?;
    while let Some(next) = found.next()? {
        found.add_uses(uses_at(table, next))?;
    }
    Ok(Slice {
        entry: found.entry,
        at: found.addresses(alloc)?,
    })
}
