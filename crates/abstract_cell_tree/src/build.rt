//! Trees of ascending entries.

ghost use Rattle.std.specs.Prelude.{◌≡◌, ◌+◌, ◌<◌, ◌≤◌, ◌++◌, IfOk, length, map, take, drop};
ghost use Rattle.base_trait.specs.Lists.{IsAscending};
ghost use Rattle.abstract_cell_tree.specs.Entries.{Between, place_of};

use crate::branch::Branch;
use crate::span::{Span, span_of};
use std::alloc::{AllocError as NoMemory, Global};

impl<V: Drop> Branch<V> {
    /// The map of these entries, whose keys ascend.
    pub(crate) fn of_ascending(alloc: Global, entries: Vec<(u64, V)>) -> Result<Branch<V>, NoMemory>
        requires { IsAscending (map (λ e. e.0) entries.items) }
        ensures { IfOk result (λ r. r ≡ entries.items) }
    {
        let mut entries = entries;
        let count = entries.len();
        if count == 0 {
            Ok(Branch::new())
        } else {
            last_of(alloc, &mut entries, count)
        }
    }
}

/// The map of the last of these entries, so many, which are taken out.
fn last_of<V: Drop>(
    alloc: Global,
    entries: &mut Vec<(u64, V)>,
    count: usize,
) -> Result<Branch<V>, NoMemory>
    requires order { IsAscending (map (λ e. e.0) entries.old.items) }
    requires some { 1 ≤ count }
    requires within { count ≤ length entries.old.items }
    ensures taken { IfOk result (λ r. entries.old.items ≡ entries.new.items ++ r) }
    ensures count { IfOk result (λ r. length r ≡ count) }
{
    if count == 1 {
        let Some((key, value)) = entries.pop() else {
            unreachable!()
        };
        return Branch::leaf(alloc, key, value);
    }
    let first = entries.len() - count;
    let (span, below) = parting(&entries[first..]);
    let right = last_of(alloc, entries, count - below)?;
    let left = last_of(alloc, entries, below)?;
    Branch::fork(alloc, span, left, right)
}

/// Where ascending entries part, and how many stand on the left.
fn parting<V>(entries: &[(u64, V)]) -> (Span, usize)
    requires order { IsAscending (map (λ e. e.0) entries.now) }
    requires two { 2 ≤ length entries.now }
    ensures some_below { 1 ≤ result.1 }
    ensures some_above { result.1 < length entries.now }
    ensures below { Between result.0.low result.0.split (take result.1 entries.now) }
    ensures above { Between result.0.split (result.0.high + 1) (drop result.1 entries.now) }
{
    let span = span_of(entries[0].0, entries[entries.len() - 1].0);
    let below = place_of(entries, span.split);
    (span, below)
}

/// The place of the first key that is no less.
fn place_of<V>(entries: &[(u64, V)], key: u64) -> usize
    requires order { IsAscending (map (λ e. e.0) entries.now) }
    ensures { result ≡ place_of key entries.now }
{
    entries.partition_point(|entry| entry.0 < key)
}
