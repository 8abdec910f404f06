//! Counts of leaves.

ghost use Rattle.std.specs.Prelude.{◌≡◌, ◌+◌, ◌<◌, ◌↔◌, ◌&&◌, IfOk, IsTrue, None, Some, false, is_some, length, map, not, slice_index_or, slice_set, true};
ghost use Rattle.spec_ir.specs.Environment.{or_else};
ghost use Rattle.spec_declarations.specs.Counts.{AreCounts, AreSettled, AreSound, capped_sum, count_in, is_past, total, uncounted};

use std::alloc::{AllocError, Global};

/// How many leaves a datatype may have.
const MOST_LEAVES: u32 = 8192;

/// One more: where a count of leaves stops.
const PAST_LEAVES: u32 = 8193;

/// The leaves of each datatype, up to one past the limit; none where it contains itself or an
/// unknown type, directly or through others. `graph` has the datatypes that each holds, `own` its
/// other leaves.
///
/// A datatype is counted as soon as all that it holds are. Rounds over all datatypes go on until
/// one adds nothing: what is left then waits for itself, or for an unknown type.
pub fn leaf_counts(
    alloc: Global,
    graph: &[Vec<u32>],
    own: &[Option<u32>],
) -> Result<Vec<Option<u32>>, AllocError>
    requires { length own.now ≡ length graph.now }
    ensures { IfOk result (λ r. AreCounts (map (λ row. row.items) graph.now) own.now r.items) }
{
    let mut counts = vec![in alloc; None; graph.len()]?;
    let mut is_done = false;
    while !is_done {
        is_done = !round(graph, own, &mut counts);
    }
    Ok(counts)
}

/// Looks once at each datatype that has no count. Whether one was added.
fn round(graph: &[Vec<u32>], own: &[Option<u32>], counts: &mut Vec<Option<u32>>) -> bool
    requires own_width { length own.now ≡ length graph.now }
    requires width { length counts.old.items ≡ length graph.now }
    ensures width { length counts.new.items ≡ length graph.now }
    ensures sound { AreSound (map (λ row. row.items) graph.now) own.now counts.old.items
        → AreSound (map (λ row. row.items) graph.now) own.now counts.new.items }
    ensures more { result ≡ true → uncounted counts.new.items < uncounted counts.old.items }
    ensures same { result ≡ false → counts.new.items ≡ counts.old.items }
    ensures settled { result ≡ false → AreSettled (map (λ row. row.items) graph.now) own.now counts.new.items (length graph.now) }
{
    let mut is_more = false;
    for d in 0..graph.len() {
        if look(graph, own, counts, d) {
            is_more = true;
        }
    }
    is_more
}

/// Counts a datatype where it has no count and can be counted. Whether a count was added.
fn look(graph: &[Vec<u32>], own: &[Option<u32>], counts: &mut Vec<Option<u32>>, d: usize) -> bool
    requires own_in { d < length own.now }
    requires graph_in { d < length graph.now }
    requires counts_in { d < length counts.old.items }
    ensures counts { counts.new.items ≡ slice_set counts.old.items d (or_else (slice_index_or counts.old.items d None)
        (count_in (map (λ row. row.items) graph.now) own.now counts.old.items d)) }
    ensures added { result ≡ (not (is_some (slice_index_or counts.old.items d None)) && is_some
        (count_in (map (λ row. row.items) graph.now) own.now counts.old.items d)) }
{
    if counts[d].is_some() {
        return false;
    }
    let count = sum(own[d], &graph[d], counts.as_slice());
    counts[d] = count;
    count.is_some()
}

/// A count with those of datatypes, where all have one.
fn sum(own: Option<u32>, held: &[u32], counts: &[Option<u32>]) -> Option<u32>
    ensures { result ≡ total (capped_sum (Some 0) own) counts.now held.now }
{
    let mut n = capped_sum(Some(0), own);
    for d in held {
        n = capped_sum(n, counts.get(*d as usize).copied().unwrap_or(None));
    }
    n
}

/// The sum of two counts, up to one past the limit.
fn capped_sum(a: Option<u32>, b: Option<u32>) -> Option<u32>
    ensures { result ≡ capped_sum a b }
{
    match (a, b) {
        (Some(a), Some(b)) => Some(a.saturating_add(b).min(PAST_LEAVES)),
        _ => None,
    }
}

/// Whether each count is past the limit of leaves.
pub fn past_limit(alloc: Global, counts: &[Option<u32>]) -> Result<Vec<bool>, AllocError>
    ensures { IfOk result (λ r. r.items ≡ map is_past counts.now) }
{
    let mut large = Vec::new(alloc);
    for count in counts {
        large.push(is_past(*count))?;
    }
    Ok(large)
}

/// Whether a count is past the limit of leaves.
fn is_past(count: Option<u32>) -> bool
    ensures { result ≡ is_past count }
{
    match count {
        Some(n) => MOST_LEAVES < n,
        None => false,
    }
}
