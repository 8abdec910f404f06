//! The keys of two maps.

ghost use Rattle.std.specs.Prelude.{◌≡◌, ◌++◌, ℕ, IfOk};
ghost use Rattle.std.specs.List.{Contains};
ghost use Rattle.std.specs.List.Sorted.{IsStrictlyIncreasing};
ghost use Rattle.base_trait.specs.Lists.{IsAscending};
ghost use Rattle.abstract_map_laws.specs.Keys.{either_key};
ghost use Rattle.abstract_map_laws.specs.Maps.{keys};

use abstract_map::AbstractMap;
use base_trait::Base;
use std::alloc::{AllocError as NoMemory, Global};
use support_lists::pushed;

/// The keys that either lists, ascending.
pub(crate) fn either_key<A: Base, B: Base>(
    alloc: Global,
    x: &AbstractMap<A>,
    y: &AbstractMap<B>,
) -> Result<Vec<u64>, NoMemory>
    requires right { IsAscending (keys y.now) }
    ensures { IfOk result (λ r. r.items ≡ either_key (keys x.now) (keys y.now)) }
{
    let keys = with_keys(Vec::new(alloc), x)?;
    Ok(ascending(with_keys(keys, y)?))
}

/// These numbers with the keys of a map behind them.
fn with_keys<B: Base>(mut numbers: Vec<u64>, m: &AbstractMap<B>) -> Result<Vec<u64>, NoMemory>
    ensures { IfOk result (λ r. r.items ≡ numbers.items ++ keys m.now) }
{
    for place in 0..m.listed() {
        numbers = pushed(numbers, Ok(m.key_at(place)))?;
    }
    Ok(numbers)
}

/// The numbers in order, each once.
fn ascending(mut numbers: Vec<u64>) -> Vec<u64>
    ensures rises { IsStrictlyIncreasing result.items }
    ensures keeps { (k : ℕ) → Contains numbers.items k → Contains result.items k }
    ensures adds_none { (k : ℕ) → Contains result.items k → Contains numbers.items k }
{
    numbers.sort_unstable();
    numbers.dedup();
    numbers
}
