//! What is known of a set.

ghost use Rattle.std.specs.Prelude.{◌≡◌, ◌<◌, ◌^◌, IfOk};
ghost use Rattle.std.specs.List.{list_any, list_all};
ghost use Rattle.word_operations.specs.Width.{IsWidth};
ghost use Rattle.base_trait.specs.Lists.{Each};
ghost use Rattle.base_kset.specs.Meaning.{compared, outcome, some_pair, Fits};
ghost use Rattle.base_kset.specs.Sets.{has};

use super::set::Set;
use base_trait::Tri;
use std::alloc::{AllocError as NoMemory, Global};
use word_operations::{WordComparison, cmp};

/// Whether the number is one of these.
pub(crate) fn has(numbers: &[u64], n: u64) -> bool
    ensures { result ≡ has numbers.now n }
{
    for x in numbers {
        if *x == n {
            return true;
        }
    }
    false
}

/// Whether each of the others is one of these.
pub(crate) fn has_all(numbers: &[u64], others: &[u64]) -> bool
    ensures { result ≡ list_all (has numbers.now) others.now }
{
    for x in others {
        if !has(numbers, *x) {
            return false;
        }
    }
    true
}

/// Which truth values the comparison has of some pair of numbers.
pub(crate) fn compare<const K: usize>(c: WordComparison, w: u32, x: &Set<K>, y: &Set<K>) -> Tri
    requires width { IsWidth w }
    requires left { Fits K w x.now }
    requires right { Fits K w y.now }
    ensures { result ≡ compared c w x.now y.now }
{
    match (x.listed(), y.listed()) {
        (Some(xs), Some(ys)) => Tri {
            may_true: some_is(c, w, true, xs, ys),
            may_false: some_is(c, w, false, xs, ys),
        },
        _ => Tri {
            may_true: true,
            may_false: true,
        },
    }
}

fn some_is(c: WordComparison, w: u32, wanted: bool, xs: &[u64], ys: &[u64]) -> bool
    requires width { IsWidth w }
    requires left { Each (λ n. n < 2 ^ w) xs.now }
    requires right { Each (λ n. n < 2 ^ w) ys.now }
    ensures { result ≡ some_pair (outcome c w wanted) xs.now ys.now }
{
    for x in xs {
        if one_is(c, w, wanted, *x, ys) {
            return true;
        }
    }
    false
}

fn one_is(c: WordComparison, w: u32, wanted: bool, x: u64, ys: &[u64]) -> bool
    requires width { IsWidth w }
    requires left { x < 2 ^ w }
    requires right { Each (λ n. n < 2 ^ w) ys.now }
    ensures { result ≡ list_any (outcome c w wanted x) ys.now }
{
    for y in ys {
        if cmp(c, w, x, *y) == wanted {
            return true;
        }
    }
    false
}

/// The numbers of a list once more.
pub(crate) fn copy_of(alloc: Global, numbers: &[u64]) -> Result<Vec<u64>, NoMemory>
    ensures { IfOk result (λ v. v.items ≡ numbers.now) }
{
    let mut out = Vec::new(alloc);
    for x in numbers {
        out.push(*x)?;
    }
    Ok(out)
}
