//! The numbers that a word stands for.

ghost use Rattle.std.specs.Prelude.{◌≡◌, ◌++◌, ◌+◌, ◌<◌, ◌^◌, map, IfOk, Some, None, nat_le, if◌then◌else◌};
ghost use Rattle.word_operations.specs.Width.{IsWidth};
ghost use Rattle.base_trait.specs.Lists.{Each, items_of};
ghost use Rattle.base_bits.specs.Known.{Fits};
ghost use Rattle.base_bits.specs.Members.{choices, members_of, size_of};

use super::known::Known;
use std::alloc::{AllocError as NoMemory, Global};

/// The numbers, ascending, or none where they are more than `limit`: `v` 4 `m` 3 has 4, 5, 6 and 7.
pub(crate) fn members(
    alloc: Global,
    w: u32,
    x: Known,
    limit: u32,
) -> Result<Option<Vec<u64>>, NoMemory>
    requires width { IsWidth w }
    requires word { Fits w x }
    ensures { IfOk result (λ r. items_of r ≡ (if nat_le (size_of x) limit then Some (members_of w x) else None)) }
{
    if has_room(x, limit) {
        Ok(Some(listed(alloc, w, x)?))
    } else {
        Ok(None)
    }
}

/// Whether the word has at most `limit` numbers.
fn has_room(x: Known, limit: u32) -> bool
    ensures { result ≡ nat_le (size_of x) limit }
{
    let unknown = x.m.count_ones();
    unknown < 32 && 1u64 << unknown <= limit as u64
}

/// The numbers, ascending: bit by bit from the lowest on.
fn listed(alloc: Global, w: u32, x: Known) -> Result<Vec<u64>, NoMemory>
    requires width { IsWidth w }
    requires word { Fits w x }
    ensures { IfOk result (λ v. v.items ≡ members_of w x) }
{
    let mut numbers = vec![in alloc; x.v]?;
    for i in 0..w {
        numbers = with_bit(alloc, w, x, i, numbers)?;
    }
    Ok(numbers)
}

/// The numbers of bits below `i`, with bit `i`: where it is unknown there are twice as many.
fn with_bit(
    alloc: Global,
    w: u32,
    x: Known,
    i: u32,
    numbers: Vec<u64>,
) -> Result<Vec<u64>, NoMemory>
    requires width { IsWidth w }
    requires word { Fits w x }
    requires bit { i < w }
    requires so_far { numbers.items ≡ map (λ n. x.v + n) (choices i x.m) }
    ensures { IfOk result (λ v. v.items ≡ map (λ n. x.v + n) (choices (i + 1) x.m)) }
{
    if (x.m >> i) % 2 == 1 {
        with_each_bit(alloc, &numbers, 1u64 << i)
    } else {
        Ok(numbers)
    }
}

/// The numbers, and then each with a bit that none of them has.
fn with_each_bit(alloc: Global, numbers: &[u64], bit: u64) -> Result<Vec<u64>, NoMemory>
    requires { Each (λ n. n + bit < 2 ^ 64) numbers.now }
    ensures { IfOk result (λ v. v.items ≡ numbers.now ++ map (λ n. n + bit) numbers.now) }
{
    let mut out = Vec::from_slice(alloc, numbers)?;
    for n in numbers {
        out.push(*n + bit)?;
    }
    Ok(out)
}
