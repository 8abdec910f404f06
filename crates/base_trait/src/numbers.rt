//! Lists of successive numbers.

ghost use Rattle.std.specs.Prelude.{◌≡◌, ◌+◌, ◌≤◌, ◌^◌, IfOk, Some, None, nat_le, if◌then◌else◌};
ghost use Rattle.std.specs.List.{range_with_len};
ghost use Rattle.word_operations.specs.Width.{IsWidth};
ghost use Rattle.base_trait.specs.Lists.{items_of};

use std::alloc::{AllocError as NoMemory, Global};

/// As many successive numbers, from `low` on: 3 from 7 on are 7, 8 and 9.
pub fn successive_numbers(alloc: Global, low: u64, size: u64) -> Result<Vec<u64>, NoMemory>
    requires { low + size ≤ 2 ^ 64 }
    ensures { IfOk result (λ v. v.items ≡ range_with_len low size) }
{
    let mut out = Vec::new(alloc);
    for i in 0..size {
        out.push(low + i)?;
    }
    Ok(out)
}

/// Every number of `w` bits, ascending, or none where they are more than `limit`.
pub fn all_numbers(alloc: Global, w: u32, limit: u32) -> Result<Option<Vec<u64>>, NoMemory>
    requires { IsWidth w }
    ensures { IfOk result (λ r. items_of r ≡ (if nat_le (2 ^ w) limit then Some (range_with_len 0 (2 ^ w)) else None)) }
{
    if w >= 32 {
        return Ok(None);
    }
    let count = 1u64 << w;
    if count <= limit as u64 {
        Ok(Some(successive_numbers(alloc, 0, count)?))
    } else {
        Ok(None)
    }
}
