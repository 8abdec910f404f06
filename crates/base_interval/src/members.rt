//! What is known of the numbers of an interval.

ghost use Rattle.std.specs.Prelude.{◌≡◌, ◌≤◌, IfOk};
ghost use Rattle.base_trait.specs.Lists.{items_of};
ghost use Rattle.base_interval.specs.Members.{exact_of, members_of};

use super::range::Range;
use base_trait::successive_numbers;
use std::alloc::{AllocError as NoMemory, Global};

/// The number, where it is one alone.
pub(crate) fn exact(x: Range) -> Option<u64>
    ensures { result ≡ exact_of x }
{
    if x.is_one() { Some(x.lo) } else { None }
}

/// All numbers, ascending, where they are no more than `limit`.
pub(crate) fn members(alloc: Global, x: Range, limit: u32) -> Result<Option<Vec<u64>>, NoMemory>
    requires { x.lo ≤ x.hi }
    ensures { IfOk result (λ r. items_of r ≡ members_of x limit) }
{
    let steps = x.hi - x.lo;
    if steps < limit as u64 {
        Ok(Some(successive_numbers(alloc, x.lo, steps + 1)?))
    } else {
        Ok(None)
    }
}
