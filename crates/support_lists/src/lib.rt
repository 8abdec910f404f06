//! Lists that grow by what may fail.
//!
//! `pushed` takes the list by value, so that a caller holds none of it while it makes the next item, and lets it go where there
//! is no such item. It stands below all that builds trees of values.
#![tactic(auto)]

ghost use Rattle.std.specs.Prelude.{◌≡◌, ◌++◌, ◌∷◌, [], IfOk, IsOkAnd};

use std::alloc::{AllocError, Allocator};

/// The list with one item more, where that was made; else the list is let go. `[1, 2]` and `Ok(3)` give `[1, 2, 3]`.
///
/// The error is that of the item, or that memory ran out in putting it there. The allocator is a parameter, so that a list is let go by
/// what its caller has for that, and not by one function more for each kind of item.
pub fn pushed<T: Drop, A: Allocator + Drop>(
    mut list: Vec<T, A>,
    item: Result<T, AllocError>,
) -> Result<Vec<T, A>, AllocError>
    ensures { IfOk result (λ r. IsOkAnd item (λ x. r.items ≡ list.items ++ x ∷ [])) }
{
    match item {
        Ok(item) => match list.push(item) {
            Ok(()) => Ok(list),
            Err(_) => Err(AllocError),
        },
        Err(error) => Err(error),
    }
}
