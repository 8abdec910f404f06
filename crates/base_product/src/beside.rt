//! Two values side by side.

ghost use Rattle.std.specs.Prelude.{◌≡◌, IfOk, IsOkAnd};

use super::pair::Pair;
use std::alloc::AllocError as NoMemory;

/// Both values, where memory lasted for both.
///
/// They come as results, so that a caller holds none of them while it makes the other.
pub(crate) fn pair_results<V: Drop, W: Drop>(
    first: Result<V, NoMemory>,
    second: Result<W, NoMemory>,
) -> Result<Pair<V, W>, NoMemory>
    ensures { IfOk result (λ pair. IsOkAnd first (λ x. IsOkAnd second (λ y. pair ≡ (x, y)))) }
{
    match first {
        Ok(first) => match second {
            Ok(second) => Ok(Pair(first, second)),
            Err(error) => {
                drop(first);
                Err(error)
            }
        },
        Err(error) => {
            drop(second);
            Err(error)
        }
    }
}
