//! Widening.

ghost use Rattle.std.specs.Prelude.{◌≡◌};
ghost use Rattle.base_interval.specs.Widen.{rank_of, widen_of};
ghost use Rattle.word_operations.specs.Width.{IsWidth};

use super::range::Range;
use super::width::greatest;

/// An old end that the new interval does not pass stays; one that is passed becomes 0 or the greatest word.
/// In 8 bits [3, 5] and then [3, 6] is [3, 255].
pub(crate) fn widen(w: u32, old: Range, new: Range) -> Range
    requires { IsWidth w }
    ensures { result ≡ widen_of w old new }
{
    let low = if old.lo <= new.lo { old.lo } else { 0 };
    let high = if new.hi <= old.hi {
        old.hi
    } else {
        greatest(w)
    };
    Range::from_to(low, high)
}

/// How many ends can still be passed.
pub(crate) fn rank(w: u32, x: Range) -> u64
    requires { IsWidth w }
    ensures { result ≡ rank_of w x }
{
    let low = if x.lo == 0 { 0 } else { 1 };
    let high = if x.hi == greatest(w) { 0 } else { 1 };
    low + high
}
