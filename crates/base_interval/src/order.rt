//! Comparisons by an order, of the numbers or of the signed readings.

ghost use Rattle.std.specs.Prelude.{◌≡◌, ◌<◌, ◌^◌};
ghost use Rattle.base_interval.specs.Order.{by_order, ends, signed_ends};
ghost use Rattle.base_interval.specs.Range.{Fits};
ghost use Rattle.word_operations.specs.Width.{IsWidth};

use super::range::Range;
use super::signs::crosses;
use super::width::greatest;
use base_trait::Tri;
use word_operations::{WordComparison, cmp};

/// Whether a number may be below the other.
pub(crate) fn lt_u(w: u32, x: Range, y: Range) -> Tri
    requires width { IsWidth w }
    requires left { Fits w x }
    requires right { Fits w y }
    ensures { result ≡ by_order WordComparison.LtU w (ends x) (ends y) }
{
    by_order(WordComparison::LtU, w, (x.lo, x.hi), (y.lo, y.hi))
}

/// Whether a number may be at most the other.
pub(crate) fn le_u(w: u32, x: Range, y: Range) -> Tri
    requires width { IsWidth w }
    requires left { Fits w x }
    requires right { Fits w y }
    ensures { result ≡ by_order WordComparison.LeU w (ends x) (ends y) }
{
    by_order(WordComparison::LeU, w, (x.lo, x.hi), (y.lo, y.hi))
}

/// Whether a signed reading may be below the other.
pub(crate) fn lt_s(w: u32, x: Range, y: Range) -> Tri
    requires width { IsWidth w }
    requires left { Fits w x }
    requires right { Fits w y }
    ensures { result ≡ by_order WordComparison.LtS w (signed_ends w x) (signed_ends w y) }
{
    by_order(WordComparison::LtS, w, signed_ends(w, x), signed_ends(w, y))
}

/// Whether a signed reading may be at most the other.
pub(crate) fn le_s(w: u32, x: Range, y: Range) -> Tri
    requires width { IsWidth w }
    requires left { Fits w x }
    requires right { Fits w y }
    ensures { result ≡ by_order WordComparison.LeS w (signed_ends w x) (signed_ends w y) }
{
    by_order(WordComparison::LeS, w, signed_ends(w, x), signed_ends(w, y))
}

/// The words of the least and of the greatest signed reading.
fn signed_ends(w: u32, x: Range) -> (u64, u64)
    requires width { IsWidth w }
    requires word { Fits w x }
    ensures value { result ≡ signed_ends w x }
    ensures least { result.0 < 2 ^ w }
    ensures greatest { result.1 < 2 ^ w }
{
    if crosses(w, x) {
        let greatest = greatest(w) / 2;
        (greatest + 1, greatest)
    } else {
        (x.lo, x.hi)
    }
}

/// True where it is of the least and the greatest, and false where it is of the greatest and the least.
fn by_order(c: WordComparison, w: u32, x: (u64, u64), y: (u64, u64)) -> Tri
    requires width { IsWidth w }
    requires left { (x.0 < 2 ^ w) × (x.1 < 2 ^ w) }
    requires right { (y.0 < 2 ^ w) × (y.1 < 2 ^ w) }
    ensures { result ≡ by_order c w x y }
{
    let (least, greatest) = x;
    let (other_least, other_greatest) = y;
    Tri {
        may_true: cmp(c, w, least, other_greatest),
        may_false: !cmp(c, w, greatest, other_least),
    }
}
