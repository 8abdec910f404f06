//! Comparisons.

ghost use Rattle.std.specs.Prelude.{◌≡◌};
ghost use Rattle.word_operations.specs.Width.{IsWidth};
ghost use Rattle.word_operations.specs.declared.kinds.WordComparison.TheVariants.{Eq, Ne, LtU, LeU, LtS, LeS};
ghost use Rattle.base_bits.specs.Compare.{AreWords, compared, equal_of, ordered_of, signed_ends, turned, unsigned_ends};
ghost use Rattle.base_bits.specs.Known.{Fits};

use super::known::{Known, without};
use base_trait::{Tri, dispatch};
use word_operations::{WordComparison, cmp};

/// The lowest and the highest number of a word in an order.
#[derive(Clone, Copy, Drop)]
pub(crate) struct Ends {
    low: u64,
    high: u64,
}

/// Which truth values a comparison may have.
pub(crate) fn compare(c: WordComparison, w: u32, x: Known, y: Known) -> Tri
    requires width { IsWidth w }
    requires left { Fits w x }
    requires right { Fits w y }
    ensures { result ≡ compared c w x y }
{
    dispatch!(c (w, x, y) {
        WordComparison::Eq => eq,
        WordComparison::Ne => ne,
        WordComparison::LtU => lt_u,
        WordComparison::LeU => le_u,
        WordComparison::LtS => lt_s,
        WordComparison::LeS => le_s,
    })
}

/// True where they agree on the bits that both know; false unless both are one and the same number.
fn eq(_w: u32, x: Known, y: Known) -> Tri
    ensures { result ≡ equal_of x y }
{
    Tri {
        may_true: without(x.v ^ y.v, x.m | y.m) == 0,
        may_false: !(x.is_exact() && y.is_exact() && x.v == y.v),
    }
}

/// The other way round.
fn ne(w: u32, x: Known, y: Known) -> Tri
    ensures { result ≡ turned (equal_of x y) }
{
    let equal = eq(w, x, y);
    Tri {
        may_true: equal.may_false,
        may_false: equal.may_true,
    }
}

/// Whether the numbers of the one are below those of the other: 4 to 7 and 6 may be both.
fn lt_u(w: u32, x: Known, y: Known) -> Tri
    requires width { IsWidth w }
    requires left { Fits w x }
    requires right { Fits w y }
    ensures { result ≡ ordered_of LtU w (unsigned_ends x) (unsigned_ends y) }
{
    order_truth(
        WordComparison::LtU,
        w,
        unsigned_ends(w, x),
        unsigned_ends(w, y),
    )
}

/// Whether they are at most those of the other.
fn le_u(w: u32, x: Known, y: Known) -> Tri
    requires width { IsWidth w }
    requires left { Fits w x }
    requires right { Fits w y }
    ensures { result ≡ ordered_of LeU w (unsigned_ends x) (unsigned_ends y) }
{
    order_truth(
        WordComparison::LeU,
        w,
        unsigned_ends(w, x),
        unsigned_ends(w, y),
    )
}

/// The same of the signed readings; an unknown sign bit may be either.
fn lt_s(w: u32, x: Known, y: Known) -> Tri
    requires width { IsWidth w }
    requires left { Fits w x }
    requires right { Fits w y }
    ensures { result ≡ ordered_of LtS w (signed_ends w x) (signed_ends w y) }
{
    order_truth(WordComparison::LtS, w, signed_ends(w, x), signed_ends(w, y))
}

/// The same of the signed readings.
fn le_s(w: u32, x: Known, y: Known) -> Tri
    requires width { IsWidth w }
    requires left { Fits w x }
    requires right { Fits w y }
    ensures { result ≡ ordered_of LeS w (signed_ends w x) (signed_ends w y) }
{
    order_truth(WordComparison::LeS, w, signed_ends(w, x), signed_ends(w, y))
}

/// The least and the greatest number.
fn unsigned_ends(w: u32, x: Known) -> Ends
    requires { Fits w x }
    ensures value { result ≡ unsigned_ends x }
    ensures words { AreWords w result }
{
    Ends {
        low: x.v,
        high: x.greatest(),
    }
}

/// The least and the greatest signed reading, as words: the sign bit is set in the least if it may be, and in
/// the greatest only if it must be.
fn signed_ends(w: u32, x: Known) -> Ends
    requires width { IsWidth w }
    requires word { Fits w x }
    ensures value { result ≡ signed_ends w x }
    ensures words { AreWords w result }
{
    let sign = 1u64 << (w - 1);
    Ends {
        low: x.v | (x.m & sign),
        high: x.v | without(x.m, sign),
    }
}

/// True of the lowest and the highest, or false of the highest and the lowest.
fn order_truth(c: WordComparison, w: u32, x: Ends, y: Ends) -> Tri
    requires width { IsWidth w }
    requires left { AreWords w x }
    requires right { AreWords w y }
    ensures { result ≡ ordered_of c w x y }
{
    Tri {
        may_true: cmp(c, w, x.low, y.high),
        may_false: !cmp(c, w, x.high, y.low),
    }
}
