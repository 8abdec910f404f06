//! Differences and negations.

ghost use Rattle.std.specs.Prelude.{◌≡◌};
ghost use Rattle.word_operations.specs.Width.{IsWidth};
ghost use Rattle.base_bits.specs.Known.{Fits};
ghost use Rattle.base_bits.specs.Sub.{neg_of, sub_of};

use super::known::{Known, without};
use word_operations::{BinaryOperation, op2};

/// A bit is known where both words and the borrow from it are: where the least and the greatest difference
/// agree. The number 7 less `v` 0 `m` 3 is `v` 4 `m` 3; the number 4 less it is `v` 0 `m` 7, which has 1 to 4.
pub(crate) fn sub(w: u32, x: Known, y: Known) -> Known
    requires width { IsWidth w }
    requires left { Fits w x }
    requires right { Fits w y }
    ensures { result ≡ sub_of w x y }
{
    let difference = op2(BinaryOperation::Sub, w, x.v, y.v);
    let greatest = op2(BinaryOperation::Add, w, difference, x.m);
    let least = op2(BinaryOperation::Sub, w, difference, y.m);
    let m = (greatest ^ least) | (x.m | y.m);
    Known {
        v: without(difference, m),
        m,
    }
}

/// 0 less the word. Of 4 bits, the negation of `v` 4 `m` 8 is the same word: 12 or 4.
pub(crate) fn neg(w: u32, x: Known) -> Known
    requires width { IsWidth w }
    requires word { Fits w x }
    ensures { result ≡ neg_of w x }
{
    sub(w, Known::exact(0), x)
}
