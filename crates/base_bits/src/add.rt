//! Sums.

ghost use Rattle.std.specs.Prelude.{◌≡◌};
ghost use Rattle.word_operations.specs.Width.{IsWidth};
ghost use Rattle.base_bits.specs.Add.{add_of};
ghost use Rattle.base_bits.specs.Known.{Fits};

use super::known::{Known, without};
use word_operations::{BinaryOperation, op2};

/// A bit is known where both words and the carry into it are: where the least and the greatest sum agree.
/// `v` 0 `m` 3 with the number 4 is `v` 4 `m` 3; with the number 1 it is `v` 0 `m` 7, which has 1 to 4.
pub(crate) fn add(w: u32, x: Known, y: Known) -> Known
    requires width { IsWidth w }
    requires left { Fits w x }
    requires right { Fits w y }
    ensures { result ≡ add_of w x y }
{
    let least = op2(BinaryOperation::Add, w, x.v, y.v);
    let greatest = op2(
        BinaryOperation::Add,
        w,
        op2(BinaryOperation::Add, w, least, x.m),
        y.m,
    );
    let m = (greatest ^ least) | (x.m | y.m);
    Known {
        v: without(least, m),
        m,
    }
}
