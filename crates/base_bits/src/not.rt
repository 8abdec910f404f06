//! Not.

ghost use Rattle.std.specs.Prelude.{◌≡◌};
ghost use Rattle.word_operations.specs.Width.{IsWidth};
ghost use Rattle.base_bits.specs.Known.{Fits};
ghost use Rattle.base_bits.specs.Not.{not_of};

use super::known::{Known, without};
use word_operations::{UnaryOperation, op1};

/// Each known bit turned; the unknown ones stay. Best: of 4 bits, Not of 0 or 1 is 15 or 14.
pub(crate) fn not(w: u32, x: Known) -> Known
    requires width { IsWidth w }
    requires word { Fits w x }
    ensures { result ≡ not_of w x }
{
    Known {
        v: without(op1(UnaryOperation::Not, w, x.v), x.m),
        m: x.m,
    }
}
