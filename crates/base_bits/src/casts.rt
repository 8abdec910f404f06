//! Casts.

ghost use Rattle.std.specs.Prelude.{◌≡◌};
ghost use Rattle.word_operations.specs.Casts.{sext_of, trunc_of, zext_of};
ghost use Rattle.base_trait.specs.Laws.{IsExtension};
ghost use Rattle.base_bits.specs.Known.{Fits};
ghost use Rattle.base_bits.specs.Moved.{moved};

use super::known::Known;

/// The new bits are known 0. Best.
pub(crate) fn zext(from: u32, to: u32, x: Known) -> Known
    requires widths { IsExtension from to }
    requires word { Fits from x }
    ensures { result ≡ moved (zext_of from to) x }
{
    Known {
        v: word_operations::zext(from, to, x.v),
        m: word_operations::zext(from, to, x.m),
    }
}

/// The new bits are copies of the sign bit, unknown where it is. Best: from 4 to 8 bits, `v` 0 `m` 8 is
/// `v` 0 `m` 248, which has 0 and 248.
pub(crate) fn sext(from: u32, to: u32, x: Known) -> Known
    requires widths { IsExtension from to }
    requires word { Fits from x }
    ensures { result ≡ moved (sext_of from to) x }
{
    Known {
        v: word_operations::sext(from, to, x.v),
        m: word_operations::sext(from, to, x.m),
    }
}

/// The lowest bits. Best: from 16 to 8 bits, `v` 256 `m` 3 is `v` 0 `m` 3.
pub(crate) fn trunc(from: u32, to: u32, x: Known) -> Known
    requires widths { IsExtension to from }
    requires word { Fits from x }
    ensures { result ≡ moved (trunc_of from to) x }
{
    Known {
        v: word_operations::trunc(from, to, x.v),
        m: word_operations::trunc(from, to, x.m),
    }
}
