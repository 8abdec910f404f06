//! Joins and absorption.

ghost use Rattle.std.specs.Prelude.{◌≡◌};
ghost use Rattle.base_bits.specs.Join.{absorbs_known, join_of};

use super::known::{Known, without};

/// A bit is known where both know it alike. Best: the numbers 4 and 6 join to `v` 4 `m` 2.
pub(crate) fn join(x: Known, y: Known) -> Known
    ensures { result ≡ join_of x y }
{
    let m = (x.m | y.m) | (x.v ^ y.v);
    Known {
        v: without(x.v, m),
        m,
    }
}

/// Whether the new word knows each bit that the old one knows, and alike.
pub(crate) fn absorbs(old: Known, new: Known) -> bool
    ensures { result ≡ absorbs_known old new }
{
    without(new.m, old.m) == 0 && without(new.v, old.m) == without(old.v, old.m)
}
