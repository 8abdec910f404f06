//! The names of bases of cells.

ghost use Rattle.std.specs.Prelude.{◌≡◌, ℕ, ◌==◌, List, [], codes, if◌then◌else◌};

use base_bits::Bits;
use base_defuse::DefUse;
use base_interval::Interval;
use base_kset::KSet;
use base_strides::{Stops, Strides};
use std::alloc::Global;
use text_words::CellBase;

/// A base of cells that has a name.
pub trait NamedBase: CellBase {
    /// The bytes of the name.
    ghost named: { List ℕ };

    /// What its words share.
    ghost shared: { Self.Ctx };

    /// The name.
    fn name() -> &'static str
        ensures { result.now ≡ named };

    /// What its words share.
    fn context(alloc: Global) -> Self::Ctx
        ensures { result ≡ shared };
}

/// `const`, where sets have at most one number, else `kset`.
impl<const K: usize> NamedBase for KSet<K> {
    ghost named = { if K == 1 then codes "const" else codes "kset" };

    ghost shared = { tt };

    fn context(_alloc: Global) {}

    fn name() -> &'static str {
        if K == 1 { "const" } else { "kset" }
    }
}

impl NamedBase for Interval {
    ghost named = { codes "interval" };

    ghost shared = { tt };

    fn context(_alloc: Global) {}

    fn name() -> &'static str {
        "interval"
    }
}

impl NamedBase for Bits {
    ghost named = { codes "bits" };

    ghost shared = { tt };

    fn context(_alloc: Global) {}

    fn name() -> &'static str {
        "bits"
    }
}

/// With no stops: an end that a widening passes goes to 0, or to the greatest number.
impl NamedBase for Strides {
    ghost named = { codes "strides" };

    ghost shared = { [] };

    fn context(alloc: Global) -> Stops {
        Stops::none(alloc)
    }

    fn name() -> &'static str {
        "strides"
    }
}

impl NamedBase for DefUse {
    ghost named = { codes "defuse" };

    ghost shared = { tt };

    fn context(_alloc: Global) {}

    fn name() -> &'static str {
        "defuse"
    }
}
