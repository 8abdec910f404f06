//! The numbers of a width.

ghost use Rattle.std.specs.Prelude.{◌≡◌, ◌+◌, ◌%◌, ◌^◌};
ghost use Rattle.word_operations.specs.Width.{IsWidth};

/// The greatest number of w bits.
pub fn greatest(w: u32) -> u64
    requires { IsWidth w }
    ensures { result + 1 ≡ 2 ^ w }
{
    u64::MAX >> (64 - w)
}

/// The lowest w bits.
pub(crate) fn lowest(w: u32, x: u64) -> u64
    requires { IsWidth w }
    ensures { result ≡ x % 2 ^ w }
{
    x & greatest(w)
}
