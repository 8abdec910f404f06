//! The numbers of a width.

ghost use Rattle.std.specs.Prelude.{◌≡◌, ◌-◌, ◌^◌};
ghost use Rattle.word_operations.specs.Width.{IsWidth};

/// 2^w - 1, the greatest word of `w` bits.
pub(crate) fn greatest(w: u32) -> u64
    requires { IsWidth w }
    ensures { result ≡ 2 ^ w - 1 }
{
    ((1u128 << w) - 1) as u64
}
