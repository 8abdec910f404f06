//! Widths and numbers as text.

ghost use Rattle.std.specs.Prelude.{◌≡◌, ◌<◌, ◌^◌, IfSome, IsTrue};
ghost use Rattle.word_operations.specs.Width.{IsWidth};

/// Whether the number is below 2^w.
pub fn is_word(w: u32, n: u64) -> bool
    requires { IsWidth w }
    ensures { IsTrue result → n < 2 ^ w }
{
    w == 64 || n < 1u64 << w
}

/// A width, in decimal.
pub fn width(text: &str) -> Option<u32>
    ensures { IfSome result (λ w. IsWidth w) }
{
    let w = text.parse::<u32>().ok()?;
    if 1 <= w && w <= 64 { Some(w) } else { None }
}

/// A number, in hex.
pub fn number(text: &str) -> Option<u64> {
    u64::from_str_radix(text, 16).ok()
}
