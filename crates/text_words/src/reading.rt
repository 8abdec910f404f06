//! Words, read from their texts.

ghost use Rattle.std.specs.Prelude.{◌≡◌, ◌-◌, ◌^◌, true};
ghost use Rattle.word_operations.specs.Width.{IsWidth};
ghost use Rattle.text_words.specs.Reading as reading;

use crate::numbers::two_in;
use crate::words::is_greatest;
use base_bits::Known;
use base_interval::Range;
use state_cell_text::same;

/// The greatest number of a width in bits.
fn greatest(w: u32) -> u64
    requires { IsWidth w }
    ensures { result ≡ 2 ^ w - 1 }
{
    ((1u128 << w) - 1) as u64
}

/// Whether a text is `any`, and the width one of 1 to 64 bits.
pub(crate) fn is_any(w: u32, text: &[u8]) -> bool
    ensures value { result ≡ reading.is_any w text.now }
    ensures width { result ≡ true → IsWidth w }
{
    1 <= w && w <= 64 && same(text, b"any")
}

/// The interval of these ends, where they are in order and not those of the width.
fn range_of(w: u32, lo: u64, hi: u64) -> Option<Range>
    ensures { result ≡ reading.ends w (lo, hi) }
{
    if lo <= hi && !(lo == 0 && is_greatest(w, hi)) {
        Some(Range { lo, hi })
    } else {
        None
    }
}

/// An interval: its ends, or `any`.
pub(crate) fn range_in(w: u32, text: &[u8]) -> Option<Range>
    ensures { result ≡ reading.range_in w text.now }
{
    if is_any(w, text) {
        return Some(Range {
            lo: 0,
            hi: greatest(w),
        });
    }
    let (lo, hi) = two_in(b"..", w, text)?;
    range_of(w, lo, hi)
}

/// The word of these known and unknown bits, where they are apart and some bit is known.
fn known_of(w: u32, v: u64, m: u64) -> Option<Known>
    ensures { result ≡ reading.known w (v, m) }
{
    if v & m == 0 && !is_greatest(w, m) {
        Some(Known { v, m })
    } else {
        None
    }
}

/// Known bits: those that are 1, and the unknown ones, or `any`.
pub(crate) fn known_in(w: u32, text: &[u8]) -> Option<Known>
    ensures { result ≡ reading.known_in w text.now }
{
    if is_any(w, text) {
        return Some(Known {
            v: 0,
            m: greatest(w),
        });
    }
    let (v, m) = two_in(b"/", w, text)?;
    known_of(w, v, m)
}
