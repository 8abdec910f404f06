//! Successive whole numbers as words.

ghost use Rattle.std.specs.Prelude.{◌≡◌, ◌%◌, ◌^◌};
ghost use Rattle.base_interval.specs.Wrapped.{wrapped};
ghost use Rattle.word_operations.specs.Width.{IsWidth};

use super::range::Range;
use super::width::count;

/// The least interval of the whole numbers from `low` to `high`, taken modulo 2^w: the remainders of both
/// ends where these pass 2^w equally often, else every word. In 8 bits 250 to 255 stay, 256 to 260 are 0 to
/// 4, and 250 to 260 are any.
pub(crate) fn wrapped(w: u32, low: u128, high: u128) -> Range
    requires { IsWidth w }
    ensures { result ≡ wrapped w low high }
{
    if low >> w == high >> w {
        Range::from_to(remainder(w, low), remainder(w, high))
    } else {
        Range::all(w)
    }
}

/// The number modulo 2^w.
fn remainder(w: u32, n: u128) -> u64
    requires { IsWidth w }
    ensures { result ≡ n % 2 ^ w }
{
    (n & (count(w) - 1)) as u64
}
