//! The signed reading of a word, and the word of an integer.

ghost use Rattle.std.specs.Prelude.{◌≡◌, ◌<◌, ◌≤◌, ◌^◌, unsigned_abs};
ghost use Rattle.word_operations.specs.Signed.{signed, unsigned};
ghost use Rattle.word_operations.specs.Width.{IsWidth};

use super::width::greatest;

/// The signed reading, as an integer that no product of two of them overflows.
pub(crate) fn signed_value(w: u32, x: u64) -> i128
    requires width { IsWidth w }
    requires word { x < 2 ^ w }
    ensures value { result ≡ signed w x }
    ensures small { unsigned_abs result ≤ 2 ^ 63 }
{
    let greatest = greatest(w);
    if x <= greatest / 2 {
        x as i128
    } else {
        x as i128 - greatest as i128 - 1
    }
}

/// The integer modulo 2^w.
pub(crate) fn word_of(w: u32, z: i128) -> u64
    requires { IsWidth w }
    ensures value { result ≡ unsigned w z }
    ensures fits { result < 2 ^ w }
{
    z.rem_euclid(greatest(w) as i128 + 1) as u64
}
