//! Numbers in hex.

ghost use Rattle.std.specs.Prelude.{◌≡◌, ◌<◌, ◌*◌, ◌/◌, ◌%◌, ◌^◌, ◌++◌, OnOk};
ghost use Rattle.std.specs.Char.{digit_char};
ghost use Rattle.code_image.specs.Listing.{hex_digits};

use std::alloc::AllocError;

/// Puts the last `digits` hex digits of a number behind others, the most significant first.
pub(crate) fn push_hex(out: &mut Vec<u8>, digits: u64, v: u64) -> Result<(), AllocError>
    ensures { OnOk result (out.new.items ≡ out.old.items ++ hex_digits digits v) }
{
    let mut left = digits;
    while left > 0 {
        left -= 1;
        out.push(hex_digit(v, left))?;
    }
    Ok(())
}

/// The hex digit of a number that stands above `n` lower ones.
fn hex_digit(v: u64, n: u64) -> u8
    ensures { result ≡ digit_char ((v / 2 ^ (4 * n)) % 16) }
{
    digit_char(four_bits(v, n) as u8)
}

/// The four bits of a number that stand above `n` times four lower ones.
fn four_bits(v: u64, n: u64) -> u64
    ensures value { result ≡ (v / 2 ^ (4 * n)) % 16 }
    ensures digit { result < 16 }
{
    if n < 16 { (v >> (4 * n)) % 16 } else { 0 }
}

/// A hex digit, in lower case.
fn digit_char(digit: u8) -> u8
    requires { digit < 16 }
    ensures { result ≡ digit_char digit }
{
    if digit < 10 {
        b'0' + digit
    } else {
        b'a' + (digit - 10)
    }
}
