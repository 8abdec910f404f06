//! Numbers that digits write.

ghost use Rattle.std.specs.Prelude.{◌≡◌, ◌^◌, ◌≤◌, nat_lt};
ghost use Rattle.std.specs.Char as char_spec;
ghost use Rattle.state_cell_text.specs.Digits as defined;

/// The value of a digit or a letter, from 0 for `0` to 35 for `z` and `Z`, and 36 for any other byte.
fn digit_value(byte: u8) -> u64
    ensures { result ≡ char_spec.digit_value byte }
{
    let value = match byte {
        b'0'..=b'9' => byte - b'0',
        b'A'..=b'Z' => byte - b'A' + 10,
        b'a'..=b'z' => byte - b'a' + 10,
        _ => 36,
    };
    u64::from(value)
}

/// The number that 1 to `most` hex digits write, in either case.
pub fn hex_number(most: usize, digits: &[u8]) -> Option<u64>
    requires { most ≤ 16 }
    ensures { result ≡ defined.hex_number most digits.now }
{
    if digits.is_empty() || digits.len() > most {
        return None;
    }
    let mut value = 0u64;
    for i in 0..digits.len() {
        let digit = digit_value(digits[i]);
        if digit >= 16 {
            return None;
        }
        value = value * 16 + digit;
    }
    Some(value)
}

/// The number that decimal digits without leading zeros write, at most 16 of them.
pub fn decimal_number(digits: &[u8]) -> Option<u64>
    ensures { result ≡ defined.decimal_number digits.now }
{
    if digits.is_empty() || digits.len() > 16 || digits[0] == b'0' && digits.len() > 1 {
        return None;
    }
    let mut value = 0u64;
    for i in 0..digits.len() {
        let digit = digit_value(digits[i]);
        if digit >= 10 {
            return None;
        }
        value = value * 10 + digit;
    }
    Some(value)
}

/// Whether a number is below 2 to the width.
pub fn fits(value: u64, width: u32) -> bool
    ensures { result ≡ nat_lt value (2 ^ width) }
{
    width >= 64 || value >> width == 0
}
