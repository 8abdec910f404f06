//! The values of numbers.

ghost use Rattle.std.specs.Prelude.{◌≡◌, ◌<◌, ℕ, IfNone, IfSome};
ghost use Rattle.std.specs.Char as char_spec;
ghost use Rattle.syntax_lexer.specs.Lexeme.{IsNumeral, IsNumber};

/// The value of a digit or a letter, from 0 for `0` to 35 for `z` and `Z`, and 36 for any other byte.
fn digit_value(byte: u8) -> u64
    ensures { result ≡ char_spec.digit_value byte }
{
    let value = match byte {
        b'0'..=b'9' => byte - b'0',
        b'A'..=b'Z' => byte - b'A' + 10,
        b'a'..=b'z' => byte - b'a' + 10,
        _ => 36,
    };
    value as u64
}

/// The number below 2^64 that the digits write in a base.
fn numeral(base: u64, digits: &[u8]) -> Option<u64>
    requires { 0 < base }
    ensures none { IfNone result ((n : ℕ) → ¬ IsNumeral base digits.now n) }
    ensures some { IfSome result (IsNumeral base digits.now) }
{
    if digits.is_empty() {
        return None;
    }
    let mut value = 0u64;
    for byte in digits {
        let digit = digit_value(*byte);
        if digit >= base {
            return None;
        }
        value = value.checked_mul(base)?.checked_add(digit)?;
    }
    Some(value)
}

/// The number below 2^64 that the text writes, in decimal, or in hexadecimal behind `0x`.
pub fn number(text: &[u8]) -> Option<u64>
    ensures none { IfNone result ((n : ℕ) → ¬ IsNumber text.now n) }
    ensures some { IfSome result (IsNumber text.now) }
{
    match text.strip_prefix(b"0x".as_slice()) {
        Some(digits) => numeral(16, digits),
        None => numeral(10, text),
    }
}
