//! The numbers of claims.

ghost use Rattle.std.specs.Prelude.{◌≡◌, option_map};
ghost use Rattle.state_cell_names.specs.Names.{split_once};
ghost use Rattle.state_cell_text.specs.Digits as digits;
ghost use Rattle.text_claims.specs.Numbers as defined;

use state_cell_names::split_once;
use state_cell_text::hex_number;

/// The number of 1 to 8 hex digits.
pub(crate) fn short_number(text: &[u8]) -> Option<u32>
    ensures { result ≡ digits.hex_number 8 text.now }
{
    match hex_number(8, text) {
        Some(n) => Some(n as u32),
        None => None,
    }
}

/// The number behind the second dot, if a dot comes first.
fn behind_dot(text: &[u8]) -> Option<u64>
    ensures { result ≡ defined.behind_dot text.now }
{
    match text {
        [] => None,
        [byte, rest @ ..] => {
            if *byte == b'.' {
                hex_number(16, rest)
            } else {
                None
            }
        }
    }
}

/// The ends of `LO..HI`, where they are in order.
pub(crate) fn ends(text: &[u8]) -> Option<(u64, u64)>
    ensures { result ≡ defined.ends text.now }
{
    let (low, rest) = split_once(text, b'.')?;
    let lo = hex_number(16, low)?;
    let hi = behind_dot(rest)?;
    if lo <= hi { Some((lo, hi)) } else { None }
}
