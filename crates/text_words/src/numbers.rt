//! Numbers, read from their texts.

ghost use Rattle.std.specs.Prelude.{◌≡◌, ◌<◌, ◌^◌, IfSome};
ghost use Rattle.std.specs.List.{list_all};
ghost use Rattle.std.specs.Option.{option_copied};
ghost use Rattle.word_operations.specs.Width.{IsWidth};
ghost use Rattle.text_words.specs.Reading as reading;

use state_cell_text::{fits, hex_number};

/// A digit, or a letter from `a` to `f`.
fn is_digit(byte: u8) -> bool
    ensures { result ≡ reading.is_digit byte }
{
    matches!(byte, b'0'..=b'9' | b'a'..=b'f')
}

/// Whether all bytes are lower-case hex digits.
fn are_digits(text: &[u8]) -> bool
    ensures { result ≡ list_all reading.is_digit text.now }
{
    text.iter().all(|byte| is_digit(*byte))
}

/// The number of a width in bits that a text is: a lower-case hex digit for each 4 bits, rounded up. No text is a number
/// of a width that is not 1 to 64.
#[tactic(auto, using(crate::specs::Digits::number_width))]
pub fn number_in(w: u32, text: &[u8]) -> Option<u64>
    ensures value { result ≡ reading.number_in w text.now }
    ensures width { IfSome result (λ n. IsWidth w) }
    ensures below { IfSome result (λ n. n < 2 ^ w) }
{
    if text.len() != w.div_ceil(4) as usize || !are_digits(text) {
        return None;
    }
    let number = hex_number(16, text)?;
    if fits(number, w) { Some(number) } else { None }
}

/// What stands behind a front, where the text begins with that.
pub fn text_behind<'a>(front: &[u8], text: &'a [u8]) -> Option<&'a [u8]>
    ensures { option_copied result ≡ reading.behind front.now text.now }
{
    text.strip_prefix(front)
}

/// What stands in front of an end, where the text ends with that.
pub(crate) fn before<'a>(end: &[u8], text: &'a [u8]) -> Option<&'a [u8]>
    ensures { option_copied result ≡ reading.before end.now text.now }
{
    text.strip_suffix(end)
}

/// Two numbers of a width in bits, with a text between.
#[tactic(auto, using(std::proofs::lemmas::List::take_min, std::proofs::lemmas::List::drop_min))]
pub(crate) fn two_in(between: &[u8], w: u32, text: &[u8]) -> Option<(u64, u64)>
    ensures value { result ≡ reading.two_in between.now w text.now }
{
    let digits = (w.div_ceil(4) as usize).min(text.len());
    let (first, rest) = text.split_at(digits);
    let second = text_behind(between, rest)?;
    Some((number_in(w, first)?, number_in(w, second)?))
}
