//! The bits of a word that the parts of a row speak of.

ghost use Rattle.std.specs.Prelude.{◌≡◌, ◌^◌, ◌/◌, ◌%◌, IfSome};
ghost use Rattle.semantics.specs.Decode.{bits_above, part_width, width_sum};
ghost use Rattle.code_image.specs.Rows.{Fixes};
ghost use Rattle.code_image.specs.Tree as tree;

use spec_ir::WordPart;

/// The width of a part.
fn part_width(part: &WordPart) -> u32
    ensures { result ≡ part_width part.now }
{
    match part {
        WordPart::Fixed { w, .. } => *w,
        WordPart::Field { w } => *w,
    }
}

/// A number without its `n` lowest bits.
fn without_low(v: u64, n: u32) -> u64
    ensures { result ≡ v / 2 ^ n }
{
    if n < 64 { v >> n } else { 0 }
}

/// The `w` lowest bits of a number.
fn low(w: u32, v: u64) -> u64
    ensures { result ≡ v % 2 ^ w }
{
    if w < 64 { v % (1 << w) } else { v }
}

/// The bits of a word that stand above those of parts.
fn higher_bits(word: u32, parts: &[WordPart]) -> u64
    ensures { result ≡ word / 2 ^ width_sum parts.now }
{
    let mut left = u64::from(word);
    for part in parts {
        left = without_low(left, part_width(part));
    }
    left
}

/// The number in the `w` bits of a word that stand above those of parts.
pub(crate) fn number_above(word: u32, parts: &[WordPart], w: u32) -> u64
    ensures { result ≡ bits_above (width_sum parts.now) w word }
{
    low(w, higher_bits(word, parts))
}

/// Whether a word has a bit, the least significant being bit 0.
pub(crate) fn has_bit(v: u64, n: u32) -> bool
    ensures { result ≡ tree.bit v n }
{
    without_low(v, n) % 2 == 1
}

/// The value that parts fix at a bit, where they do.
pub(crate) fn fixed_bit(parts: &[WordPart], n: u32) -> Option<bool>
    ensures { IfSome result (λ value. Fixes parts.now n value) }
{
    let mut left = n;
    let mut i = parts.len();
    while i > 0 {
        i -= 1;
        let w = part_width(&parts[i]);
        if left < w {
            return match parts[i] {
                WordPart::Fixed { v, .. } => Some(has_bit(v, left)),
                WordPart::Field { .. } => None,
            };
        }
        left -= w;
    }
    None
}
