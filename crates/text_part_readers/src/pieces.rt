//! Parts of a line.

ghost use Rattle.std.specs.Prelude.{◌≡◌, ◌≤◌, length, option_map};
ghost use Rattle.std.specs.Option.{option_copied};
ghost use Rattle.text_part_readers.specs.Cells as cells;
ghost use Rattle.text_part_readers.specs.Pieces as pieces;

use text_words::text_behind;

/// How many bytes stand before the first that is this one.
pub(crate) fn len_before(byte: u8, text: &[u8]) -> usize
    ensures count { result ≡ pieces.len_before byte text.now }
    ensures bound { result ≤ length text.now }
{
    text.iter().take_while(|other| **other != byte).count()
}

/// What stands before the first byte that is this one, and what behind it.
pub fn cut(byte: u8, text: &[u8]) -> Option<(&[u8], &[u8])>
    ensures { option_map (λ p. (p.0.now, p.1.now)) result ≡ pieces.cut byte text.now }
{
    let len = len_before(byte, text);
    if len >= text.len() {
        return None;
    }
    let (front, back) = text.split_at(len);
    Some((front, back.split_at(1).1))
}

/// What stands behind a name and a mark.
pub(crate) fn behind_name<'a>(name: &[u8], mark: &[u8], line: &'a [u8]) -> Option<&'a [u8]>
    ensures { option_copied result ≡ cells.behind_name name.now mark.now line.now }
{
    text_behind(mark, text_behind(name, line)?)
}

/// The text of a key of a map, and what stands behind it.
pub(crate) fn key_part<'a>(name: &[u8], line: &'a [u8]) -> Option<(&'a [u8], &'a [u8])>
    ensures { option_map (λ p. (p.0.now, p.1.now)) result ≡ cells.key_part name.now line.now }
{
    cut(b']', behind_name(name, b"[", line)?)
}
