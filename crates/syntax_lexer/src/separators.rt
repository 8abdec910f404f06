//! What separates tokens: blank bytes and comments.

ghost use Rattle.std.specs.Prelude.{◌≡◌, ◌≤◌, length, take, drop, IfNone, IfSome};
ghost use Rattle.std.specs.List.{take_while};
ghost use Rattle.syntax_lexer.specs.Source.{is_in_line, IsSeparator, BeginsNoSeparator};

use crate::classes::is_blank;

/// The number of bytes before the end of the line.
fn line_len(source: &[u8]) -> usize
    ensures { result ≡ length (take_while is_in_line source.now) }
{
    source.iter().take_while(|byte| **byte != b'\n').count()
}

/// The number of bytes of the separator that `source` begins with: a blank byte, or a comment.
pub fn separator_len(source: &[u8]) -> Option<usize>
    ensures none { IfNone result (BeginsNoSeparator source.now) }
    ensures some { IfSome result (λ len. IsSeparator (take len source.now) (drop len source.now)) }
    ensures within { IfSome result (λ len. len ≤ length source.now) }
{
    match source {
        [b'/', b'/', comment @ ..] => Some(2 + line_len(comment)),
        [first, ..] if is_blank(*first) => Some(1),
        _ => None,
    }
}
