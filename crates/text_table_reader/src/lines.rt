//! Lines that are determined.

ghost use Rattle.std.specs.Prelude.{◌≡◌, ◌++◌, bytes_eq, codes};

use state_cell_text::same;
use text_words::text_behind;

/// Whether a line with its LF is this text.
#[tactic(auto, using(crate::proofs::LineEnds::line_ends, crate::proofs::LineEnds::other_line))]
pub(crate) fn is_line(text: &[u8], line: &[u8]) -> bool
    ensures { result ≡ bytes_eq (line.now ++ codes "\n") text.now }
{
    match text_behind(line, text) {
        Some(end) => same(end, b"\n"),
        None => false,
    }
}
