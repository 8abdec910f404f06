//! The line in front of a part.

ghost use Rattle.std.specs.Prelude.{◌≡◌, Some, None, if◌then◌else◌};
ghost use Rattle.text_lines.specs.Outcomes.{one};
ghost use Rattle.text_part_readers.specs.Parts.{part_said};

use state_cell_text::same;
use text_lines::LinesOf;
use text_words::text_behind;

/// Whether a line is `part NAME`.
fn is_part(name: &str, line: &[u8]) -> bool
    ensures { (if result then Some tt else None) ≡ part_said name.now line.now }
{
    match text_behind(b"part ", line) {
        Some(rest) => same(rest, name.as_bytes()),
        None => false,
    }
}

/// Reads the line `part NAME`, and says whether it came.
pub(crate) fn read_part(name: &str, lines: &mut LinesOf<'_>) -> bool
    ensures { (if result then Some tt else None, lines.new) ≡ one (part_said name.now) lines.old }
{
    let Some((line, rest)) = lines.next() else {
        return false;
    };
    if is_part(name, line) {
        *lines = rest;
        true
    } else {
        false
    }
}
