//! Places in a text.

ghost use Rattle.std.specs.Prelude.{◌≡◌, ◌+◌, ◌<◌, ◌≤◌, ◌^◌, fold, option_map, slice_get};
ghost use Rattle.program_advice.specs.Places.{behind, first_place, line_of, lines, place_of};

/// The byte that ends a line.
const LINE_END: u8 = 10;

/// A place in a text, by the number of its line and that of its byte in the line, both counted from 1.
#[derive(Clone, Copy)]
pub struct Place {
    pub line: usize,
    pub column: usize,
}

/// The place of the byte at an offset. Past the text it is the end of the text.
pub fn place_of(text: &[u8], at: usize) -> Place
    ensures { result ≡ place_of at text.now }
{
    place_behind(&text[..at.min(text.len())])
}

/// The place behind all bytes of a text.
fn place_behind(front: &[u8]) -> Place
    ensures { result ≡ fold behind first_place front.now }
{
    let mut place = Place { line: 1, column: 1 };
    for byte in front {
        place = behind(place, *byte);
    }
    place
}

/// The place behind a byte at a place.
fn behind(place: Place, byte: u8) -> Place
    requires line { place.line < 2 ^ 63 }
    requires column { place.column < 2 ^ 63 }
    ensures place { result ≡ behind place byte }
    ensures line { result.line ≤ place.line + 1 }
    ensures column { result.column ≤ place.column + 1 }
{
    if byte == LINE_END {
        Place {
            line: place.line + 1,
            column: 1,
        }
    } else {
        Place {
            line: place.line,
            column: place.column + 1,
        }
    }
}

/// The line of a number, counted from 1, without its line feed. It is empty where the text has fewer.
pub fn line_of(text: &[u8], number: usize) -> &[u8]
    ensures { result.now ≡ line_of number text.now }
{
    match piece(text, number.saturating_sub(1)) {
        Some(line) => line,
        None => &[],
    }
}

/// The piece at a place among those between the line feeds.
fn piece(text: &[u8], place: usize) -> Option<&[u8]>
    ensures { option_map (λ piece. piece.now) result ≡ slice_get (lines text.now) place }
{
    text.split(|byte| *byte == LINE_END).nth(place)
}
