//! A cursor over lines.

ghost use Rattle.std.specs.Prelude.{◌≡◌, ◌≤◌, ◌<◌, [], IsTrue, IfSome, ◌↔◌, length, option_map};
ghost use Rattle.std.specs.List.{prefix_len};
ghost use Rattle.text_lines.specs.Lines.{first_line, is_inside, lines};

use std::marker::Model;

/// The lines that are left of a text.
#[derive(Drop)]
pub struct LinesOf<'a> {
    rest: &'a [u8],
}

impl<'a> Model for LinesOf<'a> {
    ghost use Rattle.text_lines.specs.Lines.{Lines, lines};

    ghost Value = { Lines };

    ghost view = { λ l. lines l.rest.now };
}

/// How many bytes stand before the first LF.
fn line_len(bytes: &[u8]) -> usize
    ensures count { result ≡ prefix_len is_inside bytes.now }
    ensures bound { result ≤ length bytes.now }
{
    bytes.iter().take_while(|byte| **byte != b'\n').count()
}

impl<'a> LinesOf<'a> {
    /// All lines of a text.
    pub fn new(bytes: &'a [u8]) -> LinesOf<'a>
        ensures { result ≡ lines bytes.now }
    {
        LinesOf { rest: bytes }
    }

    /// The text that is left.
    pub fn rest(&self) -> &'a [u8]
        ensures { lines result.now ≡ self.now }
    {
        self.rest
    }

    /// The first line without its LF, and those behind it; none, where the text is at its end, or has no LF there.
    pub fn next(&self) -> Option<(&'a [u8], LinesOf<'a>)>
        ensures { option_map (λ p. (p.0.now, p.1)) result ≡ first_line self.now }
    {
        match next_line(self.rest) {
            Some((line, rest)) => Some((line, LinesOf { rest })),
            None => None,
        }
    }

    /// Whether no byte is left.
    #[tactic(auto, using(crate::proofs::FirstLine::no_lines))]
    pub fn is_done(&self) -> bool
        ensures { IsTrue result ↔ (self.now ≡ []) }
    {
        self.rest.is_empty()
    }

    /// How many lines are left, with an end that lacks its LF.
    pub fn count(&self) -> usize
        ensures { result ≡ length self.now }
    {
        count_of(self.rest)
    }
}

/// The first line of a text without its LF, and the text behind it; none, where no LF comes.
#[tactic(auto, using(crate::proofs::FirstLine::next_is, crate::proofs::FirstLine::none_is))]
pub fn next_line(text: &[u8]) -> Option<(&[u8], &[u8])>
    ensures value { option_map (λ p. (p.0.now, lines p.1.now)) result ≡ first_line (lines text.now) }
    ensures shorter { IfSome result (λ p. length p.1.now < length text.now) }
{
    let len = line_len(text);
    if len < text.len() {
        Some((&text[..len], &text[len + 1..]))
    } else {
        None
    }
}

/// How many lines a text has, with an end that lacks its LF.
pub fn count_lines(text: &[u8]) -> u64
    ensures { result ≡ length (lines text.now) }
{
    count_of(text) as u64
}

/// How many lines a text has, with an end that lacks its LF.
fn count_of(bytes: &[u8]) -> usize
    ensures { result ≡ length (lines bytes.now) }
{
    let mut rest = LinesOf::new(bytes);
    for count in 0..bytes.len() {
        match rest.next() {
            Some((_line, next)) => rest = next,
            None => return if rest.is_done() { count } else { count + 1 },
        }
    }
    bytes.len()
}
