//! Lines, and the words of a line.

ghost use Rattle.std.specs.Prelude.{◌≡◌, ◌<◌, ◌≤◌, ◌∷◌, IfOk, length};
ghost use Rattle.std.specs.List.{prefix_len, slice_split};
ghost use Rattle.state_text.specs.Lines.{lines, is_inside, without_cr};
ghost use Rattle.text_claims.specs.Views.{borrowed};
ghost use Rattle.text_claims.specs.Lines.{is_space};

use std::alloc::{AllocError as NoMemory, Global};

/// The number of bytes before the first LF.
fn line_len(bytes: &[u8]) -> usize
    ensures count { result ≡ prefix_len is_inside bytes.now }
    ensures bound { result ≤ length bytes.now }
{
    bytes.iter().take_while(|byte| **byte != b'\n').count()
}

/// A line without the CR at its end.
#[tactic(auto, using(state_text::proofs::FirstLine::last_cr, state_text::proofs::FirstLine::no_cr))]
fn without_cr(line: &[u8]) -> &[u8]
    ensures { result.now ≡ without_cr line.now }
{
    if line.is_empty() {
        return line;
    }
    let last = line.len() - 1;
    if line[last] == b'\r' {
        &line[..last]
    } else {
        line
    }
}

/// The first line, and the bytes after it.
#[tactic(auto, using(state_text::proofs::FirstLine::first_line_is, state_text::proofs::FirstLine::only_line))]
pub(crate) fn first_line(bytes: &[u8]) -> (&[u8], &[u8])
    requires { 0 < length bytes.now }
    ensures lines { lines bytes.now ≡ result.0.now ∷ lines result.1.now }
    ensures shorter { length result.1.now < length bytes.now }
{
    let len = line_len(bytes);
    if len < bytes.len() {
        (without_cr(&bytes[..len]), &bytes[len + 1..])
    } else {
        (bytes, &[])
    }
}

/// What stands between the spaces of a line.
pub(crate) fn words(alloc: Global, line: &[u8]) -> Result<Vec<&[u8]>, NoMemory>
    ensures { IfOk result (λ words. borrowed words.items ≡ slice_split is_space line.now) }
{
    line.split(|byte| *byte == b' ').collect(alloc)
}
