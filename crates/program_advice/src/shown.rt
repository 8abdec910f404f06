//! Lines of a text as they are shown.

use std::alloc::AllocError;

/// How many bytes are shown before a place at most.
const MOST_BEFORE: usize = 100;

/// How many bytes of a line are shown at most.
const MOST_SHOWN: usize = 160;

/// What stands before a line that is shown.
const MARGIN: &str = "    ";

/// Appends a line, and below it a caret at the column, counted from 1. Of a long line the part about the column is shown.
pub fn push_with_caret(out: &mut String, line: &[u8], column: usize) -> Result<(), AllocError> {
    let start = column.saturating_sub(MOST_BEFORE).min(line.len());
    push_line(out, &line[start..])?;
    out.push_str(MARGIN)?;
    for _ in start..column.saturating_sub(1) {
        out.push(' ')?;
    }
    out.push_str("^\n")
}

/// Appends the front of a line. A carriage return at its end is not shown.
pub fn push_line(out: &mut String, line: &[u8]) -> Result<(), AllocError> {
    let line = match line {
        [front @ .., b'\r'] => front,
        whole => whole,
    };
    out.push_str(MARGIN)?;
    for byte in &line[..line.len().min(MOST_SHOWN)] {
        out.push(shown_byte(*byte))?;
    }
    out.push('\n')
}

/// A byte as it is shown: a tab as a space, and any that is not printable as a question mark.
fn shown_byte(byte: u8) -> char {
    match byte {
        b' '..=b'~' => char::from(byte),
        b'\t' => ' ',
        _ => '?',
    }
}
