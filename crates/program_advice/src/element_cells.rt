//! What the lines of an element say of cells.

use std::alloc::{AllocError, Global};

/// Numbers from one to another, both as they are written.
#[derive(Clone, Copy)]
pub struct Span<'a> {
    pub least: &'a str,
    pub greatest: &'a str,
}

impl Span<'_> {
    /// Whether it has one number alone.
    pub fn is_one(self) -> bool {
        self.least == self.greatest
    }
}

/// Whether an element has rows of affine relations. They have no lines of cells.
pub fn has_rows(element: &str) -> bool {
    element.split('\n').any(|line| line == "part affine")
}

/// The words of a cell, one of each part that has cells: that of its own line, or else that of the line of all cells of its map without one. Of
/// `NAME[*]` they are those of that line.
pub fn words_of<'a>(
    alloc: Global,
    element: &'a str,
    cell: &str,
) -> Result<Vec<&'a str>, AllocError> {
    let mut words = Vec::new(alloc);
    for line in element.split('\n') {
        let (name, word) = line.split_once(' ').unwrap_or((line, ""));
        if is_rest_of(name, cell) {
            words.push(word)?;
        } else if name == cell {
            // (the line of the others stands before it)
            let _of_the_others = words.pop();
            words.push(word)?;
        }
    }
    Ok(words)
}

/// Whether a name stands for all cells without a line of the map that a cell is of. A cell that is of no map is the only one of its name.
fn is_rest_of(name: &str, cell: &str) -> bool {
    let Some((map, _key)) = cell.split_once('[') else {
        return name == cell;
    };
    match name.split_once('[') {
        Some((other, key)) => other == map && key == "*]",
        None => false,
    }
}

/// Whether words of one cell all say that it may be any number.
pub fn are_any(words: &[&str]) -> bool {
    words.iter().all(|word| *word == "any")
}

/// A span that holds the number of a cell with these words. It has one number where a word says so.
pub fn span_of_words<'a>(words: &[&'a str]) -> Option<Span<'a>> {
    let mut widest = None;
    for word in words {
        let Some(span) = span_of(*word) else {
            continue;
        };
        if span.is_one() {
            return Some(span);
        }
        widest = Some(span);
    }
    widest
}

/// A span that holds the numbers of a word, where both ends of one can be read off its text.
fn span_of(word: &str) -> Option<Span<'_>> {
    match word
        .strip_prefix("{")
        .and_then(|text| text.strip_suffix("}"))
    {
        Some(numbers) => Some(span_of_set(numbers)),
        None => match word.split_once("..") {
            Some((least, rest)) => Some(span_from(least, rest)),
            None => span_of_bits(word),
        },
    }
}

/// The span of a set, by its numbers, which ascend.
fn span_of_set(numbers: &str) -> Span<'_> {
    let (least, _) = numbers.split_once(',').unwrap_or((numbers, ""));
    let (_, greatest) = numbers.rsplit_once(',').unwrap_or(("", numbers));
    Span { least, greatest }
}

/// The span from a number to the one that is written behind it, of an interval or, with its step, of a strided one.
fn span_from<'a>(least: &'a str, rest: &'a str) -> Span<'a> {
    let (greatest, _step) = rest.split_once('+').unwrap_or((rest, ""));
    Span { least, greatest }
}

/// The span of known bits, where no bit is unknown.
fn span_of_bits(word: &str) -> Option<Span<'_>> {
    let (known, unknown) = word.split_once('/')?;
    if unknown.bytes().all(|digit| digit == b'0') {
        Some(Span {
            least: known,
            greatest: known,
        })
    } else {
        None
    }
}
