//! The entry of the states that an element describes.

use crate::element_cells::{span_of_words, words_of};
use std::alloc::{AllocError, Global};

/// An entry at an address that has each state of an element, and maybe more: what the lines of an entry cannot say of a cell, it leaves
/// open. `cells` are the counter of the states, and then their fields, of a map `NAME[*]`.
pub fn entry_of(
    alloc: Global,
    cells: &[String],
    at: &str,
    element: &str,
) -> Result<String, AllocError> {
    let mut out = String::new(alloc);
    let [counter, fields @ ..] = cells else {
        return Ok(out);
    };
    write!(out, "{counter} {at}\n")?;
    for field in fields {
        push_cell(alloc, &mut out, element, field)?;
    }
    push_listed(alloc, &mut out, element)?;
    Ok(out)
}

/// Appends a line for each cell of a map that has one of its own in some part of the element.
fn push_listed(alloc: Global, out: &mut String, element: &str) -> Result<(), AllocError> {
    for line in element.split('\n') {
        let (cell, _) = line.split_once(' ').unwrap_or((line, ""));
        if cell.contains('[') && !has_line(out.as_str(), cell) {
            push_cell(alloc, out, element, cell)?;
        }
    }
    Ok(())
}

/// Whether an entry has a line of a cell.
fn has_line(entry: &str, cell: &str) -> bool {
    entry.split('\n').any(|line| is_line_of(line, cell))
}

/// Whether a line of an entry is that of a cell.
fn is_line_of(line: &str, cell: &str) -> bool {
    match line.split_once(' ') {
        Some((name, _)) => name == cell,
        None => false,
    }
}

/// Appends the line of a cell.
fn push_cell(alloc: Global, out: &mut String, element: &str, cell: &str) -> Result<(), AllocError> {
    let words = words_of(alloc, element, cell)?;
    match span_of_words(&words) {
        Some(span) if span.is_one() => write!(out, "{cell} {}\n", span.least),
        Some(span) => write!(out, "{cell} {}..{}\n", span.least, span.greatest),
        None => write!(out, "{cell} any\n"),
    }
}
