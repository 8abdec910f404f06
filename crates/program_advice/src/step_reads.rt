//! What the instruction of an open block reads.

use crate::element_cells::{are_any, has_rows, words_of};
use crate::table_lines::is_address;
use std::alloc::{AllocError, Global};

/// What is said of an instruction that reads no cell of a map. Reads of word fields are not listed.
pub const NO_READ: &str = "the instruction reads no cell of a map";

/// What is said of cells that may be any number.
const NOTHING_KNOWN: &str = ", of which nothing is known";

/// The same, where rows may tell more.
const NOTHING_BUT_ROWS: &str = ", of which nothing is known but what the rows say";

/// What the instruction at an address reads of which its element does not say anything; if there is no such cell, all that it reads, with what the
/// element says of it. The cells are those of a table with uses. It is empty where that has no block at the address.
pub fn reads_of(alloc: Global, at: &str, element: &str, table: &str) -> Result<String, AllocError> {
    let mut out = String::new(alloc);
    if !has_block(table, at) {
        return Ok(out);
    }
    let cells = cells_read(alloc, table, at)?;
    if cells.is_empty() {
        out.push_str(NO_READ)?;
        return Ok(out);
    }
    push_unknown(alloc, &mut out, element, &cells)?;
    if out.is_empty() {
        push_known(alloc, &mut out, element, &cells)?;
    }
    Ok(out)
}

/// Whether a table has a block at an address.
fn has_block(table: &str, at: &str) -> bool {
    table
        .split('\n')
        .any(|line| begins_block(line).unwrap_or("") == at)
}

/// The address whose block begins with a line.
fn begins_block(line: &str) -> Option<&str> {
    let address = line.strip_prefix("at ")?;
    if is_address(address) {
        Some(address)
    } else {
        None
    }
}

/// The cells that the instruction at an address reads, by its uses.
fn cells_read<'a>(alloc: Global, table: &'a str, at: &str) -> Result<Vec<&'a str>, AllocError> {
    let mut cells = Vec::new(alloc);
    let mut is_there = false;
    for line in table.split('\n') {
        if let Some(address) = begins_block(line) {
            is_there = address == at;
        } else if is_there {
            if let Some(cell) = cell_of_use(line) {
                cells.push(cell)?;
            }
        }
    }
    Ok(cells)
}

/// The cell of the line of a use. That of a field that is called `use` has no stamps.
fn cell_of_use(line: &str) -> Option<&str> {
    let (cell, _stamps) = line.strip_prefix("use ")?.split_once(" from ")?;
    Some(cell)
}

/// Appends the cells that may be any number, if there are some.
fn push_unknown(
    alloc: Global,
    out: &mut String,
    element: &str,
    cells: &[&str],
) -> Result<(), AllocError> {
    for cell in cells {
        if are_any(&words_of(alloc, element, cell)?) {
            out.push_str(if out.is_empty() { "it reads " } else { ", " })?;
            out.push_str(cell)?;
        }
    }
    if out.is_empty() {
        return Ok(());
    }
    out.push_str(if has_rows(element) {
        NOTHING_BUT_ROWS
    } else {
        NOTHING_KNOWN
    })
}

/// Appends cells with their words. Cells of which it is not known which one is read have none.
fn push_known(
    alloc: Global,
    out: &mut String,
    element: &str,
    cells: &[&str],
) -> Result<(), AllocError> {
    for cell in cells {
        out.push_str(if out.is_empty() { "it reads " } else { "; " })?;
        out.push_str(cell)?;
        if !cell.ends_with("[*]") {
            push_words(out, &words_of(alloc, element, cell)?)?;
        }
    }
    Ok(())
}

/// Appends words, each behind a space.
fn push_words(out: &mut String, words: &[&str]) -> Result<(), AllocError> {
    for word in words {
        write!(out, " {word}")?;
    }
    Ok(())
}
