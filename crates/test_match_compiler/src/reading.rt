//! Types, shapes and rows as text.

use spec_match_compiler::{Pattern, Shape, Sig};
use std::alloc::Global;
use test_case_lines::{Read, Unread};

/// A match: rows on values of a shape, and the types that it may name.
#[derive(Drop)]
pub(crate) struct Case {
    pub(crate) sig: Sig,
    pub(crate) shape: Shape,
    pub(crate) rows: Vec<Pattern>,
}

/// A constructor of which more parts may follow.
#[derive(Drop)]
struct Begun {
    case: u32,
    parts: Vec<Pattern>,
}

/// The list with what is read next, if it is; else the list is let go.
fn with<T: Drop>(mut list: Vec<T>, item: Read<T>) -> Read<Vec<T>> {
    list.push(item?)?;
    Ok(list)
}

/// A shape, as `bool`, `word8`, `type0` or `opaque`.
fn shape(text: &str) -> Option<Shape> {
    match text {
        "bool" => Some(Shape::Bool),
        "opaque" => Some(Shape::Opaque),
        _ => match text.strip_prefix("word") {
            Some(width) => Some(Shape::Word(width.parse::<u32>().ok()?)),
            None => Some(Shape::Data(text.strip_prefix("type")?.parse::<u32>().ok()?)),
        },
    }
}

/// The fields of a constructor, as `bool word8`; `-` where there are none.
fn fields(alloc: Global, text: &str) -> Read<Vec<Shape>> {
    let mut fields = Vec::new(alloc);
    if text != "-" {
        for field in text.split(' ') {
            fields = with(fields, shape(field).ok_or(Unread::No))?;
        }
    }
    Ok(fields)
}

/// The constructors of a type, as `- | bool`.
fn cases(alloc: Global, text: &str) -> Read<Vec<Vec<Shape>>> {
    let mut cases = Vec::new(alloc);
    for case in text.split(" | ") {
        cases = with(cases, fields(alloc, case))?;
    }
    Ok(cases)
}

/// Types in order, as `- | bool ; type0`; none where there is no text.
pub(crate) fn types(alloc: Global, text: &str) -> Read<Sig> {
    let mut datas = Vec::new(alloc);
    if !text.is_empty() {
        for data in text.split(" ; ") {
            datas = with(datas, cases(alloc, data))?;
        }
    }
    Ok(Sig { datas })
}

/// A pattern without parts, as `_`, the variable `x7`, `true` or `5`.
fn leaf(text: &str) -> Option<Pattern> {
    match text {
        "_" => Some(Pattern::Any),
        "true" => Some(Pattern::Flag(true)),
        "false" => Some(Pattern::Flag(false)),
        _ => match text.strip_prefix('x') {
            Some(variable) => Some(Pattern::Bind(variable.parse::<u32>().ok()?)),
            None => Some(Pattern::Word(text.parse::<u64>().ok()?)),
        },
    }
}

/// The numbers of a range, as `0..5`.
fn range(text: &str) -> Option<(u64, u64)> {
    let (from, to) = text.split_once("..")?;
    Some((from.parse::<u64>().ok()?, to.parse::<u64>().ok()?))
}

fn opened(alloc: Global, case: &str) -> Read<Begun> {
    let case = case.parse::<u32>().ok().ok_or(Unread::No)?;
    Ok(Begun {
        case,
        parts: Vec::new(alloc),
    })
}

fn grown(case: u32, parts: Read<Vec<Pattern>>) -> Read<Begun> {
    Ok(Begun {
        case,
        parts: parts?,
    })
}

/// The innermost constructor gets one part more.
fn with_part(mut begun: Vec<Begun>, part: Read<Pattern>) -> Read<Vec<Begun>> {
    match begun.pop() {
        Some(Begun { case, parts }) => with(begun, grown(case, with(parts, part))),
        None => Err(Unread::No),
    }
}

fn with_numbers(mut begun: Vec<Begun>, from: u64, to: u64) -> Read<Vec<Begun>> {
    for n in from..to {
        begun = with_part(begun, Ok(Pattern::Word(n)))?;
    }
    Ok(begun)
}

/// A part more, or one for each number of a range. Marks between parts say nothing.
fn with_leaf(begun: Vec<Begun>, text: &str) -> Read<Vec<Begun>> {
    match text {
        "" | ";" | "-" => Ok(begun),
        _ => match range(text) {
            Some((from, to)) => with_numbers(begun, from, to),
            None => with_part(begun, leaf(text).ok_or(Unread::No)),
        },
    }
}

/// The innermost constructor has all its parts, and is a part of the one around it.
fn closed(mut begun: Vec<Begun>) -> Read<Vec<Begun>> {
    match begun.pop() {
        Some(Begun { case, parts }) => with_part(begun, Ok(Pattern::Case { case, parts })),
        None => Err(Unread::No),
    }
}

/// What is begun behind a piece, which ends at its first bracket or blank.
fn after(alloc: Global, begun: Vec<Begun>, piece: &str) -> Read<Vec<Begun>> {
    if let Some(case) = piece.strip_suffix('(') {
        return with(begun, opened(alloc, case));
    }
    match piece.strip_suffix(')') {
        Some(last) => closed(with_leaf(begun, last)?),
        None => with_leaf(begun, piece.trim_end()),
    }
}

/// The parts of the outermost, where no other is begun.
fn outermost(mut begun: Vec<Begun>) -> Read<Vec<Pattern>> {
    match begun.pop() {
        Some(Begun { case: _case, parts }) if begun.is_empty() => Ok(parts),
        _ => Err(Unread::No),
    }
}

/// Rows, as `0(_ 5) ; x1`; `-` where there are none, and `0..5` for a row for each of these numbers.
///
/// A row is a pattern without parts, or a constructor by its number with its parts, as `2(_ 0() x1)`. All are read as the parts of
/// one constructor.
fn rows(alloc: Global, text: &str) -> Read<Vec<Pattern>> {
    let mut begun = with(Vec::new(alloc), opened(alloc, "0"))?;
    for piece in text.split_inclusive(['(', ')', ' ']) {
        begun = after(alloc, begun, piece)?;
    }
    outermost(begun)
}

fn with_rows(sig: Sig, shape: Shape, rows: Read<Vec<Pattern>>) -> Read<Case> {
    Ok(Case {
        sig,
        shape,
        rows: rows?,
    })
}

/// A match, as `type0 | 0(_ 5) ; x1`, under these types.
pub(crate) fn read_case(alloc: Global, types_text: &str, line: &str) -> Read<Case> {
    let (shape_text, rows_text) = line.split_once(" | ").ok_or(Unread::No)?;
    let shape = shape(shape_text).ok_or(Unread::No)?;
    let sig = types(alloc, types_text)?;
    with_rows(sig, shape, rows(alloc, rows_text))
}
