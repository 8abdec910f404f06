//! From the text of a file to its cases.

use crate::case::Case;
use crate::error::FileError;
use std::alloc::{AllocError, Global};
use std::mem;

/// The cases of a file, in order.
pub fn cases(alloc: Global, text: &str) -> Result<Vec<Case>, FileError> {
    let mut done = Vec::new(alloc);
    let mut case = Case::new(alloc, "")?;
    let mut is_case = false;
    let mut number: usize = 0;
    for line in text.split('\n') {
        number = number.saturating_add(1);
        if line.is_empty() || line.starts_with('#') {
            continue;
        }
        let (keyword, rest) = line.split_once(' ').unwrap_or((line, ""));
        if keyword == "case" {
            let before = mem::replace(&mut case, Case::new(alloc, rest)?);
            if is_case {
                done.push(before)?;
            }
            is_case = true;
        } else if !is_case || !take(alloc, &mut case, keyword, rest)? {
            return Err(FileError::Line(number));
        }
    }
    if is_case {
        done.push(case)?;
    }
    Ok(done)
}

/// Takes a line of a case, and answers whether it is one.
fn take(alloc: Global, case: &mut Case, keyword: &str, rest: &str) -> Result<bool, AllocError> {
    match keyword {
        "words" => {
            for word in rest.split(' ') {
                case.words.push(String::from_str(alloc, word)?)?;
            }
        }
        "written" => push_line(&mut case.written, rest)?,
        "cut" => case.written.push_str(rest)?,
        "text" => push_line(&mut case.text, rest)?,
        "length" => {
            let Ok(length) = rest.parse::<u64>() else {
                return Ok(false);
            };
            case.lengths.push(length)?;
        }
        "cell" => case.cells.push(String::from_str(alloc, rest)?)?,
        "step" => push_line(&mut case.steps, rest)?,
        "named" => case.named = Some(String::from_str(alloc, rest)?),
        "entry" => push_line(&mut case.entries, rest)?,
        "|" => push_line(&mut case.wanted, rest)?,
        _ => return Ok(false),
    }
    Ok(true)
}

/// Appends a line.
fn push_line(out: &mut String, line: &str) -> Result<(), AllocError> {
    out.push_str(line)?;
    out.push('\n')
}
