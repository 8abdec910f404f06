//! The lines of a text.

use crate::error::FileError;
use std::alloc::{AllocError, Global};

/// Appends what a line gives, and answers whether it is a line of a text: `| TEXT` gives the text and a line end, `+ TEXT` the
/// text alone, `use NAME` a text given before, and `each N LINE` what the line gives for each number below N.
pub fn append(
    alloc: Global,
    line: &str,
    given: &[(String, String)],
    text: &mut String,
) -> Result<bool, FileError> {
    let Some(rest) = line.strip_prefix("each ") else {
        return append_once(line, given, text);
    };
    let Some((count, line)) = rest.split_once(' ') else {
        return Ok(false);
    };
    let Ok(count) = count.parse::<u32>() else {
        return Ok(false);
    };
    for number in 0..count {
        let line = numbered(alloc, line, number)?;
        if !append_once(line.as_str(), given, text)? {
            return Ok(false);
        }
    }
    Ok(true)
}

/// A line with a number in the place of each `#`.
fn numbered(alloc: Global, line: &str, number: u32) -> Result<String, AllocError> {
    let digits = format!(in alloc; "{number}")?;
    let mut out = String::new(alloc);
    for (i, part) in line.split('#').enumerate() {
        if i > 0 {
            out.push_str(digits.as_str())?;
        }
        out.push_str(part)?;
    }
    Ok(out)
}

fn append_once(
    line: &str,
    given: &[(String, String)],
    text: &mut String,
) -> Result<bool, FileError> {
    let (keyword, rest) = line.split_once(' ').unwrap_or((line, ""));
    match keyword {
        "|" => {
            text.push_str(rest)?;
            text.push('\n')?;
            Ok(true)
        }
        "+" => {
            text.push_str(rest)?;
            Ok(true)
        }
        "use" => match text_of(given, rest) {
            Some(found) => {
                text.push_str(found)?;
                Ok(true)
            }
            None => Ok(false),
        },
        _ => Ok(false),
    }
}

/// The text given by this name.
fn text_of<'a>(given: &'a [(String, String)], name: &str) -> Option<&'a str> {
    match name {
        "ppc" => return Some(program_spec_powerpc::text()),
        "rv32i" => return Some(program_spec_riscv::text()),
        _ => {}
    }
    for text in given {
        if text.0.as_str() == name {
            return Some(text.1.as_str());
        }
    }
    None
}
