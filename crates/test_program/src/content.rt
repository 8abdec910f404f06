//! The lines of a block, which say its bytes.

use crate::error::FileError;
use std::alloc::Global;

/// Texts by their names.
pub type Texts = Vec<(String, Vec<u8>)>;

/// Appends the bytes that a line gives, and answers whether it is a line of a block: `| TEXT` gives the text and a line
/// end, `+ TEXT` the text alone, `hex DIGITS` bytes, `use NAME` a text given before, and `times N LINE` what the line
/// gives, N times.
pub fn append(
    alloc: Global,
    line: &str,
    given: &[(String, Vec<u8>)],
    bytes: &mut Vec<u8>,
) -> Result<bool, FileError> {
    let Some(rest) = line.strip_prefix("times ") else {
        return append_once(alloc, line, given, bytes);
    };
    let Some((count, line)) = rest.split_once(' ') else {
        return Ok(false);
    };
    let Ok(count) = count.parse::<u32>() else {
        return Ok(false);
    };
    for _ in 0..count {
        if !append_once(alloc, line, given, bytes)? {
            return Ok(false);
        }
    }
    Ok(true)
}

fn append_once(
    alloc: Global,
    line: &str,
    given: &[(String, Vec<u8>)],
    bytes: &mut Vec<u8>,
) -> Result<bool, FileError> {
    let (keyword, rest) = line.split_once(' ').unwrap_or((line, ""));
    match keyword {
        "|" => {
            bytes.extend_from_slice(rest.as_bytes())?;
            bytes.push(b'\n')?;
            Ok(true)
        }
        "+" => {
            bytes.extend_from_slice(rest.as_bytes())?;
            Ok(true)
        }
        "hex" => match hex::decode(alloc, rest) {
            Ok(decoded) => {
                bytes.extend_from_slice(&decoded)?;
                Ok(true)
            }
            Err(_) => Ok(false),
        },
        "use" => match text_of(given, rest) {
            Some(text) => {
                bytes.extend_from_slice(text)?;
                Ok(true)
            }
            None => Ok(false),
        },
        _ => Ok(false),
    }
}

/// The text given by this name.
fn text_of<'a>(given: &'a [(String, Vec<u8>)], name: &str) -> Option<&'a [u8]> {
    for text in given {
        if text.0.as_str() == name {
            return Some(text.1.as_slice());
        }
    }
    None
}
