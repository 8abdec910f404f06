//! Texts of cases.

use std::alloc::{AllocError, Global};

/// The byte that a letter behind `\` stands for.
fn named(letter: u8) -> u8 {
    match letter {
        b'n' => b'\n',
        b'r' => b'\r',
        b't' => b'\t',
        b'0' => 0,
        b'f' => 255,
        _ => letter,
    }
}

/// The bytes that a text of a case stands for.
pub(crate) fn bytes_of(alloc: Global, text: &str) -> Result<Vec<u8>, AllocError> {
    let mut out = Vec::new(alloc);
    let mut escaped = false;
    for byte in text.as_bytes() {
        if escaped {
            out.push(named(*byte))?;
            escaped = false;
        } else if *byte == b'\\' {
            escaped = true;
        } else {
            out.push(*byte)?;
        }
    }
    Ok(out)
}

/// Bytes in one line.
pub(crate) fn shown(alloc: Global, bytes: &[u8]) -> Result<String, AllocError> {
    let mut out = String::new(alloc);
    for byte in bytes {
        if *byte == b'\n' {
            out.push_str("\\n")?;
        } else {
            out.push(char::from(*byte))?;
        }
    }
    Ok(out)
}
