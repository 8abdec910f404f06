//! Segments as text.

use code_image::{Order, Segment};
use std::alloc::{AllocError, Global};

/// An order of bytes by its name.
pub(crate) fn order(text: &str) -> Option<Order> {
    match text {
        "big" => Some(Order::Big),
        "little" => Some(Order::Little),
        _ => None,
    }
}

/// A number of 32 bits in hex.
pub(crate) fn number(text: &str) -> Option<u32> {
    u32::from_str_radix(text, 16).ok()
}

/// The segments of a text, with single spaces between them; none where one has another form.
pub(crate) fn segments(alloc: Global, text: &str) -> Result<Option<Vec<Segment>>, AllocError> {
    let mut out = Vec::new(alloc);
    for word in text.split(' ') {
        match segment(alloc, word)? {
            Some(segment) => out.push(segment)?,
            None => return Ok(None),
        }
    }
    Ok(Some(out))
}

/// A segment, as `BASE:BYTES` or `BASE:xN`.
fn segment(alloc: Global, text: &str) -> Result<Option<Segment>, AllocError> {
    let Some((base, rest)) = text.split_once(':') else {
        return Ok(None);
    };
    let Some(base) = number(base) else {
        return Ok(None);
    };
    let bytes = match rest.strip_prefix("x") {
        Some(count) => zeros(alloc, count)?,
        None => hex_bytes(alloc, rest)?,
    };
    Ok(bytes.map(|bytes| Segment { base, bytes }))
}

/// So many bytes 0, at most 2^21.
fn zeros(alloc: Global, count: &str) -> Result<Option<Vec<u8>>, AllocError> {
    let Ok(count) = count.parse::<u32>() else {
        return Ok(None);
    };
    let mut out = Vec::new(alloc);
    for _ in 0..count.min(1 << 21) {
        out.push(0)?;
    }
    Ok(Some(out))
}

/// Bytes of two hex digits each.
fn hex_bytes(alloc: Global, text: &str) -> Result<Option<Vec<u8>>, AllocError> {
    let mut out = Vec::new(alloc);
    let mut high = None;
    for c in text.chars() {
        let Some(digit) = c.to_digit(16) else {
            return Ok(None);
        };
        match high {
            None => high = Some(digit),
            Some(first) => {
                out.push((first % 16 * 16 + digit % 16) as u8)?;
                high = None;
            }
        }
    }
    Ok(Some(out))
}
