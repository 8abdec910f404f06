//! Files that are looked at again.

use std::rt::Files;
use support_io::{FileInputs, read_whole};

/// How many bytes a text may have that is read again: the most that any input may have.
const MOST_BYTES: u32 = 67_108_864;

/// What a file holds, or nothing where it cannot be read. A pipe or a terminal is not read again.
pub fn text_of(rt: &(impl Files + AllocGlobal), name: &str) -> Vec<u8> {
    if length_of(rt, name).is_none() {
        return Vec::new(rt.alloc());
    }
    match read_whole(rt.alloc(), &mut FileInputs::new(rt), name, MOST_BYTES) {
        Ok(bytes) => bytes,
        Err(_) => Vec::new(rt.alloc()),
    }
}

/// How many bytes a file has.
pub fn length_of(rt: &impl Files, name: &str) -> Option<u64> {
    match rt.metadata(name) {
        Ok(file) if file.is_file() => Some(file.len()),
        _ => None,
    }
}
