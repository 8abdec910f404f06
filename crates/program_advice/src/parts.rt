//! Which part of the code is faulty.

/// How many bytes code has at most.
const MOST_BYTES: u64 = 1_048_576;

/// The end of memory.
const MEMORY_END: u64 = 1 << 32;

/// A part of the code: the address of its first byte, and how many bytes it has.
#[derive(Clone, Copy)]
pub struct PartSize {
    pub base: u32,
    pub length: u64,
}

impl PartSize {
    /// The address behind its last byte.
    fn end(self) -> u64 {
        u64::from(self.base).saturating_add(self.length)
    }

    /// Whether a byte of it has an address in common with another part.
    fn meets(self, other: PartSize) -> bool {
        u64::from(self.base.max(other.base)) < self.end().min(other.end())
    }
}

/// The place, from 0, of the first part that has a fault, where that is the one of the code.
pub fn faulty_part(parts: &[PartSize], code: &str) -> Option<usize> {
    let mut bytes: u64 = 0;
    for (place, part) in parts.iter().enumerate() {
        bytes = bytes.saturating_add(part.length);
        if let Some(found) = fault_of(&parts[..place], *part, bytes) {
            return if found == code { Some(place) } else { None };
        }
    }
    None
}

/// The first fault of a part behind others, where so many bytes come up to its end.
fn fault_of(before: &[PartSize], part: PartSize, bytes: u64) -> Option<&'static str> {
    if part.length % 4 != 0 {
        Some("I1")
    } else if bytes > MOST_BYTES {
        Some("I2")
    } else if part.end() > MEMORY_END {
        Some("I3")
    } else if part.base % 4 != 0 {
        Some("I4")
    } else if before.iter().any(|other| part.meets(*other)) {
        Some("I5")
    } else {
        None
    }
}
