//! Segments of code.

ghost use Rattle.std.specs.Prelude.{◌≡◌, ◌≤◌, ◌∷◌, ◌++◌, length, map, take, drop, OnOk, ◌-◌, Some, None, if◌then◌else◌};
ghost use Rattle.code_image.specs.Faults as faults;
ghost use Rattle.code_image.specs.Image as image;
ghost use Rattle.code_image.specs.Views.{segment_of};

use crate::order::{Order, word};
use std::alloc::{AllocError, Global};

/// Bytes of code, and the address of the first of them.
#[derive(Debug, Drop)]
pub struct Segment {
    pub base: u32,
    pub bytes: Vec<u8>,
}

/// The address after the last byte of a segment.
pub(crate) fn end_of(s: &Segment) -> u64
    requires { length s.now.bytes.items ≤ 1048576 }
    ensures { result ≡ image.end_of (segment_of s.now) }
{
    u64::from(s.base) + s.bytes.len() as u64
}

/// How many words a segment has.
pub(crate) fn word_count(s: &Segment) -> u32
    requires { length s.now.bytes.items ≤ 1048576 }
    ensures { result ≡ image.words_of (segment_of s.now) }
{
    (s.bytes.len() / 4) as u32
}

/// Whether two segments have a byte at one address.
pub(crate) fn overlap(s: &Segment, q: &Segment) -> bool
    requires first { length s.now.bytes.items ≤ 1048576 }
    requires second { length q.now.bytes.items ≤ 1048576 }
    ensures { result ≡ faults.overlaps (segment_of s.now) (segment_of q.now) }
{
    u64::from(s.base.max(q.base)) < end_of(s).min(end_of(q))
}

/// Puts a copy of a segment behind those whose bases are no greater.
pub(crate) fn place(
    alloc: Global,
    segments: &mut Vec<Segment>,
    s: &Segment,
) -> Result<(), AllocError>
    ensures { OnOk result (map segment_of segments.new.items ≡ image.placed (segment_of s.now) (map segment_of segments.old.items)) }
{
    let copy = Segment {
        base: s.base,
        bytes: Vec::from_slice(alloc, &s.bytes)?,
    };
    let place = first_above(segments, s.base);
    segments.insert(place, copy)?;
    Ok(())
}

/// The place of the first segment whose base is greater.
fn first_above(segments: &[Segment], base: u32) -> usize
    ensures within { result ≤ length segments.now }
    ensures place { (s : image.Segment) → s.base ≡ base → image.placed s (map segment_of segments.now)
        ≡ take result (map segment_of segments.now) ++ s ∷ drop result (map segment_of segments.now) }
{
    for (i, s) in segments.iter().enumerate() {
        if base < s.base {
            return i;
        }
    }
    segments.len()
}

/// The word of a segment at an address.
pub(crate) fn word_at(order: Order, s: &Segment, address: u32) -> Option<u32>
    ensures { result ≡ (if image.has_word (segment_of s.now) address then Some (image.word_of order (drop (address - s.now.base) s.now.bytes.items))
        else None) }
{
    if address % 4 != 0 || address < s.base {
        return None;
    }
    let offset = (address - s.base) as usize;
    if offset + 4 > s.bytes.len() {
        return None;
    }
    Some(word(order, &s.bytes[offset..]))
}
