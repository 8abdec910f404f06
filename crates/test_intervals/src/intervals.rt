//! Intervals as text.

use base_interval::{Interval, Range};
use std::alloc::{AllocError, Global};
use test_case_lines::{Notation, Read, word};

/// An interval is written by its ends, in hex: `fa..fb`.
pub(crate) struct Intervals;

impl Notation for Intervals {
    type Of = Interval;

    fn word(alloc: Global, ctx: &(), w: u32, text: &str) -> Read<Range> {
        word::<Interval>(alloc, ctx, w, text)
    }

    fn text(alloc: Global, _w: u32, x: &Range) -> Result<String, AllocError> {
        format!(in alloc; "{:x}..{:x}", x.lo, x.hi)
    }
}
