//! The code of a machine.

ghost use Rattle.std.specs.Prelude.{◌≡◌, ◌<◌, ◌≤◌, ◌+◌, ◌++◌, ◌*◌, ◌^◌, IfErr, IfOk, OnOk, Some, length, map, slice_get};
ghost use Rattle.std.specs.List.{list_any};
ghost use Rattle.code_image.specs.Faults as faults;
ghost use Rattle.code_image.specs.Faults.{Agrees, IsImage, image_fault, segment_fault};
ghost use Rattle.code_image.specs.Image as image;
ghost use Rattle.code_image.specs.Image.{code_at, image_of};
ghost use Rattle.code_image.specs.Views.{segment_of};

use crate::image_error::ImageError;
use crate::order::Order;
use crate::segment::{Segment, end_of, overlap, place, word_at, word_count};
use std::alloc::{AllocError, Global};
use std::marker::Model;

/// How many bytes all segments may have together.
const MOST_BYTES: usize = 1_048_576;

/// The end of memory.
const MEMORY_END: u64 = 1 << 32;

/// The code of a machine: words of 32 bits at addresses that are multiples of 4. Its segments ascend by their bases,
/// and those of one base stand in the order in which they were given.
#[derive(Debug)]
pub struct Image {
    order: Order,
    segments: Vec<Segment>,
}

/// Written out, so that what lets an image go stands once, and not once more in each crate where one is let go.
impl Drop for Image {
    fn drop(self) {
        let Image {
            order: _order,
            segments: _segments,
        } = self;
    }
}

impl Model for Image {
    ghost use Rattle.code_image.specs.Image as i;

    ghost Value = { i.Image };

    ghost use Rattle.code_image.specs.Inside.{image, IsSound};

    ghost view = { image };

    ghost invariant = { IsSound };
}

impl Image {
    /// The image of segments that are given in any order. Faults are looked for in the order in which they are given.
    pub fn new(alloc: Global, order: Order, segments: &[Segment]) -> Result<Image, ImageError>
        requires { length segments.now ≤ 16 }
        ensures answer { Agrees result (image_fault (map segment_of segments.now)) }
        ensures image { IfOk result (λ i. i ≡ image_of order (map segment_of segments.now)) }
    {
        let mut placed = Vec::new(alloc);
        let mut total = 0;
        for segment in segments {
            check_segment(&placed, total, segment)?;
            total += segment.bytes.len();
            place(alloc, &mut placed, segment)?;
        }
        Ok(Image {
            order,
            segments: placed,
        })
    }

    /// What holds of every image. Nothing runs.
    pub fn is_kept(&self)
        ensures { IsImage self.now }
    {
        let _order = &self.order;
    }

    /// The order of the bytes of a word.
    pub fn order(&self) -> Order
        ensures { result ≡ self.now.order }
    {
        self.order
    }

    /// How many segments there are.
    pub fn segments(&self) -> u32
        ensures { result ≡ length self.now.segments }
    {
        self.segments.len() as u32
    }

    /// The base of a segment.
    pub fn base_at(&self, i: u32) -> u32
        requires { i < length self.now.segments }
        ensures { slice_get (map (λ s. s.base) self.now.segments) i ≡ Some result }
    {
        self.segments[i as usize].base
    }

    /// How many words a segment has.
    pub fn words_at(&self, i: u32) -> u32
        requires { i < length self.now.segments }
        ensures { slice_get (map image.words_of self.now.segments) i ≡ Some result }
    {
        word_count(&self.segments[i as usize])
    }

    /// How many words all segments have.
    pub fn words(&self) -> u32
        ensures { result ≡ image.words_sum self.now.segments }
    {
        let mut sum = 0;
        for segment in &self.segments {
            sum += word_count(segment);
        }
        sum
    }

    /// The word at an address: there is one at each multiple of 4 inside a segment. An image has at most 16 segments, so
    /// they are tried one after another.
    pub fn fetch(&self, address: u32) -> Option<u32>
        ensures { result ≡ code_at self.now address }
    {
        for segment in &self.segments {
            let found = word_at(self.order, segment, address);
            if found.is_some() {
                return found;
            }
        }
        None
    }

    /// The addresses of all words, ascending.
    pub fn addresses(&self, alloc: Global) -> Result<Vec<u32>, AllocError>
        ensures { IfOk result (λ r. r.items ≡ image.addresses self.now.segments) }
    {
        let mut out = Vec::new(alloc);
        for segment in &self.segments {
            push_addresses(&mut out, segment.base, word_count(segment))?;
        }
        Ok(out)
    }
}

/// Puts the addresses of so many words behind others.
fn push_addresses(out: &mut Vec<u32>, base: u32, words: u32) -> Result<(), AllocError>
    requires { base + 4 * words ≤ 2 ^ 32 }
    ensures { OnOk result (out.new.items ≡ out.old.items ++ image.addresses_from base words) }
{
    for i in 0..words {
        out.push(base + 4 * i)?;
    }
    Ok(())
}

/// What is wrong with a segment behind earlier ones, which have so many bytes.
fn check_segment(earlier: &[Segment], total: usize, s: &Segment) -> Result<(), ImageError>
    requires total { total ≡ faults.bytes_sum (map segment_of earlier.now) }
    requires size { total ≤ 1048576 }
    ensures { faults.Agrees result (segment_fault (map segment_of earlier.now) (segment_of s.now)) }
{
    let length = s.bytes.len();
    if length % 4 != 0 {
        return Err(ImageError::OddLength);
    }
    if length > MOST_BYTES - total {
        return Err(ImageError::TooLong);
    }
    if end_of(s) > MEMORY_END {
        return Err(ImageError::PastEnd);
    }
    if s.base % 4 != 0 {
        return Err(ImageError::Misaligned);
    }
    if overlaps_any(s, earlier) {
        return Err(ImageError::Overlap);
    }
    Ok(())
}

/// Whether a segment has a byte at an address of one of others.
fn overlaps_any(s: &Segment, earlier: &[Segment]) -> bool
    requires first { length s.now.bytes.items ≤ 1048576 }
    requires others { faults.bytes_sum (map segment_of earlier.now) ≤ 1048576 }
    ensures { result ≡ list_any (faults.overlaps (segment_of s.now)) (map segment_of earlier.now) }
{
    for q in earlier {
        if overlap(s, q) {
            return true;
        }
    }
    false
}
