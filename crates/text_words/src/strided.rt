//! Small sets and strided intervals, read from their texts.

ghost use Rattle.std.specs.Prelude.{◌≡◌, IfOk, true};
ghost use Rattle.std.specs.Option.{option_and_then};
ghost use Rattle.word_operations.specs.Width.{IsWidth};
ghost use Rattle.text_words.specs.Reading as reading;

use crate::numbers::{number_in, text_behind, two_in};
use crate::reading::range_in;
use crate::sets::{listed_in, text_in_braces};
use base_strides::{Stretch, StridedSet};
use std::alloc::{AllocError as NoMemory, Global};

/// Whether the width is one of 1 to 64 bits.
fn is_width(w: u32) -> bool
    ensures value { result ≡ reading.is_width w }
    ensures width { result ≡ true → IsWidth w }
{
    1 <= w && w <= 64
}

/// The ends and the step of a strided interval, with `..` and `+` between.
#[tactic(auto, using(std::proofs::lemmas::List::take_min, std::proofs::lemmas::List::drop_min))]
fn stepped_in(w: u32, text: &[u8]) -> Option<((u64, u64), u64)>
    ensures value { result ≡ reading.stepped_in w text.now }
{
    let ends = (2 * w.div_ceil(4) as usize + 2).min(text.len());
    let (first, rest) = text.split_at(ends);
    let step = text_behind(b"+", rest)?;
    Some((two_in(b"..", w, first)?, number_in(w, step)?))
}

/// The stretch of these ends and this step, which is written where it is not 1.
fn by_steps(x: ((u64, u64), u64)) -> Option<Stretch>
    ensures { result ≡ reading.by_steps x }
{
    let ((lo, hi), step) = x;
    if step == 1 {
        None
    } else {
        Some(Stretch { lo, step, hi })
    }
}

/// A strided interval: an interval, which has the step 1, or its ends and its step.
fn stretch_in(w: u32, text: &[u8]) -> Option<Stretch>
    ensures { result ≡ reading.stretch_in w text.now }
{
    if let Some(range) = range_in(w, text) {
        return Some(Stretch {
            lo: range.lo,
            step: 1,
            hi: range.hi,
        });
    }
    by_steps(stepped_in(w, text)?)
}

/// The word of a strided interval, where it has more numbers than a set, and its high end is one of them.
fn long(alloc: Global, w: u32, stretch: Stretch) -> Result<Option<StridedSet>, NoMemory>
    requires { IsWidth w }
    ensures { IfOk result (λ r. r ≡ reading.long w stretch) }
{
    if stretch.is_long(w) {
        Ok(Some(StridedSet::of_stretch(alloc, stretch)?))
    } else {
        Ok(None)
    }
}

/// The word of a strided interval that a text is.
fn long_in(alloc: Global, w: u32, text: &[u8]) -> Result<Option<StridedSet>, NoMemory>
    requires { IsWidth w }
    ensures { IfOk result (λ r. r ≡ option_and_then (reading.long w) (reading.stretch_in w text.now)) }
{
    match stretch_in(w, text) {
        Some(stretch) => long(alloc, w, stretch),
        None => Ok(None),
    }
}

/// The word of at most 16 numbers that ascend, with commas between.
fn listed_word(alloc: Global, w: u32, text: &[u8]) -> Result<Option<StridedSet>, NoMemory>
    ensures { IfOk result (λ r. r ≡ reading.listed_word w text.now) }
{
    match listed_in::<16>(alloc, w, text)? {
        Some(set) => Ok(Some(StridedSet::of_set(set))),
        None => Ok(None),
    }
}

/// A set of 1 to 16 numbers in braces, ascending, or a strided interval of more.
pub(crate) fn strided_in(alloc: Global, w: u32, text: &[u8]) -> Result<Option<StridedSet>, NoMemory>
    ensures { IfOk result (λ r. r ≡ reading.strided_in w text.now) }
{
    if !is_width(w) {
        return Ok(None);
    }
    match text_in_braces(text) {
        Some(numbers) => listed_word(alloc, w, numbers),
        None => long_in(alloc, w, text),
    }
}
