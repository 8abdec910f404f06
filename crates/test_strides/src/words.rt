//! Sets and strided intervals as text.

ghost use Rattle.std.specs.Prelude.{IfOk};
ghost use Rattle.base_strides.specs.Meaning.{Fits};
ghost use Rattle.word_operations.specs.Width.{IsWidth};

use base_strides::{Stops, Stretch, StridedSet, Strides};
use std::alloc::{AllocError as NoMemory, Global};
use test_case_lines::{Notation, Read, Unread, answer, number, parts, word};

/// A set is written by its numbers, in hex: `{1,a}`. A stretch is written by its ends and its step, where that is
/// not 1: `0..40+4`.
pub(crate) struct Words;

/// What the case of a line gives.
pub(crate) fn found(alloc: Global, line: &str) -> Result<String, NoMemory> {
    let (stops, case) = parts(line);
    let ctx = stops_of(alloc, stops)?;
    answer::<Words>(alloc, &ctx, case)
}

/// The stops of a text, but for what is no number: none of `-`.
fn stops_of(alloc: Global, text: &str) -> Result<Stops, NoMemory> {
    if text == "-" {
        return Ok(Stops::none(alloc));
    }
    let mut stops = Vec::new(alloc);
    for part in text.split(',') {
        if let Some(n) = number(part) {
            stops.push(n)?;
        }
    }
    Ok(Stops::new(stops))
}

impl Notation for Words {
    type Of = Strides;

    fn word(alloc: Global, ctx: &Stops, w: u32, text: &str) -> Read<StridedSet> {
        match text.split_once('+') {
            Some((ends, step)) => strided(alloc, w, ends, step),
            None => word::<Strides>(alloc, ctx, w, text),
        }
    }

    fn text(alloc: Global, _w: u32, x: &StridedSet) -> Result<String, NoMemory> {
        if x.set().is_any() {
            stretch_text(alloc, x.stretch())
        } else {
            set_text(alloc, x.set().items())
        }
    }
}

/// The word of the ends and the step of a text.
fn strided(alloc: Global, w: u32, ends: &str, step: &str) -> Read<StridedSet>
    requires { IsWidth w }
    ensures { IfOk result (λ x. Fits w x) }
{
    match stretch(ends, step) {
        Some(x) if x.is_long(w) => Ok(StridedSet::of_stretch(alloc, x)?),
        _ => Err(Unread::No),
    }
}

fn stretch(ends: &str, step: &str) -> Option<Stretch> {
    let (low, high) = ends.split_once("..")?;
    Some(Stretch {
        lo: number(low)?,
        step: number(step)?,
        hi: number(high)?,
    })
}

fn set_text(alloc: Global, numbers: &[u64]) -> Result<String, NoMemory> {
    let mut text = String::new(alloc);
    let mut mark = "{";
    for n in numbers {
        write!(text, "{mark}{n:x}")?;
        mark = ",";
    }
    text.push('}')?;
    Ok(text)
}

fn stretch_text(alloc: Global, x: Stretch) -> Result<String, NoMemory> {
    if x.step == 1 {
        format!(in alloc; "{:x}..{:x}", x.lo, x.hi)
    } else {
        format!(in alloc; "{:x}..{:x}+{:x}", x.lo, x.hi, x.step)
    }
}
