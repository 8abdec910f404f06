//! Words.

ghost use Rattle.std.specs.Prelude.{◌≡◌, ◌++◌, ◌==◌, ◌-◌, ◌^◌, OnOk, map};
ghost use Rattle.std.specs.String.{string_bytes};
ghost use Rattle.text_words.specs.Lists.{behind_commas, behind_spaces, with_commas};
ghost use Rattle.text_words.specs.Words.{affine_text, known_text, number, range_text, set_text, stretch_text, strided_text};

use base_bits::Known;
use base_interval::Range;
use base_kset::Set;
use base_strides::{Stretch, StridedSet};
use domain_affine_base::Word;
use state_cell_text::push_hex;
use std::alloc::AllocError as NoMemory;

/// Appends a number of a width in bits: a hex digit for each 4 of them, rounded up.
#[tactic(auto, unfolding(crate::specs::Words::number))]
pub fn push_number(out: &mut String, w: u32, n: u64) -> Result<(), NoMemory>
    ensures { OnOk result (string_bytes out.new ≡ string_bytes out.old ++ number w n) }
{
    push_hex(out, w.div_ceil(4), n)
}

/// Appends numbers of 32 bits, each behind a space.
pub fn push_spaced(out: &mut String, numbers: &[u32]) -> Result<(), NoMemory>
    ensures { OnOk result (string_bytes out.new ≡ string_bytes out.old ++ behind_spaces (map (number 32) numbers.now)) }
{
    for n in numbers {
        out.push_str(" ")?;
        push_number(out, 32, u64::from(*n))?;
    }
    Ok(())
}

/// Whether a number is the greatest of a width in bits.
#[tactic(auto, using(crate::proofs::Greatest::past_greatest))]
pub(crate) fn is_greatest(w: u32, n: u64) -> bool
    ensures { result ≡ n == 2 ^ w - 1 }
{
    if w < 64 {
        n == (1 << w) - 1
    } else if w == 64 {
        n == u64::MAX
    } else {
        false
    }
}

/// Appends numbers of a width, each behind a comma.
fn push_others(out: &mut String, w: u32, numbers: &[u64]) -> Result<(), NoMemory>
    ensures { OnOk result (string_bytes out.new ≡ string_bytes out.old ++ behind_commas (map (number w) numbers.now)) }
{
    for n in numbers {
        out.push_str(",")?;
        push_number(out, w, *n)?;
    }
    Ok(())
}

/// Appends numbers of a width, with a comma between.
fn push_numbers(out: &mut String, w: u32, numbers: &[u64]) -> Result<(), NoMemory>
    ensures { OnOk result (string_bytes out.new ≡ string_bytes out.old ++ with_commas (map (number w) numbers.now)) }
{
    match numbers {
        [] => Ok(()),
        [first, others @ ..] => {
            push_number(out, w, *first)?;
            push_others(out, w, others)
        }
    }
}

/// Appends a set.
pub(crate) fn push_set<const K: usize>(out: &mut String, w: u32, x: &Set<K>) -> Result<(), NoMemory>
    ensures { OnOk result (string_bytes out.new ≡ string_bytes out.old ++ set_text w x.now) }
{
    if x.is_any() {
        return out.push_str("any");
    }
    out.push_str("{")?;
    push_numbers(out, w, x.items())?;
    out.push_str("}")
}

/// Appends an interval.
pub(crate) fn push_range(out: &mut String, w: u32, x: Range) -> Result<(), NoMemory>
    ensures { OnOk result (string_bytes out.new ≡ string_bytes out.old ++ range_text w x) }
{
    if x.lo == 0 && is_greatest(w, x.hi) {
        return out.push_str("any");
    }
    push_number(out, w, x.lo)?;
    out.push_str("..")?;
    push_number(out, w, x.hi)
}

/// Appends known bits.
pub(crate) fn push_known(out: &mut String, w: u32, x: Known) -> Result<(), NoMemory>
    ensures { OnOk result (string_bytes out.new ≡ string_bytes out.old ++ known_text w x) }
{
    if is_greatest(w, x.m) {
        return out.push_str("any");
    }
    push_number(out, w, x.v)?;
    out.push_str("/")?;
    push_number(out, w, x.m)
}

/// Appends a strided interval.
fn push_stretch(out: &mut String, w: u32, x: Stretch) -> Result<(), NoMemory>
    ensures { OnOk result (string_bytes out.new ≡ string_bytes out.old ++ stretch_text w x) }
{
    if x.step == 1 {
        return push_range(out, w, Range { lo: x.lo, hi: x.hi });
    }
    push_number(out, w, x.lo)?;
    out.push_str("..")?;
    push_number(out, w, x.hi)?;
    out.push_str("+")?;
    push_number(out, w, x.step)
}

/// Appends a small set or a strided interval.
pub(crate) fn push_strided(out: &mut String, w: u32, x: &StridedSet) -> Result<(), NoMemory>
    ensures { OnOk result (string_bytes out.new ≡ string_bytes out.old ++ strided_text w x.now) }
{
    if x.set().is_any() {
        push_stretch(out, w, x.stretch())
    } else {
        push_set(out, w, x.set())
    }
}

/// Appends the multipliers of cells in an affine form, each behind a comma.
fn push_multipliers(out: &mut String, numbers: &[u32]) -> Result<(), NoMemory>
    ensures { OnOk result (string_bytes out.new ≡ string_bytes out.old ++ behind_commas (map (number 32) numbers.now)) }
{
    for n in numbers {
        out.push_str(",")?;
        push_number(out, 32, u64::from(*n))?;
    }
    Ok(())
}

/// Appends the numbers of an affine form, with a comma between.
fn push_form(out: &mut String, numbers: &[u32]) -> Result<(), NoMemory>
    ensures { OnOk result (string_bytes out.new ≡ string_bytes out.old ++ with_commas (map (number 32) numbers.now)) }
{
    match numbers {
        [] => Ok(()),
        [constant, multipliers @ ..] => {
            push_number(out, 32, u64::from(*constant))?;
            push_multipliers(out, multipliers)
        }
    }
}

/// Appends an affine word.
pub(crate) fn push_affine(out: &mut String, w: u32, x: &Word) -> Result<(), NoMemory>
    ensures { OnOk result (string_bytes out.new ≡ string_bytes out.old ++ affine_text w x.now) }
{
    match x {
        Word::Any => out.push_str("any"),
        Word::Const(n) => push_number(out, w, *n),
        Word::Form(form) => push_form(out, &form.c),
    }
}
