//! The values of lines.

ghost use Rattle.std.specs.Prelude.{◌≡◌, ◌≤◌, IfOk, IfSome, length, option_map};
ghost use Rattle.std.specs.List.{prefix_len};
ghost use Rattle.state_text.specs.Meaning.{given_fits};
ghost use Rattle.state_text.specs.Parsing as defined;
ghost use Rattle.state_text.specs.Reading as reading;

use hex::FromHexError;
use semantics_values::GivenNumber;
use state_cell_text::{fits, hex_number, same};
use std::alloc::{AllocError, Global};

/// How many bytes a run of an entry may have.
const MOST_RUN: usize = 4096;

/// The number of bytes before the first dot.
fn dot_at(bytes: &[u8]) -> usize
    ensures count { result ≡ prefix_len defined.is_no_dot bytes.now }
    ensures bound { result ≤ length bytes.now }
{
    bytes.iter().take_while(|byte| **byte != b'.').count()
}

/// Whether the bytes begin with two dots.
fn begins_dots(bytes: &[u8]) -> bool
    ensures { result ≡ defined.begins_dots bytes.now }
{
    match bytes {
        [a, b, ..] => *a == b'.' && *b == b'.',
        _ => false,
    }
}

/// `LO..HI`.
fn range(bytes: &[u8]) -> Option<GivenNumber>
    ensures { result ≡ defined.range bytes.now }
{
    let at = dot_at(bytes);
    if !begins_dots(&bytes[at..]) {
        return None;
    }
    let lo = hex_number(16, &bytes[..at])?;
    let hi = hex_number(16, &bytes[at + 2..])?;
    if lo <= hi {
        Some(GivenNumber::Range { lo, hi })
    } else {
        None
    }
}

/// 1 to 16 hex digits, `any`, or `LO..HI`.
pub(crate) fn value_of(bytes: &[u8]) -> Option<GivenNumber>
    ensures { result ≡ defined.value_of bytes.now }
{
    if same(bytes, b"any".as_slice()) {
        return Some(GivenNumber::Any);
    }
    match hex_number(16, bytes) {
        Some(v) => Some(GivenNumber::One(v)),
        None => range(bytes),
    }
}

/// Pairs of hex digits for 1 to 4,096 bytes.
pub(crate) fn run_of(alloc: Global, text: &[u8]) -> Result<Option<Vec<u8>>, AllocError>
    ensures { IfOk result (λ r. option_map (λ v. v.items) r ≡ defined.run_of text.now) }
{
    match hex::decode(alloc, text) {
        Ok(bytes) => {
            if !bytes.is_empty() && bytes.len() <= MOST_RUN {
                Ok(Some(bytes))
            } else {
                Ok(None)
            }
        }
        Err(FromHexError::OutOfMemory) => Err(AllocError),
        Err(_error) => Ok(None),
    }
}

/// Whether the numbers of a value have at most w bits.
pub(crate) fn given_fits(given: GivenNumber, w: u32) -> bool
    ensures { result ≡ given_fits given w }
{
    match given {
        GivenNumber::One(v) => fits(v, w),
        GivenNumber::Any => true,
        GivenNumber::Range { lo: _lo, hi } => fits(hi, w),
    }
}

/// The one number that is given, if it is one.
pub(crate) fn single_number(given: GivenNumber) -> Option<u64>
    ensures { result ≡ reading.single_number given }
{
    match given {
        GivenNumber::One(v) => Some(v),
        GivenNumber::Any => None,
        GivenNumber::Range { lo, hi } => { if lo == hi { Some(lo) } else { None } }
    }
}
