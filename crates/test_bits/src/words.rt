//! Words of known bits as text.

ghost use Rattle.std.specs.Prelude.{IfSome};
ghost use Rattle.base_bits.specs.Known.{Fits};
ghost use Rattle.word_operations.specs.Width.{IsWidth};

use base_bits::{Bits, Known};
use std::alloc::{AllocError, Global};
use test_case_lines::{Notation, Read, Unread, is_word, number};

/// A word is written by its known and its unknown bits, in hex: `4/3` is 4 to 7.
pub(crate) struct Words;

impl Notation for Words {
    type Of = Bits;

    fn word(_alloc: Global, _ctx: &(), w: u32, text: &str) -> Read<Known> {
        bits(w, text).ok_or(Unread::No)
    }

    fn text(alloc: Global, _w: u32, x: &Known) -> Result<String, AllocError> {
        format!(in alloc; "{:x}/{:x}", x.v, x.m)
    }
}

/// The word of the known and the unknown bits of a text.
fn bits(w: u32, text: &str) -> Option<Known>
    requires { IsWidth w }
    ensures { IfSome result (λ x. Fits w x) }
{
    let (known, unknown) = text.split_once('/')?;
    let v = number(known)?;
    let m = number(unknown)?;
    if is_word(w, v) && is_word(w, m) && v & m == 0 {
        Some(Known { v, m })
    } else {
        None
    }
}
