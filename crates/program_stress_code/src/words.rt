//! The words of made code.

ghost use Rattle.std.specs.Prelude.{◌≡◌, ◌<◌, ◌≤◌, ◌+◌, ◌*◌, ◌==◌, IfOk, if◌then◌else◌, length, nat_lt};
ghost use Rattle.program_stress_code.specs.Words as defined;

use crate::generator::next_state;
use crate::instruction::instruction;
use std::alloc::{AllocError, Global};

/// The last word: a return.
const LAST: u32 = 0x4E80_0020;

/// Word i of so many, by the state of the generator for it.
fn word(state: u32, i: u32, count: u32) -> u32
    requires { i < count }
    ensures { result ≡ (if i + 1 == count then defined.last_word else defined.instruction (nat_lt (i + 2) count) state) }
{
    if i + 1 == count {
        LAST
    } else {
        instruction(i + 2 < count, state)
    }
}

/// The words that are made from a number, so many.
fn words(alloc: Global, number: u32, count: u32) -> Result<Vec<u32>, AllocError>
    ensures { IfOk result (λ words. words.items ≡ defined.words number count) }
{
    let mut out = Vec::new(alloc);
    let mut state = number;
    for i in 0..count {
        state = next_state(state);
        out.push(word(state, i, count))?;
    }
    Ok(out)
}

/// The bytes of the code that is made from a number, of so many words: the most significant byte of each word first.
pub fn code_bytes(alloc: Global, number: u32, count: u32) -> Result<Vec<u8>, AllocError>
    ensures bytes { IfOk result (λ bytes. bytes.items ≡ defined.code_bytes number count) }
    ensures length { IfOk result (λ bytes. length bytes.items ≡ 4 * count) }
{
    let words = words(alloc, number, count)?;
    let mut out = Vec::new(alloc);
    for word in &words {
        out.extend_from_slice(&word.to_be_bytes())?;
    }
    Ok(out)
}
