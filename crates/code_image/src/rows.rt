//! Which row a word meets, and the instruction that it then is.

ghost use Rattle.std.specs.Prelude.{◌≡◌, ◌+◌, ◌^◌, ◌/◌, ◌%◌, [], IfOk, IsOk, map, slice_get, option_map};
ghost use Rattle.std.specs.List.{list_all};
ghost use Rattle.spec_ir.specs.Views.{row_of};
ghost use Rattle.semantics_values.specs.Views.{val};
ghost use Rattle.word_operations.specs.Cmp.{cmp_of};
ghost use Rattle.word_operations.specs.Signed.{signed};
ghost use Rattle.semantics.specs.Decode as decode;

use crate::bits::number_above;
use semantics_values::Value;
use spec_ir::{Arg, Guard, Row, WordPart};
use std::alloc::{AllocError, Global};
use word_operations::WordComparison;

/// Whether a word agrees with each fixed part.
fn agrees(word: u32, parts: &[WordPart]) -> bool
    ensures { result ≡ decode.agrees word parts.now }
{
    for i in 0..parts.len() {
        if let WordPart::Fixed { v, w } = parts[i]
            && number_above(word, &parts[i + 1..], w) != v
        {
            return false;
        }
    }
    true
}

/// The width and the number of a field of a word, by its number among the fields; past them, nothing of width 1.
fn field(word: u32, parts: &[WordPart], number: u32) -> (u32, u64)
    ensures { result ≡ decode.number_at (slice_get (decode.fields_in word parts.now) number) }
{
    let mut left = number;
    for i in 0..parts.len() {
        if let WordPart::Field { w } = parts[i] {
            if left == 0 {
                return (w, number_above(word, &parts[i + 1..], w));
            }
            left -= 1;
        }
    }
    (1, 0)
}

/// The width and the number that an argument names.
fn number_of(word: u32, parts: &[WordPart], arg: Arg) -> (u32, u64)
    ensures { result ≡ decode.number_of (decode.fields_in word parts.now) arg }
{
    match arg {
        Arg::Field(number) => field(word, parts, number),
        Arg::Word { w, v } => (w, v),
    }
}

/// The signed reading of a number of w bits.
fn reading(w: u32, x: u64) -> i128
    ensures { result ≡ signed w x }
{
    if w > 64 {
        return x as i128;
    }
    let power = 1u128 << w;
    if 2 * (x as u128) < power {
        x as i128
    } else {
        x as i128 - power as i128
    }
}

/// A comparison of two numbers of w bits. Of rows that are checked, those numbers are words of w bits.
fn compares(c: WordComparison, w: u32, x: u64, y: u64) -> bool
    ensures { result ≡ cmp_of c w x y }
{
    match c {
        WordComparison::Eq => x == y,
        WordComparison::Ne => x != y,
        WordComparison::LtU => x < y,
        WordComparison::LeU => x <= y,
        WordComparison::LtS => reading(w, x) < reading(w, y),
        WordComparison::LeS => reading(w, x) <= reading(w, y),
    }
}

/// Whether the fields of a word meet a guard.
fn guard_holds(word: u32, parts: &[WordPart], guard: &Guard) -> bool
    ensures { result ≡ decode.guard_holds (decode.fields_in word parts.now) guard.now }
{
    let (w, x) = field(word, parts, guard.field);
    let (_, y) = number_of(word, parts, guard.other);
    compares(guard.c, w, x, y)
}

/// Whether the fields of a word meet each of some guards.
fn guards_hold(word: u32, parts: &[WordPart], guards: &[Guard]) -> bool
    ensures { result ≡ list_all (decode.guard_holds (decode.fields_in word parts.now)) guards.now }
{
    for guard in guards {
        if !guard_holds(word, parts, guard) {
            return false;
        }
    }
    true
}

/// Whether a word meets a row.
pub(crate) fn meets(word: u32, row: &Row) -> bool
    ensures { result ≡ decode.meets_row word (row_of row.now) }
{
    agrees(word, &row.parts) && guards_hold(word, &row.parts, &row.guards)
}

/// The instruction of a row for a word, where the datatype of instructions has this number.
pub(crate) fn build_instruction(
    alloc: Global,
    instr: u32,
    row: &Row,
    word: u32,
) -> Result<Value, AllocError>
    ensures value { IfOk result (λ v. val v ≡ decode.instruction_of instr word (row_of row.now)) }
    ensures bare { row.now.args.items ≡ [] → IsOk result }
{
    let mut parts = Vec::new(alloc);
    for arg in &row.args {
        let (w, v) = number_of(word, &row.parts, *arg);
        parts.push(Value::Word { w, v })?;
    }
    Ok(Value::Made {
        ty: instr,
        case: row.case,
        parts,
    })
}
