//! Writing numbers, keys and cells.

ghost use Rattle.std.specs.Prelude.{◌≡◌, ◌<◌, ◌*◌, ◌/◌, ◌%◌, ◌^◌, ◌++◌, false, OnOk, option_map, slice_get};
ghost use Rattle.std.specs.Option.{option_copied};
ghost use Rattle.std.specs.Fmt.{digit_glyph};
ghost use Rattle.std.specs.String.{string_bytes};
ghost use Rattle.spec_ir.specs.Texts.{cases_of};
ghost use Rattle.spec_ir.specs.Views as view;
ghost use Rattle.spec_ir.specs.Views.{specification};
ghost use Rattle.state_cell_text.specs.Digits.{digits_of, hex_digits};
ghost use Rattle.state_cell_text.specs.Keys as defined;

use semantics_values::KeyAt;
use spec_ir::{Case, Spec, Ty};
use std::alloc::AllocError;
use syntax_lexer::Text;

/// The lower-case hex digit of a number below 16.
fn hex_digit(n: u8) -> u8
    requires { n < 16 }
    ensures glyph { result ≡ digit_glyph false n }
    ensures ascii { result < 128 }
{
    if n < 10 { b'0' + n } else { b'a' + (n - 10) }
}

/// The digit of a number at a place, counted from the last.
fn digit_at(value: u64, place: u32) -> u8
    ensures digit { result ≡ value / 2 ^ (4 * place) % 16 }
    ensures small { result < 16 }
{
    if place < 16 {
        ((value >> (4 * place)) % 16) as u8
    } else {
        0
    }
}

/// Appends the last `count` hex digits of a number, in lower case.
pub fn push_hex(out: &mut String, count: u32, value: u64) -> Result<(), AllocError>
    ensures { OnOk result (string_bytes out.new ≡ string_bytes out.old ++ hex_digits count value) }
{
    for i in 0..count {
        out.push(char::from(hex_digit(digit_at(value, count - 1 - i))))?;
    }
    Ok(())
}

/// A constructor of a datatype, both by their numbers.
fn case_at(spec: &Spec, number: u32, case: u64) -> Option<&Case>
    ensures { option_map view.case_of (option_copied result) ≡ slice_get (cases_of (slice_get (specification spec.now).datas number)) case }
{
    spec.datas.get(number as usize)?.cases.get(case as usize)
}

/// Appends a key.
pub fn push_key(out: &mut String, spec: &Spec, ty: Ty, key: u64) -> Result<(), AllocError>
    ensures { OnOk result (string_bytes out.new ≡ string_bytes out.old ++ defined.key_text (specification spec.now) ty key) }
{
    match ty {
        Ty::Word(w) => {
            if w <= 8 {
                write!(out, "{key}")
            } else {
                push_hex(out, w.div_ceil(4), key)
            }
        }
        Ty::Data(data) => match case_at(spec, data, key) {
            Some(case) => out.push_str(case.name.as_str()),
            None => Ok(()),
        },
        Ty::Bool | Ty::Map(_) => Ok(()),
    }
}

/// The type of the keys of a field's type; of a type that is no map type, itself.
fn keys_of(spec: &Spec, ty: Ty) -> Ty
    ensures { result ≡ defined.keys_of (specification spec.now) ty }
{
    match ty {
        Ty::Map(map) => match spec.maps.get(map as usize) {
            Some(d) => d.key,
            None => Ty::Bool,
        },
        _ => ty,
    }
}

/// Appends a cell of a field: `NAME`, `NAME[*]` or `NAME[KEY]`.
pub fn push_cell(
    out: &mut String,
    spec: &Spec,
    field: &(Text, Ty),
    key: KeyAt,
) -> Result<(), AllocError>
    ensures { OnOk result (string_bytes out.new ≡ string_bytes out.old ++ defined.cell_text (specification spec.now) field.now key) }
{
    out.push_str(field.0.as_str())?;
    match key {
        KeyAt::Whole => Ok(()),
        KeyAt::Rest => out.push_str("[*]"),
        KeyAt::At(k) => {
            out.push_str("[")?;
            push_key(out, spec, keys_of(spec, field.1), k)?;
            out.push_str("]")
        }
    }
}
