//! Cells, words and state values as text.

use abstract_map::AbstractMap;
use abstract_value::{AbstractValue, Constructors};
use domain_affine_base::{Affine, Tracked, Word};
use semantics_values::KeyAt;
use std::alloc::AllocError as NoMemory;

/// Appends a tracked cell behind a blank.
fn push_cell(out: &mut String, cell: (u32, KeyAt)) -> Result<(), NoMemory> {
    match cell.1 {
        KeyAt::At(k) => write!(out, " {}[{}]", cell.0, k),
        _ => write!(out, " {}", cell.0),
    }
}

/// Appends how many cells are tracked, and which, as a line.
pub fn push_tracked(out: &mut String, ctx: &Tracked) -> Result<(), NoMemory> {
    write!(out, "    {} tracked:", ctx.cells.len())?;
    for cell in &ctx.cells {
        push_cell(out, *cell)?;
    }
    out.push_str("\n")
}

/// Appends the numbers of a form behind a mark, with a comma between two.
fn push_form(out: &mut String, mark: &str, numbers: &[u32]) -> Result<(), NoMemory> {
    let mut mark = mark;
    for n in numbers {
        write!(out, "{mark}{n:x}")?;
        mark = ",";
    }
    Ok(())
}

/// Appends a word behind a mark.
fn push_word(out: &mut String, mark: &str, x: &Word) -> Result<(), NoMemory> {
    match x {
        Word::Any => write!(out, "{mark}any"),
        Word::Const(n) => write!(out, "{mark}{n:x}"),
        Word::Form(form) => push_form(out, mark, &form.c),
    }
}

/// Appends a map behind a blank: its rest, and the cell of each listed key.
fn push_map(out: &mut String, m: &AbstractMap<Affine>) -> Result<(), NoMemory> {
    push_word(out, " [*", m.rest().0)?;
    for place in 0..m.listed() {
        write!(out, " {}", m.key_at(place))?;
        push_word(out, "=", m.cell_at(place).0)?;
    }
    out.push_str("]")
}

/// Appends a value that is a word or a map behind a blank.
fn push_value(out: &mut String, v: &AbstractValue<Affine>) -> Result<(), NoMemory> {
    match v {
        AbstractValue::Word { w: _w, x } => push_word(out, " ", x),
        AbstractValue::Map { map: _map, m } => push_map(out, m),
        _ => out.push_str(" ?"),
    }
}

/// Appends the values of a constructor's fields, as a line.
fn push_fields(out: &mut String, fields: &[AbstractValue<Affine>]) -> Result<(), NoMemory> {
    out.push_str("    opened")?;
    for v in fields {
        push_value(out, v)?;
    }
    out.push_str("\n")
}

/// Appends the fields of each constructor that is present, a line each.
fn push_cases(
    out: &mut String,
    cases: &Constructors<AbstractValue<Affine>>,
) -> Result<(), NoMemory> {
    for number in 0..cases.len() {
        if let Some(fields) = cases.fields(number) {
            push_fields(out, fields)?;
        }
    }
    Ok(())
}

/// Appends a state value.
pub fn push_state(out: &mut String, v: &AbstractValue<Affine>) -> Result<(), NoMemory> {
    match v {
        AbstractValue::Data { ty: _ty, cases } => push_cases(out, cases),
        _ => out.push_str("    no state\n"),
    }
}
