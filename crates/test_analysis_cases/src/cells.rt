//! Elements of cells as text.

use abstract_map::AbstractMap;
use abstract_value::AbstractValue;
use semantics_values::KeyAt;
use spec_ir::{Spec, Ty};
use state_cell_text::{push_cell, state_fields};
use std::alloc::AllocError as NoMemory;
use syntax_lexer::Text;
use text_words::{BaseText, push_noted};

/// Appends the name of a cell of a field, at the start of its line.
fn push_start(
    out: &mut String,
    spec: &Spec,
    field: &(Text, Ty),
    key: KeyAt,
) -> Result<(), NoMemory> {
    out.push_str("    ")?;
    push_cell(out, spec, field, key)?;
    out.push_str(" ")
}

/// Appends a cell of a map, as a line.
fn push_line<B: BaseText>(
    out: &mut String,
    spec: &Spec,
    field: &(Text, Ty),
    key: KeyAt,
    w: u32,
    cell: (&B::Word, &B::Note),
) -> Result<(), NoMemory> {
    push_start(out, spec, field, key)?;
    push_noted::<B>(out, w, cell)?;
    out.push_str("\n")
}

/// Appends the cells of a map, each as a line.
fn push_map<B: BaseText>(
    out: &mut String,
    spec: &Spec,
    field: &(Text, Ty),
    m: &AbstractMap<B>,
) -> Result<(), NoMemory> {
    let w = m.width();
    push_line::<B>(out, spec, field, KeyAt::Rest, w, m.rest())?;
    for place in 0..m.listed() {
        let key = KeyAt::At(m.key_at(place));
        push_line::<B>(out, spec, field, key, w, m.cell_at(place))?;
    }
    Ok(())
}

/// Appends the cells of a field, each as a line.
fn push_field<B: BaseText>(
    out: &mut String,
    spec: &Spec,
    field: &(Text, Ty),
    value: &AbstractValue<B>,
) -> Result<(), NoMemory> {
    match value {
        AbstractValue::Word { w, x } => {
            push_start(out, spec, field, KeyAt::Whole)?;
            B::push_word(out, *w, x)?;
            out.push_str("\n")
        }
        AbstractValue::Map { map: _map, m } => push_map::<B>(out, spec, field, m),
        _ => out.push_str("    ?\n"),
    }
}

/// Appends the cells of an element, each as a line.
pub fn push_cells<B: BaseText>(
    out: &mut String,
    spec: &Spec,
    values: &[AbstractValue<B>],
) -> Result<(), NoMemory> {
    let fields = state_fields(spec);
    for place in 0..values.len() {
        match fields.get(place + 1) {
            Some(field) => push_field::<B>(out, spec, field, &values[place])?,
            None => out.push_str("    ?\n")?,
        }
    }
    Ok(())
}
