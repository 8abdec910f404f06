//! Elements of cells.

ghost use Rattle.std.specs.Prelude.{◌≡◌, ◌++◌, OnOk, map};
ghost use Rattle.std.specs.String.{string_bytes};
ghost use Rattle.spec_ir.specs.Views.{specification};
ghost use Rattle.abstract_value_laws.specs.Abs.{parts};
ghost use Rattle.abstract_value.specs.View.{abs};
ghost use Rattle.state_cell_text.specs.Keys.{cell_text};
ghost use Rattle.state_cell_text.specs.Places.{state_fields};
ghost use Rattle.text_elements.specs.Cells as lines;

use abstract_map::AbstractMap;
use abstract_value::AbstractValue;
use semantics_values::KeyAt;
use spec_ir::{Spec, Ty};
use state_cell_text::{push_cell, state_fields};
use std::alloc::AllocError as NoMemory;
use syntax_lexer::Text;
use text_words::{BaseText, push_noted};

/// Appends the line of a word field.
pub(crate) fn push_word<B: BaseText>(
    out: &mut String,
    spec: &Spec,
    field: &(Text, Ty),
    w: u32,
    x: &B::Word,
) -> Result<(), NoMemory>
    ensures { OnOk result (string_bytes out.new ≡ string_bytes out.old ++ lines.word_line B.texts (specification spec.now) field.now w x.now) }
{
    push_cell(out, spec, field, KeyAt::Whole)?;
    out.push_str(" ")?;
    B::push_word(out, w, x)?;
    out.push_str("\n")
}

/// Appends the line of a cell of a map.
pub(crate) fn push_line<B: BaseText>(
    out: &mut String,
    spec: &Spec,
    field: &(Text, Ty),
    key: KeyAt,
    w: u32,
    cell: (&B::Word, &B::Note),
) -> Result<(), NoMemory>
    ensures { OnOk result (string_bytes out.new ≡ string_bytes out.old ++ lines.cell_line B.texts (specification spec.now) field.now key w
        (record { word = cell.entry.0.now; note = cell.entry.1.now })) }
{
    push_cell(out, spec, field, key)?;
    out.push_str(" ")?;
    push_noted::<B>(out, w, cell)?;
    out.push_str("\n")
}

/// Appends the lines of the listed cells of a map.
fn push_listed<B: BaseText>(
    out: &mut String,
    spec: &Spec,
    field: &(Text, Ty),
    m: &AbstractMap<B>,
) -> Result<(), NoMemory>
    ensures { OnOk result (string_bytes out.new ≡ string_bytes out.old ++ lines.listed_lines B.texts (specification spec.now) field.now m.now.width
        m.now.cells) }
{
    for place in 0..m.listed() {
        let key = KeyAt::At(m.key_at(place));
        push_line::<B>(out, spec, field, key, m.width(), m.cell_at(place))?;
    }
    Ok(())
}

/// Appends the lines of a map.
fn push_map<B: BaseText>(
    out: &mut String,
    spec: &Spec,
    field: &(Text, Ty),
    m: &AbstractMap<B>,
) -> Result<(), NoMemory>
    ensures { OnOk result (string_bytes out.new ≡ string_bytes out.old ++ lines.map_lines B.texts (specification spec.now) field.now m.now) }
{
    push_line::<B>(out, spec, field, KeyAt::Rest, m.width(), m.rest())?;
    push_listed::<B>(out, spec, field, m)
}

/// Appends the lines of a field.
fn push_value<B: BaseText>(
    out: &mut String,
    spec: &Spec,
    field: &(Text, Ty),
    value: &AbstractValue<B>,
) -> Result<(), NoMemory>
    ensures { OnOk result (string_bytes out.new ≡ string_bytes out.old ++ lines.value_lines B.texts (specification spec.now) field.now (abs value.now)) }
{
    match value {
        AbstractValue::Word { w, x } => push_word::<B>(out, spec, field, *w, x),
        AbstractValue::Map { map: _map, m } => push_map::<B>(out, spec, field, m),
        _ => Ok(()),
    }
}

/// Appends the lines of fields, in their order.
fn push_fields<B: BaseText>(
    out: &mut String,
    spec: &Spec,
    fields: &[(Text, Ty)],
    values: &[AbstractValue<B>],
) -> Result<(), NoMemory>
    ensures { OnOk result (string_bytes out.new ≡ string_bytes out.old ++ lines.field_lines B.texts (specification spec.now) fields.now
        (parts (map abs values.now))) }
{
    for i in 0..fields.len().min(values.len()) {
        push_value::<B>(out, spec, &fields[i], &values[i])?;
    }
    Ok(())
}

/// Appends the lines of the fields of an element, which are those behind the counter.
pub(crate) fn push_cells<B: BaseText>(
    out: &mut String,
    spec: &Spec,
    values: &[AbstractValue<B>],
) -> Result<(), NoMemory>
    ensures { OnOk result (string_bytes out.new ≡ string_bytes out.old ++ lines.cell_lines B.texts (specification spec.now)
        (state_fields (specification spec.now)) (parts (map abs values.now))) }
{
    match state_fields(spec) {
        [] => Ok(()),
        [_counter, fields @ ..] => push_fields::<B>(out, spec, fields, values),
    }
}
