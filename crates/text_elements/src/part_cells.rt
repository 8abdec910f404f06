//! The elements of a part of cells over a pair.

ghost use Rattle.std.specs.Prelude.{◌≡◌, ◌++◌, OnOk, map};
ghost use Rattle.std.specs.String.{string_bytes};
ghost use Rattle.spec_ir.specs.Views.{specification};
ghost use Rattle.abstract_value_laws.specs.Abs.{parts};
ghost use Rattle.abstract_value.specs.View.{abs};
ghost use Rattle.state_cell_text.specs.Places.{state_fields};
ghost use Rattle.text_elements.specs.Cells as lines;
ghost use Rattle.domain_product_laws.specs.Calls.{mapped_cells, mapped_map, mapped_parts, mapped_value};

use crate::cells::{push_line, push_word};
use abstract_map::AbstractMap;
use abstract_value::AbstractValue;
use domain_product_maps::ProductPart;
use semantics_values::KeyAt;
use spec_ir::{Spec, Ty};
use state_cell_text::state_fields;
use std::alloc::AllocError as NoMemory;
use syntax_lexer::Text;
use text_words::BaseText;

/// Appends the lines of the parts of the listed cells of a map.
fn push_listed_part<P: ProductPart>(
    out: &mut String,
    spec: &Spec,
    field: &(Text, Ty),
    m: &AbstractMap<P::From>,
) -> Result<(), NoMemory>
where
    P::To: BaseText,
    ensures { OnOk result (string_bytes out.new ≡ string_bytes out.old ++ lines.listed_lines P.To.texts (specification spec.now) field.now m.now.width (mapped_cells P.word_of P.note_of m.now.cells)) }
{
    for place in 0..m.listed() {
        let key = KeyAt::At(m.key_at(place));
        let (word, note) = m.cell_at(place);
        let cell = (P::word_in(word), P::note_in(note));
        push_line::<P::To>(out, spec, field, key, m.width(), cell)?;
    }
    Ok(())
}

/// Appends the lines of the part of a map.
fn push_map_part<P: ProductPart>(
    out: &mut String,
    spec: &Spec,
    field: &(Text, Ty),
    m: &AbstractMap<P::From>,
) -> Result<(), NoMemory>
where
    P::To: BaseText,
    ensures { OnOk result (string_bytes out.new ≡ string_bytes out.old ++ lines.map_lines P.To.texts (specification spec.now) field.now (mapped_map P.word_of P.note_of m.now)) }
{
    let (word, note) = m.rest();
    let rest = (P::word_in(word), P::note_in(note));
    push_line::<P::To>(out, spec, field, KeyAt::Rest, m.width(), rest)?;
    push_listed_part::<P>(out, spec, field, m)
}

/// Appends the lines of the part of a field.
fn push_value_part<P: ProductPart>(
    out: &mut String,
    spec: &Spec,
    field: &(Text, Ty),
    value: &AbstractValue<P::From>,
) -> Result<(), NoMemory>
where
    P::To: BaseText,
    ensures { OnOk result (string_bytes out.new ≡ string_bytes out.old ++ lines.value_lines P.To.texts (specification spec.now) field.now (mapped_value P.word_of P.note_of (abs value.now))) }
{
    match value {
        AbstractValue::Word { w, x } => push_word::<P::To>(out, spec, field, *w, P::word_in(x)),
        AbstractValue::Map { map: _map, m } => push_map_part::<P>(out, spec, field, m),
        _ => Ok(()),
    }
}

/// Appends the lines of the parts of fields, in their order.
fn push_fields_part<P: ProductPart>(
    out: &mut String,
    spec: &Spec,
    fields: &[(Text, Ty)],
    values: &[AbstractValue<P::From>],
) -> Result<(), NoMemory>
where
    P::To: BaseText,
    ensures { OnOk result (string_bytes out.new ≡ string_bytes out.old ++ lines.field_lines P.To.texts (specification spec.now) fields.now (mapped_parts P.word_of P.note_of (parts (map abs values.now)))) }
{
    for i in 0..fields.len().min(values.len()) {
        push_value_part::<P>(out, spec, &fields[i], &values[i])?;
    }
    Ok(())
}

/// Appends the lines of the part of an element, whose fields are those behind the counter.
pub(crate) fn push_cells_part<P: ProductPart>(
    out: &mut String,
    spec: &Spec,
    values: &[AbstractValue<P::From>],
) -> Result<(), NoMemory>
where
    P::To: BaseText,
    ensures { OnOk result (string_bytes out.new ≡ string_bytes out.old ++ lines.cell_lines P.To.texts (specification spec.now) (state_fields (specification spec.now)) (mapped_parts P.word_of P.note_of (parts (map abs values.now)))) }
{
    match state_fields(spec) {
        [] => Ok(()),
        [_counter, fields @ ..] => push_fields_part::<P>(out, spec, fields, values),
    }
}
