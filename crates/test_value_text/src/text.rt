//! Values as text.

use abstract_map::AbstractMap;
use abstract_value::{AbstractValue, Constructors};
use base_trait::Tri;
use spec_ir::Spec;
use std::alloc::AllocError as NoMemory;
use text_words::{BaseText, push_noted};

fn flag_text(t: Tri) -> &'static str {
    match (t.may_true, t.may_false) {
        (true, true) => "true or false",
        (true, false) => "true",
        (false, true) => "false",
        (false, false) => "neither",
    }
}

/// Appends the rest of a map and its listed cells.
fn push_map<B: BaseText>(out: &mut String, m: &AbstractMap<B>) -> Result<(), NoMemory> {
    out.push_str("[")?;
    push_noted::<B>(out, m.width(), m.rest())?;
    for place in 0..m.listed() {
        write!(out, "; {} ", m.key_at(place))?;
        push_noted::<B>(out, m.width(), m.cell_at(place))?;
    }
    out.push_str("]")
}

/// Appends a value that is no constructor's.
fn push_leaf<B: BaseText>(out: &mut String, v: &AbstractValue<B>) -> Result<(), NoMemory> {
    match v {
        AbstractValue::Flag(t) => out.push_str(flag_text(*t)),
        AbstractValue::Word { w, x } => B::push_word(out, *w, x),
        AbstractValue::Map { map: _map, m } => push_map(out, m),
        AbstractValue::Data {
            ty: _ty,
            cases: _cases,
        } => out.push_str("?"),
    }
}

/// Appends the values of fields, if any, in parentheses.
fn push_fields<B: BaseText>(out: &mut String, fields: &[AbstractValue<B>]) -> Result<(), NoMemory> {
    if fields.is_empty() {
        return Ok(());
    }
    let mut mark = "(";
    for v in fields {
        out.push_str(mark)?;
        push_leaf(out, v)?;
        mark = ", ";
    }
    out.push_str(")")
}

/// The name of a constructor, by the numbers of its datatype and its own.
fn case_name(spec: &Spec, ty: u32, number: usize) -> Option<&str> {
    let data = spec.datas.get(ty as usize)?;
    Some(data.cases.get(number)?.name.as_str())
}

/// Appends the constructors that are present.
fn push_data<B: BaseText>(
    out: &mut String,
    spec: &Spec,
    ty: u32,
    cases: &Constructors<AbstractValue<B>>,
) -> Result<(), NoMemory> {
    let mut mark = "";
    for number in 0..cases.len() {
        if let Some(fields) = cases.fields(number) {
            write!(out, "{mark}{}", case_name(spec, ty, number).unwrap_or("?"))?;
            push_fields(out, fields)?;
            mark = " + ";
        }
    }
    Ok(())
}

/// Appends a value.
pub fn push_value<B: BaseText>(
    out: &mut String,
    spec: &Spec,
    v: &AbstractValue<B>,
) -> Result<(), NoMemory> {
    match v {
        AbstractValue::Data { ty, cases } => push_data(out, spec, *ty, cases),
        _ => push_leaf(out, v),
    }
}
