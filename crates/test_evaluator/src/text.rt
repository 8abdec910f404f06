//! What calls give as text.

use abstract_value::AbstractValue;
use base_trait::{Log, Use};
use eval_memo::EvalError;
use spec_ir::Spec;
use std::alloc::AllocError as NoMemory;
use test_value_text::push_value;
use text_words::{BaseText, push_stamps};

/// Appends a value, or that there is none, and a line end.
fn push_found<B: BaseText>(
    out: &mut String,
    spec: &Spec,
    found: &Option<AbstractValue<B>>,
) -> Result<(), NoMemory> {
    match found {
        Some(v) => push_value(out, spec, v)?,
        None => out.push_str("none")?,
    }
    out.push_str("\n")
}

/// The name of a function, by its number.
fn function_name(spec: &Spec, function: u32) -> &str {
    match spec.funs.get(function as usize) {
        Some(fun) => fun.name.as_str(),
        None => "?",
    }
}

/// The name of a map type, by its number.
fn map_name(spec: &Spec, map: u32) -> &str {
    match spec.maps.get(map as usize) {
        Some(ty) => ty.name.as_str(),
        None => "?",
    }
}

/// Appends a read, as a line.
fn push_read(out: &mut String, spec: &Spec, of: &Use) -> Result<(), NoMemory> {
    let name = map_name(spec, of.map);
    match of.key {
        Some(key) => write!(out, "      read {name}[{key}]")?,
        None => write!(out, "      read {name}[*]")?,
    }
    push_stamps(out, &of.from)?;
    out.push_str("\n")
}

/// Appends what a call gave: a value or none, with its reads, each as a line; or that an activation was deep.
pub(crate) fn push_given<B: BaseText>(
    out: &mut String,
    spec: &Spec,
    given: &Result<Option<AbstractValue<B>>, EvalError>,
    log: &Log,
) -> Result<(), NoMemory> {
    match given {
        Ok(found) => push_found(out, spec, found)?,
        Err(EvalError::OutOfFuel { function }) => {
            return writeln!(out, "deep {}", function_name(spec, *function));
        }
        Err(EvalError::NoMemory) => return Err(NoMemory),
    }
    for of in &log.uses {
        push_read(out, spec, of)?;
    }
    Ok(())
}
