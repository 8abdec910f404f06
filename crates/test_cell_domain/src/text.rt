//! Elements over sets as text.

use abstract_map::AbstractMap;
use abstract_value::AbstractValue;
use base_kset::{KSet, Set};
use std::alloc::{AllocError as NoMemory, Global};

/// A set: its numbers, or `any`.
fn set(alloc: Global, out: &mut String, x: &Set<2>) -> Result<(), NoMemory> {
    if x.is_any() {
        return out.push_str("any");
    }
    let mut mark = "{";
    for n in x.items() {
        let part = format!(in alloc; "{mark}{n}")?;
        out.push_str(part.as_str())?;
        mark = ",";
    }
    out.push_str("}")
}

/// A map: its rest, and the cell of each listed key.
fn map(alloc: Global, out: &mut String, m: &AbstractMap<KSet<2>>) -> Result<(), NoMemory> {
    out.push_str("[*")?;
    set(alloc, out, m.rest().0)?;
    for place in 0..m.listed() {
        let part = format!(in alloc; " {}", m.key_at(place))?;
        out.push_str(part.as_str())?;
        set(alloc, out, m.cell_at(place).0)?;
    }
    out.push_str("]")
}

/// A value that is a word or a map.
fn value(alloc: Global, out: &mut String, v: &AbstractValue<KSet<2>>) -> Result<(), NoMemory> {
    match v {
        AbstractValue::Word { w: _w, x } => set(alloc, out, x),
        AbstractValue::Map { map: _map, m } => map(alloc, out, m),
        _ => out.push_str("?"),
    }
}

/// The values of an element behind a word that says what it is, as a line.
pub(crate) fn push_element(
    alloc: Global,
    out: &mut String,
    what: &str,
    values: &[AbstractValue<KSet<2>>],
) -> Result<(), NoMemory> {
    out.push_str("    ")?;
    out.push_str(what)?;
    for v in values {
        out.push_str(" ")?;
        value(alloc, out, v)?;
    }
    out.push_str("\n")
}

/// Two tests and two ranks, as a line.
pub(crate) fn push_tests(
    alloc: Global,
    out: &mut String,
    absorbs: (bool, bool),
    ranks: (u64, u64),
) -> Result<(), NoMemory> {
    let tests = format!(in alloc; "    absorbs {} {}", absorbs.0, absorbs.1)?;
    out.push_str(tests.as_str())?;
    let ranks = format!(in alloc; " ranks {} {}\n", ranks.0, ranks.1)?;
    out.push_str(ranks.as_str())
}

/// A state value, as a line: the fields of each constructor that is present.
pub(crate) fn push_state(
    alloc: Global,
    out: &mut String,
    v: &AbstractValue<KSet<2>>,
) -> Result<(), NoMemory> {
    let AbstractValue::Data { ty: _ty, cases } = v else {
        return out.push_str("    opened?\n");
    };
    for number in 0..cases.len() {
        if let Some(fields) = cases.fields(number) {
            push_element(alloc, out, "opened", fields)?;
        }
    }
    Ok(())
}
