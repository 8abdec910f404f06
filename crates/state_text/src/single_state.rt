//! The one state of an entry.

ghost use Rattle.std.specs.Prelude.{◌≡◌, ◌++◌, IfOk, OnOk, map, slice_get};
ghost use Rattle.std.specs.Option.{option_copied};
ghost use Rattle.std.specs.String.{string_bytes};
ghost use Rattle.spec_ir.specs.Views.{specification};
ghost use Rattle.semantics_values.specs.Types.{environment_of};
ghost use Rattle.semantics_values.specs.Views.{val};
ghost use Rattle.semantics.specs.Entries as entries;
ghost use Rattle.state_cell_text.specs.Places.{state_fields};
ghost use Rattle.state_text.specs.OneState as defined;
ghost use Rattle.state_text.specs.Reading.{entry_of};

use crate::entry_error::EntryError;
use crate::given_cells::is_key;
use crate::values::single_number;
use semantics_values::{Cell, Entry, GivenNumber, KeyAt, Line, MapValue, Stamp, State, Value};
use spec_ir::{MapType, Spec, Ty};
use state_cell_text::{push_cell, state_fields};
use std::alloc::{AllocError, Global};
use std::collections::BTreeMap;
use syntax_lexer::Text;

/// The first line that does not give one number.
fn first_open(lines: &[Line]) -> Option<Line>
    ensures { result ≡ defined.first_open lines.now }
{
    for line in lines {
        if single_number(line.given).is_none() {
            return Some(*line);
        }
    }
    None
}

/// A field of the states, by its number.
fn field_at(spec: &Spec, n: u32) -> Option<&(Text, Ty)>
    ensures { option_copied result ≡ slice_get (state_fields (specification spec.now)) n }
{
    state_fields(spec).get(n as usize)
}

/// Appends the cell of a line, as a state prints it.
fn push_cell_of(out: &mut String, spec: &Spec, line: Line) -> Result<(), AllocError>
    ensures { OnOk result (string_bytes out.new ≡ string_bytes out.old ++ defined.cell_of (specification spec.now)
        (slice_get (state_fields (specification spec.now)) line.field) line.key) }
{
    match field_at(spec, line.field) {
        Some(field) => push_cell(out, spec, field, line.key),
        None => Ok(()),
    }
}

/// The cell of a line, as a state prints it.
fn cell_of(alloc: Global, spec: &Spec, line: Line) -> Result<Text, AllocError>
    ensures { IfOk result (λ r. r ≡ defined.cell_of (specification spec.now) (slice_get (state_fields (specification spec.now)) line.field) line.key) }
{
    let mut out = String::new(alloc);
    push_cell_of(&mut out, spec, line)?;
    Text::from_str(alloc, out.as_str())
}

/// The number that is given: where there is none, 0; of a range, the first.
fn one_number(given: GivenNumber) -> u64
    ensures { result ≡ entries.one_number given }
{
    match given {
        GivenNumber::One(v) => v,
        GivenNumber::Any => 0,
        GivenNumber::Range { lo, hi: _hi } => lo,
    }
}

/// The number that lines give a part of a field, or else another.
fn number_at(lines: &[Line], field: usize, key: KeyAt, other: u64) -> u64
    ensures { result ≡ entries.one_number (entries.given_or (entries.given_at lines.now field key) (GivenNumber.One other)) }
{
    for line in lines {
        if line.field as usize == field && is_key(line.key, key) {
            return one_number(line.given);
        }
    }
    other
}

/// Puts the cell of a line, if it is one of the field at a key.
#[tactic(auto, using(crate::proofs::Sorting::insert_is_put))]
fn put_line(cells: &mut BTreeMap<u64, Cell>, line: Line, field: usize) -> Result<(), AllocError>
    ensures { OnOk result (cells.new.entries ≡ defined.named_with line field cells.old.entries) }
{
    if line.field as usize != field {
        return Ok(());
    }
    match line.key {
        KeyAt::At(k) => {
            cells.insert(k, entry_cell(one_number(line.given)))?;
            Ok(())
        }
        KeyAt::Whole => Ok(()),
        KeyAt::Rest => Ok(()),
    }
}

/// The cells of a field that lines name, in the order of their keys.
fn named_cells(alloc: Global, lines: &[Line], field: usize) -> Result<Vec<(u64, Cell)>, AllocError>
    ensures { IfOk result (λ r. r.items ≡ entries.named_cells lines.now field) }
{
    let mut cells = BTreeMap::new(alloc);
    for i in 0..lines.len() {
        put_line(&mut cells, lines[lines.len() - 1 - i], field)?;
    }
    listed_entries(alloc, &cells)
}

/// The entries of a map in their order.
fn listed_entries(
    alloc: Global,
    cells: &BTreeMap<u64, Cell>,
) -> Result<Vec<(u64, Cell)>, AllocError>
    ensures { IfOk result (λ r. r.items ≡ cells.now.entries) }
{
    let mut out = Vec::new(alloc);
    for (key, cell) in cells {
        out.push((*key, *cell))?;
    }
    Ok(out)
}

/// A cell at the entry.
fn entry_cell(v: u64) -> Cell
    ensures { result ≡ entries.entry_cell v }
{
    Cell {
        v,
        stamp: Stamp::Entry,
    }
}

/// A map type, by its number.
fn map_type(spec: &Spec, number: u32) -> Option<&MapType>
    ensures { option_copied result ≡ slice_get (specification spec.now).maps number }
{
    spec.maps.get(number as usize)
}

/// A map field.
fn entry_map(
    alloc: Global,
    spec: &Spec,
    lines: &[Line],
    field: usize,
    number: u32,
) -> Result<Value, AllocError>
    ensures { IfOk result (λ r. val r ≡ entries.entry_map (environment_of (specification spec.now)) lines.now field number
        (slice_get (specification spec.now).maps number)) }
{
    match map_type(spec, number) {
        Some(ty) => Ok(Value::Map(MapValue {
            map: number,
            rest: entry_cell(number_at(lines, field, KeyAt::Rest, ty.default)),
            cells: named_cells(alloc, lines, field)?,
        })),
        None => Ok(Value::Map(MapValue {
            map: number,
            rest: entry_cell(0),
            cells: Vec::new(alloc),
        })),
    }
}

/// A field behind the program counter.
fn entry_field(
    alloc: Global,
    spec: &Spec,
    lines: &[Line],
    field: usize,
    ty: Ty,
) -> Result<Value, AllocError>
    ensures { IfOk result (λ r. val r ≡ entries.entry_field (environment_of (specification spec.now)) lines.now field ty) }
{
    match ty {
        Ty::Word(w) => Ok(Value::Word {
            w,
            v: number_at(lines, field, KeyAt::Whole, 0),
        }),
        Ty::Map(map) => entry_map(alloc, spec, lines, field, map),
        Ty::Bool | Ty::Data(_) => Ok(Value::Word { w: 1, v: 0 }),
    }
}

/// The fields behind the program counter.
fn entry_fields(alloc: Global, spec: &Spec, lines: &[Line]) -> Result<Vec<Value>, AllocError>
    ensures { IfOk result (λ r. map val r.items ≡ entries.entry_fields (environment_of (specification spec.now)) lines.now 1
        (defined.types_behind (state_fields (specification spec.now)))) }
{
    let fields = state_fields(spec);
    let mut out = Vec::new(alloc);
    for i in 1..fields.len() {
        out.push(entry_field(alloc, spec, lines, i, fields[i].1)?)?;
    }
    Ok(out)
}

/// The one state that an entry describes, if it gives each cell that it names one number; else the first cell that it
/// doesn't give one.
pub fn one_state(alloc: Global, spec: &Spec, entry: &Entry) -> Result<State, EntryError>
    ensures { defined.Agrees result (defined.one_state (specification spec.now) (entry_of entry.now)) }
{
    if let Some(line) = first_open(&entry.lines) {
        let cell = cell_of(alloc, spec, line)?;
        return Err(EntryError::NotOne { cell });
    }
    let parts = entry_fields(alloc, spec, &entry.lines)?;
    Ok(State {
        pc: entry.pc,
        parts,
    })
}
