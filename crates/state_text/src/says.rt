//! What lines say.

ghost use Rattle.std.specs.Prelude.{◌≡◌, ◌≤◌, IfOk, Some, length, option_map};
ghost use Rattle.std.specs.List.{prefix_len};
ghost use Rattle.spec_ir.specs.Views.{specification};
ghost use Rattle.state_cell_text.specs.Places.{place_of};
ghost use Rattle.state_text.specs.Cuts.{cut_of};
ghost use Rattle.state_text.specs.Forms.{run, single};
ghost use Rattle.state_text.specs.Meaning as defined;
ghost use Rattle.state_text.specs.Parsing as parsing;
ghost use Rattle.state_text.specs.Said.{HasRoom, said_of};

use crate::cut::{CellSuffix, Cut, cut_line};
use crate::fault::EntryFault;
use crate::said::Said;
use crate::values::{given_fits, run_of, value_of};
use semantics_values::{GivenNumber, KeyAt};
use spec_ir::{Spec, Ty};
use state_cell_text::{Place, has_keys, key_number, place_of};
use std::alloc::{AllocError, Global};

/// What it says that a cell of w bits has a value.
fn cell(field: u32, w: u32, key: KeyAt, given: GivenNumber) -> Said
    ensures said { said_of result ≡ defined.sized given w (defined.cell field key given) }
    ensures room { HasRoom result }
{
    if given_fits(given, w) {
        Said::Cell { field, key, given }
    } else {
        Said::Faulty(EntryFault::TooBig)
    }
}

/// What it says that the cell of a map at a key, if it is one, has a value.
fn at_key(field: u32, w: u32, given: GivenNumber, key: Option<u64>) -> Said
    ensures said { said_of result ≡ defined.at_key field w given key }
    ensures room { HasRoom result }
{
    match key {
        Some(k) => cell(field, w, KeyAt::At(k), given),
        None => Said::Faulty(EntryFault::Unknown),
    }
}

/// What it says that a map has a value at what is written behind its name.
fn map_says(spec: &Spec, field: u32, key: Ty, width: u32, cut: &Cut, given: GivenNumber) -> Said
    ensures said { said_of result ≡ defined.single_says (specification spec.now) (Some (Place.Map field key width)) (cut_of cut.now).part given }
    ensures room { HasRoom result }
{
    match cut.part {
        CellSuffix::Rest => cell(field, width, KeyAt::Rest, given),
        CellSuffix::At(text) => at_key(field, width, given, key_number(spec, key, text)),
        CellSuffix::Whole | CellSuffix::From(_) => Said::Faulty(EntryFault::Unknown),
    }
}

/// What it says that the program counter has a value.
fn counter_says(given: GivenNumber) -> Said
    ensures said { said_of result ≡ defined.sized given 32 (defined.counter given) }
    ensures room { HasRoom result }
{
    if given_fits(given, 32) {
        Said::Counter(given)
    } else {
        Said::Faulty(EntryFault::TooBig)
    }
}

/// What it says that a cell, or the rest of a map, has a value.
fn single_says(spec: &Spec, cut: &Cut, given: GivenNumber) -> Said
    ensures said { said_of result ≡ defined.single_says (specification spec.now) (place_of (specification spec.now) (cut_of cut.now).name)
        (cut_of cut.now).part given }
    ensures room { HasRoom result }
{
    match place_of(spec, cut.name) {
        None => Said::Faulty(EntryFault::Unknown),
        Some(Place::Counter) => match cut.part {
            CellSuffix::Whole => counter_says(given),
            CellSuffix::Rest | CellSuffix::At(_) | CellSuffix::From(_) => Said::Faulty(
                EntryFault::Unknown,
            ),
        },
        Some(Place::Word { field, width }) => match cut.part {
            CellSuffix::Whole => cell(field, width, KeyAt::Whole, given),
            CellSuffix::Rest | CellSuffix::At(_) | CellSuffix::From(_) => Said::Faulty(
                EntryFault::Unknown,
            ),
        },
        Some(Place::Map { field, key, width }) => map_says(spec, field, key, width, cut, given),
    }
}

/// What it says that successive cells of a map have these bytes, from a key on, if it is one.
fn run_at(spec: &Spec, field: u32, key: Ty, bytes: Vec<u8>, first: Option<u64>) -> Said
    ensures said { said_of result ≡ defined.run_at (specification spec.now) field key bytes.items first }
    ensures room { HasRoom result }
{
    match first {
        None => Said::Faulty(EntryFault::Unknown),
        Some(first) => {
            let Some(end) = first.checked_add(bytes.len() as u64) else {
                return Said::Faulty(EntryFault::Unknown);
            };
            if has_keys(spec, key, end) {
                Said::Run {
                    field,
                    first,
                    bytes,
                }
            } else {
                Said::Faulty(EntryFault::Unknown)
            }
        }
    }
}

/// What it says that the cells of a map from the key of a text on have these bytes.
fn run_says(spec: &Spec, name: &[u8], text: &[u8], bytes: Vec<u8>) -> Said
    ensures said { said_of result ≡ defined.run_says (specification spec.now) (place_of (specification spec.now) name.now) text.now bytes.items }
    ensures room { HasRoom result }
{
    match place_of(spec, name) {
        Some(Place::Map { field, key, width }) => {
            if width == 8 {
                run_at(spec, field, key, bytes, key_number(spec, key, text))
            } else {
                Said::Faulty(EntryFault::Unknown)
            }
        }
        Some(Place::Counter | Place::Word { .. }) => Said::Faulty(EntryFault::Unknown),
        None => Said::Faulty(EntryFault::Unknown),
    }
}

/// What a line says of one cell, or of the rest of a map, by the text of its value.
fn value_says(spec: &Spec, cut: &Cut, value: &[u8]) -> Said
    ensures said { said_of result ≡ defined.form_says (specification spec.now)
        (option_map (single (cut_of cut.now).name (cut_of cut.now).part) (parsing.value_of value.now)) }
    ensures room { HasRoom result }
{
    match value_of(value) {
        None => Said::Faulty(EntryFault::Form),
        Some(given) => single_says(spec, cut, given),
    }
}

/// What a line says of a run of cells, by the text of its bytes.
fn bytes_say(
    alloc: Global,
    spec: &Spec,
    name: &[u8],
    text: &[u8],
    value: &[u8],
) -> Result<Said, AllocError>
    ensures said { IfOk result (λ s. said_of s ≡ defined.form_says (specification spec.now) (option_map (run name.now text.now) (parsing.run_of value.now))) }
    ensures room { IfOk result (λ s. HasRoom s) }
{
    match run_of(alloc, value)? {
        None => Ok(Said::Faulty(EntryFault::Form)),
        Some(bytes) => Ok(run_says(spec, name, text, bytes)),
    }
}

/// What a line says, by its cell and the text of its value.
fn formed_says(alloc: Global, spec: &Spec, cut: &Cut, value: &[u8]) -> Result<Said, AllocError>
    ensures said { IfOk result (λ s. said_of s ≡ defined.form_says (specification spec.now)
        (parsing.formed (cut_of cut.now).name (cut_of cut.now).part value.now)) }
    ensures room { IfOk result (λ s. HasRoom s) }
{
    match cut.part {
        CellSuffix::From(text) => bytes_say(alloc, spec, cut.name, text, value),
        CellSuffix::Whole => Ok(value_says(spec, cut, value)),
        CellSuffix::Rest => Ok(value_says(spec, cut, value)),
        CellSuffix::At(_) => Ok(value_says(spec, cut, value)),
    }
}

/// The number of spaces that the bytes begin with.
fn spaces_len(bytes: &[u8]) -> usize
    ensures count { result ≡ prefix_len parsing.is_space bytes.now }
    ensures bound { result ≤ length bytes.now }
{
    bytes.iter().take_while(|byte| **byte == b' ').count()
}

/// What a line says, by its cell and what follows.
fn after_cell(alloc: Global, spec: &Spec, cut: &Cut) -> Result<Said, AllocError>
    ensures said { IfOk result (λ s. said_of s ≡ defined.form_says (specification spec.now) (parsing.after_cell (Some (cut_of cut.now)))) }
    ensures room { IfOk result (λ s. HasRoom s) }
{
    let spaces = spaces_len(cut.after);
    if spaces == 0 {
        return Ok(Said::Faulty(EntryFault::Form));
    }
    formed_says(alloc, spec, cut, &cut.after[spaces..])
}

/// What a line that is not passed over says.
fn cell_line(alloc: Global, spec: &Spec, line: &[u8]) -> Result<Said, AllocError>
    ensures said { IfOk result (λ s. said_of s ≡ defined.form_says (specification spec.now) (parsing.form line.now)) }
    ensures room { IfOk result (λ s. HasRoom s) }
{
    match cut_line(line) {
        None => Ok(Said::Faulty(EntryFault::Form)),
        Some(cut) => after_cell(alloc, spec, &cut),
    }
}

/// What a line says. Empty lines and lines that begin with `#` say nothing.
pub(crate) fn read_line(alloc: Global, spec: &Spec, line: &[u8]) -> Result<Said, AllocError>
    ensures said { IfOk result (λ s. said_of s ≡ defined.said (specification spec.now) line.now) }
    ensures room { IfOk result (λ s. HasRoom s) }
{
    match line.first() {
        None => Ok(Said::Nothing),
        Some(b'#') => Ok(Said::Nothing),
        Some(_) => cell_line(alloc, spec, line),
    }
}
