//! What the lines of an entry give.

ghost use Rattle.std.specs.Prelude.{◌≡◌, ◌+◌, ◌<◌, ◌^◌, ◌∷◌, ◌++◌, [], OnOk, length, map, true};
ghost use Rattle.semantics.specs.Entries.{is_key};
ghost use Rattle.state_text.specs.Found.{Gives, IsKept, found_of};
ghost use Rattle.state_text.specs.Meaning.{given_fits, run_cells};
ghost use Rattle.state_text.specs.Reading as defined;
ghost use Rattle.state_text.specs.Said.{HasRoom, said_of};

use crate::entry_error::EntryError;
use crate::said::Said;
use semantics_values::{GivenNumber, KeyAt, Line};
use std::alloc::{AllocError, Global};
use std::collections::BTreeSet;

/// What lines give of the program counter and of other cells, with the fields and keys of those cells that are at a
/// key.
#[derive(Drop)]
pub(crate) struct GivenCells {
    pub counter: Option<GivenNumber>,
    pub lines: Vec<Line>,
    pub keys: BTreeSet<(u32, u64)>,
}

/// What no line gives.
pub(crate) fn none_found(alloc: Global) -> GivenCells
    ensures found { found_of result ≡ defined.none_found }
    ensures kept { IsKept result }
{
    GivenCells {
        counter: None,
        lines: Vec::new(alloc),
        keys: BTreeSet::new(alloc),
    }
}

/// Whether two parts of a field are the same.
pub(crate) fn is_key(a: KeyAt, b: KeyAt) -> bool
    ensures { result ≡ is_key a b }
{
    match (a, b) {
        (KeyAt::Whole, KeyAt::Whole) => true,
        (KeyAt::Rest, KeyAt::Rest) => true,
        (KeyAt::At(j), KeyAt::At(k)) => j == k,
        _ => false,
    }
}

/// Whether a line gives a cell.
fn is_among(lines: &[Line], field: u32, key: KeyAt) -> bool
    ensures { result ≡ defined.is_given lines.now field key }
{
    for line in lines {
        if line.field == field && is_key(line.key, key) {
            return true;
        }
    }
    false
}

/// Whether a cell is given. Only what is at no key, of which each field has one cell, is looked for line by line.
fn is_given(found: &GivenCells, field: u32, key: KeyAt) -> bool
    requires { IsKept found.now }
    ensures { result ≡ defined.is_given (found_of found.now).lines field key }
{
    match key {
        KeyAt::At(k) => found.keys.contains(&(field, k)),
        KeyAt::Whole | KeyAt::Rest => is_among(&found.lines, field, key),
    }
}

/// Adds a line.
fn give(found: &mut GivenCells, line: Line) -> Result<(), AllocError>
    requires { IsKept found.old }
    ensures lines { OnOk result (found.new.lines.items ≡ found.old.lines.items ++ line ∷ []) }
    ensures counter { OnOk result (found.new.counter ≡ found.old.counter) }
    ensures kept { OnOk result (IsKept found.new) }
{
    found.lines.push(line)?;
    match line.key {
        KeyAt::At(k) => {
            found.keys.insert((line.field, k))?;
            Ok(())
        }
        KeyAt::Whole => Ok(()),
        KeyAt::Rest => Ok(()),
    }
}

/// Adds line number n, which gives a cell.
fn with_cell(
    found: &mut GivenCells,
    n: u32,
    field: u32,
    key: KeyAt,
    given: GivenNumber,
) -> Result<(), EntryError>
    requires { IsKept found.old }
    ensures gives { Gives result (found_of found.new) (defined.with_cells n field ((key, given) ∷ []) (found_of found.old)) }
    ensures kept { OnOk result (IsKept found.new) }
{
    if is_given(found, field, key) {
        return Err(EntryError::Twice { n });
    }
    give(
        found,
        Line {
            field,
            key,
            given,
            line: n,
        },
    )?;
    Ok(())
}

/// Whether one of so many cells of a map from a key on is given.
#[tactic(auto, using(crate::proofs::Runs::any_at))]
fn any_given(found: &GivenCells, field: u32, first: u64, bytes: &[u8]) -> bool
    requires kept { IsKept found.now }
    requires room { first + length bytes.now < 2 ^ 64 }
    ensures { result ≡ defined.any_given (found_of found.now).lines field (run_cells first bytes.now) }
{
    for i in 0..bytes.len() {
        if is_given(found, field, KeyAt::At(first + i as u64)) {
            return true;
        }
    }
    false
}

/// Adds line number n, which gives bytes to the cells of a map from a key on.
fn give_run(
    found: &mut GivenCells,
    n: u32,
    field: u32,
    first: u64,
    bytes: &[u8],
) -> Result<(), AllocError>
    requires kept { IsKept found.old }
    requires room { first + length bytes.now < 2 ^ 64 }
    ensures lines { OnOk result (found.new.lines.items ≡ found.old.lines.items ++ map (defined.line_of n field) (run_cells first bytes.now)) }
    ensures counter { OnOk result (found.new.counter ≡ found.old.counter) }
    ensures kept { OnOk result (IsKept found.new) }
{
    for i in 0..bytes.len() {
        let key = KeyAt::At(first + i as u64);
        let given = GivenNumber::One(u64::from(bytes[i]));
        give(
            found,
            Line {
                field,
                key,
                given,
                line: n,
            },
        )?;
    }
    Ok(())
}

/// Adds line number n, which gives bytes to the cells of a map from a key on, none of which is given.
fn with_run(
    found: &mut GivenCells,
    n: u32,
    field: u32,
    first: u64,
    bytes: &[u8],
) -> Result<(), EntryError>
    requires kept { IsKept found.old }
    requires room { first + length bytes.now < 2 ^ 64 }
    ensures gives { Gives result (found_of found.new) (defined.with_cells n field (run_cells first bytes.now) (found_of found.old)) }
    ensures kept { OnOk result (IsKept found.new) }
{
    if any_given(found, field, first, bytes) {
        return Err(EntryError::Twice { n });
    }
    give_run(found, n, field, first, bytes)?;
    Ok(())
}

/// Adds line number n, which gives the program counter.
fn with_counter(found: &mut GivenCells, n: u32, given: GivenNumber) -> Result<(), EntryError>
    requires kept { IsKept found.old }
    requires small { given_fits given 32 ≡ true }
    ensures gives { Gives result (found_of found.new) (defined.with_counter n given (found_of found.old)) }
    ensures kept { OnOk result (IsKept found.new) }
{
    if found.counter.is_some() {
        return Err(EntryError::Twice { n });
    }
    found.counter = Some(given);
    Ok(())
}

/// Adds line number n, by what it says.
pub(crate) fn with_line(found: &mut GivenCells, n: u32, said: &Said) -> Result<(), EntryError>
    requires kept { IsKept found.old }
    requires room { HasRoom said.now }
    ensures gives { Gives result (found_of found.new) (defined.with_line n (said_of said.now) (found_of found.old)) }
    ensures kept { OnOk result (IsKept found.new) }
{
    match said {
        Said::Nothing => Ok(()),
        Said::Faulty(fault) => Err(fault.at(n)),
        Said::Counter(given) => with_counter(found, n, *given),
        Said::Cell { field, key, given } => with_cell(found, n, *field, *key, *given),
        Said::Run {
            field,
            first,
            bytes,
        } => with_run(found, n, *field, *first, bytes),
    }
}
