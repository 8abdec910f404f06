//! What a case gives.

use super::text::{bytes_of, shown};
use semantics_values::State;
use spec_ir::Spec;
use state_text::{EntryError, Stop, one_state, read_entry, state_text, stopped_text};
use std::alloc::{AllocError, Global};

/// What the case of a line gives.
pub(crate) fn answer(
    alloc: Global,
    machines: &[Spec; 3],
    line: &str,
) -> Result<String, AllocError> {
    let Some((machine, rest)) = line.split_once(' ') else {
        return no_case(alloc);
    };
    let Some((call, rest)) = rest.split_once(' ') else {
        return no_case(alloc);
    };
    match machine {
        "mini" => called(alloc, &machines[0], call, rest),
        "ppc" => called(alloc, &machines[1], call, rest),
        "wide" => called(alloc, &machines[2], call, rest),
        _ => no_case(alloc),
    }
}

fn no_case(alloc: Global) -> Result<String, AllocError> {
    format!(in alloc; "no case")
}

fn called(alloc: Global, spec: &Spec, call: &str, rest: &str) -> Result<String, AllocError> {
    if call == "entry" {
        return of_entry(alloc, spec, bytes_of(alloc, rest)?.as_slice());
    }
    let Some((done, rest)) = rest.split_once(' ') else {
        return no_case(alloc);
    };
    let Ok(done) = done.parse::<u64>() else {
        return no_case(alloc);
    };
    of_stop(alloc, spec, call, done, bytes_of(alloc, rest)?.as_slice())
}

/// The line of a fault, without its end.
fn refused(alloc: Global, error: &EntryError) -> Result<String, AllocError> {
    let line = error.fault_line(alloc)?;
    format!(in alloc; "{}", line.as_str().trim())
}

/// What an entry gives: the one state, or the line of its fault.
fn of_entry(alloc: Global, spec: &Spec, bytes: &[u8]) -> Result<String, AllocError> {
    if bytes.len() > 100_000 {
        return no_case(alloc);
    }
    let entry = match read_entry(alloc, spec, bytes) {
        Ok(entry) => entry,
        Err(error) => return refused(alloc, &error),
    };
    match one_state(alloc, spec, &entry) {
        Ok(state) => of_state(alloc, spec, entry.lines.len(), &state),
        Err(error) => refused(alloc, &error),
    }
}

/// How many cells are given, and the text of their state.
fn of_state(alloc: Global, spec: &Spec, cells: usize, state: &State) -> Result<String, AllocError> {
    let text = state_text(alloc, spec, state)?;
    let text = shown(alloc, &text)?;
    format!(in alloc; "{cells} cells: {}", text.as_str())
}

/// A stop of this name, at the program counter.
fn stop_named(name: &str, at: u32) -> Option<Stop> {
    match name {
        "bound" => Some(Stop::Bound),
        "left" => Some(Stop::Left),
        "undecodable" => Some(Stop::Undecodable {
            at,
            word: 0x00ba_d001,
        }),
        "calls" => Some(Stop::Turns { at }),
        _ => None,
    }
}

/// The text of a stop at the one state of an entry.
fn of_stop(
    alloc: Global,
    spec: &Spec,
    name: &str,
    done: u64,
    bytes: &[u8],
) -> Result<String, AllocError> {
    if bytes.len() > 100_000 {
        return no_case(alloc);
    }
    let Ok(entry) = read_entry(alloc, spec, bytes) else {
        return no_case(alloc);
    };
    let Ok(state) = one_state(alloc, spec, &entry) else {
        return no_case(alloc);
    };
    let Some(stop) = stop_named(name, state.pc) else {
        return no_case(alloc);
    };
    let text = stopped_text(alloc, spec, stop, done, &state)?;
    shown(alloc, &text)
}
