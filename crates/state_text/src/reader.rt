//! Reading entries.

ghost use Rattle.std.specs.Prelude.{◌≡◌, ◌<◌, ◌^◌, ◌-◌, length};
ghost use Rattle.spec_ir.specs.Views.{specification};
ghost use Rattle.state_text.specs.Found.{IsSmall, found_of};
ghost use Rattle.state_text.specs.Reading as defined;

use crate::entry_error::EntryError;
use crate::given_cells::{GivenCells, none_found, with_line};
use crate::lines::first_line;
use crate::says::read_line;
use crate::values::single_number;
use semantics_values::Entry;
use spec_ir::Spec;
use std::alloc::Global;

/// The entry of what lines give.
fn entry_found(found: GivenCells) -> Result<Entry, EntryError>
    requires { IsSmall found.counter }
    ensures { defined.Agrees result (defined.entry_found (found_of found)) }
{
    let GivenCells {
        counter,
        lines,
        keys: _keys,
    } = found;
    let Some(given) = counter else {
        return Err(EntryError::NoPc);
    };
    match single_number(given) {
        Some(pc) => Ok(Entry {
            pc: pc as u32,
            lines,
        }),
        None => Err(EntryError::NoPc),
    }
}

/// The entry of a text for the states of a specification, or its first fault.
pub fn read_entry(alloc: Global, spec: &Spec, bytes: &[u8]) -> Result<Entry, EntryError>
    requires short { length bytes.now < 2 ^ 32 - 1 }
    ensures { defined.Agrees result (defined.read (specification spec.now) bytes.now) }
{
    let mut found = none_found(alloc);
    let mut rest = bytes;
    let mut n = 1u32;
    while !rest.is_empty() {
        let (line, after) = first_line(rest);
        with_line(&mut found, n, &read_line(alloc, spec, line)?)?;
        rest = after;
        n += 1;
    }
    entry_found(found)
}
