//! The machine whose table was written.

use crate::files::length_of;
use program_common::{source_of, specification_of};
use spec_checker::{Spec, SpecUse, Ty};
use state_cell_text::state_fields;
use std::alloc::{AllocError, Global};
use std::rt::Files;
use support_command_line::SpecName;
use support_io::FileInputs;

/// A machine, as far as one of its steps is to be made again.
#[derive(Drop)]
pub struct Machine {
    /// The text of its specification.
    pub source: Vec<u8>,
    /// The counter of its states, and then their fields, of a map `NAME[*]`.
    pub cells: Vec<String>,
}

/// The machine of a specification, which is read again. A pipe or a terminal is not.
pub fn machine_of<'a>(rt: &(impl Files + AllocGlobal), spec: SpecName<'a>) -> Option<Machine> {
    if let SpecName::Input(name) = spec {
        length_of(rt, name)?;
    }
    let Ok(source) = source_of(rt.alloc(), &mut FileInputs::new(rt), spec) else {
        return None;
    };
    let Ok(spec) = specification_of(rt.alloc(), &source, SpecUse::Machine) else {
        return None;
    };
    let cells = cells_of(rt.alloc(), &spec).ok()?;
    Some(Machine { source, cells })
}

/// The counter of the states of a specification, and then their fields.
fn cells_of(alloc: Global, spec: &Spec) -> Result<Vec<String>, AllocError> {
    let mut cells = Vec::new(alloc);
    for field in state_fields(spec) {
        let mut cell = String::from_str(alloc, field.0.as_str())?;
        if matches!(field.1, Ty::Map(_)) {
            cell.push_str("[*]")?;
        }
        cells.push(cell)?;
    }
    Ok(cells)
}
