//! The cell that a slice is asked for.

ghost use Rattle.spec_ir.specs.Views.{specification};
ghost use Rattle.program_common.specs.Outcomes.{Gives};
ghost use Rattle.program_machine.specs.Cells.{CellOf};

use program_common::{Halt, Refusal};
use spec_checker::Spec;
use text_slices::{SliceCell, asked_cell};

/// The cell of the states that a text is: `NAME[KEY]` or `NAME[*]` of a map field and one of its keys. Else the words are bad.
pub(crate) fn cell_of<'a>(spec: &Spec, text: &str) -> Result<SliceCell, Halt<'a>>
    ensures { Gives (CellOf (specification spec.now) text.now) (λ asked. asked) result }
{
    match asked_cell(spec, text.as_bytes()) {
        Some(asked) => Ok(asked),
        None => Err(Halt::Refused(Refusal::BadWords)),
    }
}
