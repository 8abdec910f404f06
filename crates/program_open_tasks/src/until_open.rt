//! What an answer of a table is good for, of which blocks may be left open.

ghost use Rattle.std.specs.Prelude.{◌≡◌, IfOk};
ghost use Rattle.fixpoint_open_tables.specs.Endings.{ends_in};
ghost use Rattle.program_common.specs.Outcomes.{answer_of};
ghost use Rattle.program_domains.specs.Until.{IsMarked, until_open};
ghost use Rattle.program_domain_tasks.specs.Read.{IsTextOf};

use fixpoint_open_tables::Endings;
use program_common::Answer;
use program_domain_tasks::first_open;
use std::alloc::{AllocError as NoMemory, Global};

/// The line before an answer that is good until a run is at an open address.
fn first_line(alloc: Global) -> Result<Vec<u8>, NoMemory>
    ensures { IfOk result (λ line. line.items ≡ until_open) }
{
    Vec::from_slice(alloc, b"until open\n")
}

/// A text, behind the line `until open` where some address is left open.
pub(crate) fn mark_until_open<W>(
    alloc: Global,
    endings: &Endings<W>,
    text: Vec<u8>,
) -> Result<Answer, NoMemory>
    ensures { IfOk result (λ answer. IsTextOf (IsMarked (ends_in endings.now) text.items) (answer_of answer)) }
{
    match first_open(endings) {
        None => Ok(Answer::Text(text)),
        Some(_at) => {
            let mut lines = first_line(alloc)?;
            lines.extend_from_slice(&text)?;
            Ok(Answer::Text(lines))
        }
    }
}
