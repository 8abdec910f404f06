//! An analysis over files in memory, and the check of what it wrote.

ghost use Rattle.std.specs.Prelude.{◌≡◌, ◌≤◌, ℕ, IfOk, List, Some, length, true};
ghost use Rattle.support_io.specs.FileList.{first_file};
ghost use Rattle.support_command_line.specs.Requests.{AnalyseRequest, analyse, check};
ghost use Rattle.support_command_line.specs.Views.{texts};
ghost use Rattle.support_command_line.specs.Words.{asked};
ghost use Rattle.program_common.specs.declared.status.Status.TheVariants as Statuses;
ghost use Rattle.program_domains.specs.Checks.{accepted_line};
ghost use Rattle.program_machine.specs.Inputs.{table_cap};
ghost use Rattle.program_laws.specs.AgreementLaws.{HoldBytes, HoldTheSame};

use program_run::{Ended, run_in_memory};
use std::alloc::{AllocError, Global};

/// Two runs in memory: of the first words over the first files, and of the others over the others.
pub fn run_both(
    alloc: Global,
    words: &[String],
    files: Vec<(String, Vec<u8>)>,
    other_words: &[String],
    other_files: Vec<(String, Vec<u8>)>,
) -> Result<(Ended, Ended), AllocError>
    // Where the first is an analysis that ends well, and the other a check with the same words but for when elements widen, over files in which the inputs of the
    // analysis are the same and the table is what it wrote, the check accepts it: also where both are left open, and the inputs hold numbers of bytes, as they do.
    ensures { (request : AnalyseRequest) (joins : ℕ) (table : List ℕ)
        → asked (texts words.now) ≡ Some (analyse request)
        → asked (texts other_words.now) ≡ Some (check (record { analysis = record request { joins = joins }; table = table }))
        → (request.open ≡ true → HoldBytes (texts words.now) (first_file files.items))
        → HoldTheSame (texts words.now) (first_file files.items) (first_file other_files.items)
        → IfOk result (λ both. both.0.status ≡ Statuses.Ok
        → first_file other_files.items table ≡ Some both.0.text.items
        → length both.0.text.items ≤ table_cap
        → (both.1.status ≡ Statuses.Ok) × (both.1.text.items ≡ accepted_line)) }
{
    let first = run_in_memory(alloc, words, files)?;
    let other = run_in_memory(alloc, other_words, other_files)?;
    Ok((first, other))
}
