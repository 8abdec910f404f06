//! A run over files in memory, into memory.

ghost use Rattle.std.specs.Prelude.{◌≡◌, ◌≤◌, ◌⊎◌, IfOk, List, Some, ℕ, length, true, false};
ghost use Rattle.support_io.specs.FileList.{first_file};
ghost use Rattle.program_common.specs.declared.status.Status.{Status};
ghost use Rattle.program_common.specs.declared.status.Status.TheVariants as Statuses;
ghost use Rattle.program_domains.specs.Checks.{accepted_line};
ghost use Rattle.support_command_line.specs.Requests.{AnalyseRequest, CheckRequest, ClaimsRequest, SliceRequest, StressRequest, analyse, check, claims, slice, stress};
ghost use Rattle.support_command_line.specs.Views.{texts};
ghost use Rattle.support_command_line.specs.Words.{asked};
ghost use Rattle.program_analyses.specs.StressLaws.{IsStress};
ghost use Rattle.program_run.specs.Owed.{Owes, OwesAlone, OwesLonger};
ghost use Rattle.program_run.specs.Tables.{AreClaimsFor, AreOpenClaimsFor, IsAcceptedFor, IsOpenAcceptedFor, IsOpenSliceFor, IsOpenTableFor, IsSliceFor, IsTableFor};

use crate::uncounted::run_uncounted;
use program_common::Status;
use std::alloc::{AllocError, Global};
use support_io::{SureInputs, SureSink};

/// How a run ended, and what it wrote.
#[derive(Drop)]
pub struct Ended {
    pub status: Status,
    pub text: Vec<u8>,
}

/// Answers what the words ask for over these files by their names, of which the first of a name counts. Nothing fails
/// here, so the status and the text are owed, up to 67,108,864 bytes. Of several texts that are owed it is any one.
pub fn run_in_memory(
    alloc: Global,
    words: &[String],
    files: Vec<(String, Vec<u8>)>,
) -> Result<Ended, AllocError>
    // The status and the text are owed, or a text that is owed has no room.
    ensures owed { IfOk result (λ ended.
        Owes (texts words.now) (first_file files.items) ended.status ended.text.items
        ⊎ ((ended.status ≡ Statuses.WriteFault) × OwesLonger (texts words.now) (first_file files.items) 67_108_864)) }

    // Where one text is owed, it is that text.
    ensures exact { (status : Status) (text : List ℕ)
        → OwesAlone (texts words.now) (first_file files.items) status text
        → length text ≤ 67_108_864
        → IfOk result (λ ended. (ended.status ≡ status) × (ended.text.items ≡ text)) }

    // Where an analysis that is not left open ends well, its text is that of a table which is true of every run of the machine.
    ensures table { (request : AnalyseRequest) → asked (texts words.now) ≡ Some (analyse request) → request.open ≡ false
        → IfOk result (λ ended. ended.status ≡ Statuses.Ok
        → IsTableFor (first_file files.items) request ended.text.items) }

    // Where one that is left open ends well, its text is that of a table which is true of every run up to and with the first state at an open address.
    ensures open_table { (request : AnalyseRequest) → asked (texts words.now) ≡ Some (analyse request) → request.open ≡ true
        → IfOk result (λ ended. ended.status ≡ Statuses.Ok
        → IsOpenTableFor (first_file files.items) request ended.text.items) }

    // Where a check ends well, of a table that may not be left open, the table that it was asked for is true of every run of the machine, and the text says that
    // it is accepted.
    ensures accepted { (request : CheckRequest) → asked (texts words.now) ≡ Some (check request) → request.analysis.open ≡ false
        → IfOk result (λ ended. ended.status ≡ Statuses.Ok
        → IsAcceptedFor (first_file files.items) request × (ended.text.items ≡ accepted_line)) }

    // Where it may be left open, it is true of every run up to and with the first state at an open address.
    ensures accepted_open { (request : CheckRequest) → asked (texts words.now) ≡ Some (check request) → request.analysis.open ≡ true
        → IfOk result (λ ended. ended.status ≡ Statuses.Ok
        → IsOpenAcceptedFor (first_file files.items) request × (ended.text.items ≡ accepted_line)) }

    // Where a slice ends well, of a table that may not be left open, its text is that of a slice which holds every chain of every read that it is of.
    ensures sliced { (request : SliceRequest) → asked (texts words.now) ≡ Some (slice request) → request.check.analysis.open ≡ false
        → IfOk result (λ ended. ended.status ≡ Statuses.Ok
        → IsSliceFor (first_file files.items) request ended.text.items) }

    // Where the table may be left open, it holds each until a run is at an open address.
    ensures sliced_open { (request : SliceRequest) → asked (texts words.now) ≡ Some (slice request) → request.check.analysis.open ≡ true
        → IfOk result (λ ended. ended.status ≡ Statuses.Ok
        → IsOpenSliceFor (first_file files.items) request ended.text.items) }

    // Where claims end well, on a table that may not be left open, each that the text answers with yes is true of every state that a run has at its address.
    ensures claimed { (request : ClaimsRequest) → asked (texts words.now) ≡ Some (claims request) → request.check.analysis.open ≡ false
        → IfOk result (λ ended. ended.status ≡ Statuses.Ok
        → AreClaimsFor (first_file files.items) request ended.text.items) }

    // Where the table may be left open, each is true of every such state until the run is at an open address.
    ensures claimed_open { (request : ClaimsRequest) → asked (texts words.now) ≡ Some (claims request) → request.check.analysis.open ≡ true
        → IfOk result (λ ended. ended.status ≡ Statuses.Ok
        → AreOpenClaimsFor (first_file files.items) request ended.text.items) }

    // Where a stress ends well, its text tells of a table that is true of every run of the code that was made, and that a check accepts.
    ensures stressed { (request : StressRequest) → asked (texts words.now) ≡ Some (stress request)
        → IfOk result (λ ended. ended.status ≡ Statuses.Ok → IsStress request ended.text.items) }
{
    let mut inputs = SureInputs::new(alloc, files)?;
    let mut sink = SureSink::new(alloc)?;
    match run_uncounted(alloc, words, &mut inputs, &mut sink) {
        Status::NoMemory => Err(AllocError),
        status => Ok(Ended {
            status,
            text: sink.bytes().to_vec(alloc)?,
        }),
    }
}
