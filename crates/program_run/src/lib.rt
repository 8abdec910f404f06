//! What the program does with its words, from bytes to bytes.
//!
//! `run` asks what its words want, reads the inputs that they name, and writes one text. What it comes to is one `Outcome` of
//! `program_common`: an answer with its text, or a refusal with what it names. Want of memory is no outcome: a step that finds none halts,
//! and nothing is written.
//!
//! `answer` shows the chain from words to answer. It is the chain of the definition, specs/Steps: each step gives something to the next
//! one, or refuses, and then that is what the run comes to. The chain of `call` is here; those of `emulate` and `list` are those of
//! `program_machine`, those of `analyse`, `check`, `convert`, `slice` and `claims` are those of `program_analyses`, and that of `stress` is
//! that of `program_analyses`. Over the bytes that the names hold (`Holds`) what these steps come to is *owed* (`Owes`): one outcome, but
//! that a table over affine relations has several texts. Over inputs that may fail (`Gave`) they come to something that is owed, or that an
//! input could not be read; the code gives just that (`Gives`, for each of its steps), and so the whole is proved step by step.
//!
//! What is proved: `run` ends with an outcome that it comes to and writes its line, or a front of it where the sink fails, or
//! nothing for want of memory (`ends`). From this it follows that over inputs that tell their bytes an answer is owed
//! (`answered`). With `write_fault`, all else that a caller wants follows too, as the law `laws::ends_follow` shows: each fault has
//! its cause, one line is written, and where nothing fails what is owed is answered. `run_in_memory` is the run where nothing
//! fails, and its contract says so.
//!
//! What is promised of analyses is the clause `table` of that law. Where the words ask for `analyse` and the run ends with `Ok`, what was
//! written is the text of a table for the machine, the code and the entry that the inputs hold (specs/Tables). That table is true of every
//! run of the machine: the element at each address describes every state that the meaning puts there, and each use list holds every
//! definition that a read sees. With `--open` it is the clause `open_table`: the table is true so of every run up to and with the first
//! state at an address that is left open. The clause `accepted` promises the same of checks: where the words ask for `check` and the run
//! ends with `Ok`, the table that was asked for is true of every run. The clauses `sliced` and `claimed` promise what such a table tells:
//! where the words ask for `slice` and the run ends with `Ok`, what was written is a slice that holds every chain of every read that it is
//! of; where they ask for `claims`, each claim that is answered with `yes` is true of every state that a run has at its address. With
//! `--open` these are the clauses `accepted_open`, `sliced_open` and `claimed_open`: the table may have addresses that are left open, and
//! what it and its answers say is true up to and with the first state at one of them. The clause `stressed` says of `stress` that what was
//! written tells of a table that is true of every run of the code that was made, and that a check accepts it.
#![tactic(auto)]

ghost use Rattle.std.specs.Prelude.{◌≡◌, ◌≢◌, ◌⊎◌, IsTrue, List, None, ℕ};
ghost use Rattle.support_io.specs.Faults.{RoseByOne};
ghost use Rattle.support_io.specs.InputState.{InputsKept};
ghost use Rattle.support_io.specs.SinkState.{Appends, SinkKept};
ghost use Rattle.program_run.specs.Output.{Ends};
ghost use Rattle.program_run.specs.Owed.{Owes};
ghost use Rattle.program_common.specs.Reading.{Gave, IsTakenFrom};
ghost use Rattle.program_common.specs.Statuses.{IsAnswer};
ghost use Rattle.support_command_line.specs.Views.{texts};
ghost use Rattle.support_command_line.specs.Words.{asked};
ghost use Rattle.program_run.specs.Words.{capped_inputs};
ghost use Rattle.program_run.specs.Work.{RunWork};

mod answer;
mod in_memory;
pub mod laws;
mod uncounted;

use answer::outcome_of_words;
pub use in_memory::{Ended, run_in_memory};
pub use program_common::Status;
use std::alloc::Global;
use std::sync::ledger::Ledger;
use support_io::{Inputs, Sink, WriteFault, write_whole};
use support_step_counter::Steps;
pub use uncounted::run_uncounted;

/// Answers what the words ask for: the one text that it writes is known before it is written.
///
/// What else follows of a run is the law `laws::ends_follow`.
pub fn run<I: Inputs, S: Sink, L: Ledger>(
    alloc: Global,
    words: &[String],
    inputs: &mut I,
    sink: &mut S,
    steps: &mut Steps<L>,
) -> Status
    // What stays of the inputs and of the sink.
    ensures inputs_kept { InputsKept (I.state inputs.old) (I.state inputs.new) }
    ensures sink_kept { SinkKept (S.state sink.old) (S.state sink.new) }

    // Over inputs that tell, what is answered is owed, and its text is written. This follows from ends.
    ensures answered { IsTrue (I.state inputs.old).tells → IsAnswer result
        → (text : List ℕ) × Owes (texts words.now) (I.state inputs.old).held result text
        × Appends (S.state sink.old) (S.state sink.new) text }

    // Over all inputs: which outcome it comes to, and what it writes of it.
    ensures ends { Ends (texts words.now) (I.state inputs.old) (I.state inputs.new)
        (S.state sink.old) (S.state sink.new) result }

    // Where a run comes to an answer, no fault of an input was counted.
    ensures no_fault { IsAnswer result → (I.state inputs.new).faults ≡ (I.state inputs.old).faults }

    // A fault of the sink is answered exactly where one was counted in this call.
    ensures write_fault { result ≡ Status.WriteFault
        → RoseByOne (S.state sink.old).faults (S.state sink.new).faults }
    ensures no_sink_fault { result ≢ Status.WriteFault
        → (S.state sink.new).faults ≡ (S.state sink.old).faults }

    // Words that ask for nothing are refused before any input is opened.
    ensures bad_words { asked (texts words.now) ≡ None → inputs.new ≡ inputs.old }

    // The input that is open at the end is one of the words, and no more was taken of it than its cap and one byte since it was opened.
    ensures taken { IsTrue (I.state inputs.old).tells → (inputs.new ≡ inputs.old)
        ⊎ (IsTrue (I.state inputs.new).is_open
        → IsTakenFrom (capped_inputs (texts words.now)) (I.state inputs.old) (I.state inputs.new)) }

    // How many transfers it makes: an analysis at most N(H + J + 1), of N code words and elements of the height H of which J changes join, and N
    // more where it is left open or measured; a check, a slice and claims at most one for each address that the table lists, and two where it may be left open.
    ensures work { RunWork (Gave (I.state inputs.old) (I.state inputs.new)) (asked (texts words.now)) steps.old steps.new }

    // Where memory runs out nothing is written.
    ensures no_memory { result ≡ Status.NoMemory → sink.new ≡ sink.old }
{
    let Ok(outcome) = outcome_of_words::<I, L>(alloc, words, inputs, steps) else {
        return Status::NoMemory;
    };
    let status = outcome.status();
    let Ok(line) = outcome.line(alloc) else {
        return Status::NoMemory;
    };
    match write_whole(sink, &line) {
        Ok(()) => status,
        Err(WriteFault) => Status::WriteFault,
    }
}
