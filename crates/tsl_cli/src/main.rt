//! The program: it answers what its words ask for. All that it does is in `program_run`; here are the words, the files, standard
//! output and the exit status, which is proved to be that of the run (`exit_code`). Words that ask for help or the version are looked at
//! before: `program_help` answers them, and they ask for nothing else. Behind a run `program_diagnostics` says on standard error what to do.
#![tactic(auto)]

ghost use Rattle.std.specs.Prelude.{◌≡◌, ◌<◌};
ghost use Rattle.tsl_cli.specs.Codes.{code_of, status_of_help};

mod front_sink;
mod own_runs;

use front_sink::FrontSink;
use own_runs::OwnRuns;
use program_diagnostics::{EndedRun, tell};
use program_help::{HelpError, tell_help};
use program_run::{Status, run};
use std::io::{Eprint, ErrorKind, Print};
use std::marker::Brand;
use std::process::ExitCode;
use std::rt::{Env, Files};
use std::sync::ledger::{Blank, Ledger};
use std::{env, io};
use support_io::{FileInputs, StdSink};
use support_step_counter::Steps;

/// The exit status where an argument is no text.
const NOT_TEXT: u8 = 70;

/// The words after the program's name.
fn arguments(rt: &(impl Env + AllocGlobal)) -> io::Result<Vec<String>> {
    Ok(env::args(rt)?.skip(1).collect(rt.alloc())?)
}

/// The exit status of a run, or of a program without words.
fn exit_code(ended: Result<Status, ErrorKind>) -> u8
    ensures { result ≡ code_of ended }
{
    match ended {
        Ok(status) => status.code(),
        Err(ErrorKind::OutOfMemory) => Status::NoMemory.code(),
        Err(_) => NOT_TEXT,
    }
}

/// The status where a text of help was asked for.
fn status_of_help(told: Result<(), HelpError>) -> Status
    ensures { result ≡ status_of_help told }
{
    match told {
        Ok(()) => Status::Ok,
        Err(HelpError::WriteFault) => Status::WriteFault,
        Err(HelpError::NoMemory) => Status::NoMemory,
    }
}

/// Help or the version, where the words ask for it; else the run of the words.
fn answer_words<R: Files + Print + Eprint + AllocGlobal, L: Ledger>(
    rt: &R,
    words: &[String],
    blank: Blank,
) -> Status
    requires name { blank.name ≡ L.name }
    requires parts { blank.parts ≡ L.parts }
    requires some { 0 < blank.parts }
{
    match tell_help(rt.alloc(), words, &mut StdSink::new(rt)) {
        Some(told) => status_of_help(told),
        None => run_words::<R, L>(rt, words, blank),
    }
}

/// The run of the words over files, into standard output. A counter of transfers is on the ledger of this blank; it takes no code.
fn run_words<R: Files + Print + Eprint + AllocGlobal, L: Ledger>(
    rt: &R,
    words: &[String],
    blank: Blank,
) -> Status
    requires name { blank.name ≡ L.name }
    requires parts { blank.parts ≡ L.parts }
    requires some { 0 < blank.parts }
{
    let mut steps: Steps<L> = Steps::new(blank);
    let mut sink = FrontSink::new(rt.alloc(), StdSink::new(rt));
    let status = run(
        rt.alloc(),
        words,
        &mut FileInputs::new(rt),
        &mut sink,
        &mut steps,
    );
    let told = EndedRun {
        words,
        status,
        front: sink.front(),
        open: sink.open_blocks(),
    };
    tell(rt, &OwnRuns, &told);
    status
}

fn main(rt: HostRuntime) -> ExitCode {
    let ended = match arguments(&rt) {
        Ok(words) => Ok(answer_words::<HostRuntime, Brand>(&rt, &words, Blank::new(1))),
        Err(error) => Err(error.kind()),
    };
    ExitCode::from(exit_code(ended))
}
