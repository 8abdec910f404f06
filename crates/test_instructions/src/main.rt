//! Runs the cases of the files that its words name, each one step of an instruction set that is shipped.
//!
//! A file has the name of an instruction set, `ppc.txt` or `rv.txt`. Its cases stand one after another, an empty line
//! between; lines that begin with `#` are passed over:
//!
//! ```text
//! case addi rd=5 rs1=6 imm=1        refused jalr: funct3 1
//! word 00130293                     word 000290e7
//! pc 00001000
//! x[6] 00000007
//! gives
//! pc 00001004
//! x[5] 00000008
//! x[6] 00000007
//! ```
//!
//! The lines before `gives` are an entry, and those behind it are the state, as a state is printed, that one step makes of
//! the one state of the entry, where the word stands at its program counter. A refused word is no instruction: no step is
//! made from any state. The shipped text is checked as a machine, and each word is decoded and run by `emulate` for one step
//! at most.
//!
//! Printed are, of each mnemonic, how many cases answer as wanted and how many there are, as `b 9 of 9`; of each case that
//! answers otherwise its name; and of each file how many cases and refused words it has and how many of both differ.
//!
//! The files in data/ are those of examples/cases, where `python3 make_cases.py` writes both from models of the manuals that
//! are apart from the specifications. The counts in `stdout` were taken from these files by another script, and not from
//! what this program prints.
#![tactic(auto)]

mod error;
mod machine;
mod reader;

ghost use Rattle.std.specs.Prelude.{IsSome};
ghost use Rattle.spec_ir.specs.Views.{specification};
ghost use Rattle.semantics_laws.specs.Accepted.{IsAccepted};

use code_image::Decoder;
use error::FileError;
use machine::{source_of, specification};
use reader::Reader;
use spec_checker::Spec;
use std::io::{Eprint, Print};
use std::process::ExitCode;
use std::rt::{Env, Files};
use std::{env, fs, io};

/// Runs the cases of all files that the words name up to one that cannot be run, and answers with which status to end.
fn run_files(rt: &(impl Env + Files + Print + Eprint + AllocGlobal)) -> io::Result<ExitCode> {
    let mut status = ExitCode::SUCCESS;
    for name in env::args(rt)?.skip(1) {
        match run_file(rt, &name) {
            Ok(0) => {}
            Ok(_) => status = ExitCode::FAILURE,
            Err(error) => {
                eprintln!(rt; "{name}: {error}")?;
                return Ok(ExitCode::from(2));
            }
        }
    }
    Ok(status)
}

/// Runs the cases of a file, and answers how many differ.
fn run_file(rt: &(impl Files + Print + AllocGlobal), name: &str) -> Result<u32, FileError> {
    let source = source_of(name).ok_or(FileError::Name)?;
    let Some(spec) = specification(rt.alloc(), source.as_bytes()) else {
        return Err(FileError::Specification);
    };
    let bytes = fs::read(rt, name)?;
    let text = std::str::from_utf8(&bytes).ok().ok_or(FileError::NotText)?;
    let reader = run_cases(rt, &spec, text)?;
    for group in &reader.groups {
        println!(rt;
            "{} {} of {}",
            group.mnemonic.as_str(),
            group.agree,
            group.cases
        )?;
    }
    let (cases, refused, different) = (reader.cases, reader.refused, reader.different);
    println!(rt; "{name}: {cases} cases, {refused} refused words, {different} differ")?;
    Ok(different)
}

/// Runs the cases of a text, and prints the names of those that differ.
fn run_cases(rt: &(impl Print + AllocGlobal), spec: &Spec, text: &str) -> Result<Reader, FileError>
    requires accepted { IsAccepted (specification spec.now) }
    requires machine { IsSome (specification spec.now).machine }
{
    let decoder = Decoder::new(rt.alloc(), spec)?;
    let mut reader = Reader::new(rt.alloc())?;
    for line in text.split('\n') {
        if let Some(name) = reader.take(spec, &decoder, line)? {
            println!(rt; "differs: {}", name.as_str())?;
        }
    }
    if reader.is_open() {
        return Err(FileError::Open);
    }
    Ok(reader)
}

fn main(rt: HostRuntime) -> ExitCode {
    match run_files(&rt) {
        Ok(status) => status,
        Err(error) => {
            let _told = eprintln!(rt; "{error}");
            ExitCode::from(2)
        }
    }
}
