//! Prints whether each case of the files that its words name gives the lines that are wanted.
//!
//! A case is what is known of a run, and what is to be said of it. Empty lines and those that begin with `#` are passed over:
//!
//! ```text
//! case a_letter_too_many
//! words list s c
//! written spec 4 L1
//! text fun $
//! | line 1, column 5
//! |     fun $
//! |         ^
//! | L1: a byte that begins no token
//! ```
//!
//! | line | says |
//! |---|---|
//! | `case NAME` | a case begins |
//! | `words W W ..` | the words of the run, with single spaces between; none without this line |
//! | `written LINE` | a line that the run wrote |
//! | `cut TEXT` | the front of a line that the run wrote, of which no more is known |
//! | `text LINE` | a line of the text that is read again |
//! | `length N` | how many bytes the next part of the code has |
//! | `cell NAME` | the counter of the states, and then, in their order, a field of them, of a map `NAME[*]` |
//! | `step LINE` | a line of the table of the step at an open block that is made again; those of several blocks stand one behind the other |
//! | `entry LINE` | a line of the entries of these steps; without this line they are not looked at |
//! | `named NAME` | the text that is wanted for help has this name; without this line that is not looked at |
//! | `\| LINE` | a line that is to be said |
#![tactic(auto)]

mod case;
mod error;
mod reader;

use case::Case;
use error::FileError;
use reader::cases;
use std::io::Print;
use std::process::ExitCode;
use std::rt::{Env, Files};
use std::{env, fs};

/// Runs the cases of all files that the words name, and answers how many of them differ.
fn run_files(rt: &(impl Env + Files + Print + AllocGlobal)) -> Result<u32, FileError> {
    let mut different: u32 = 0;
    for name in env::args(rt)?.skip(1) {
        different = different.saturating_add(run_file(rt, &name)?);
    }
    Ok(different)
}

/// Runs the cases of a file, and answers how many of them differ.
fn run_file(rt: &(impl Files + Print + AllocGlobal), name: &str) -> Result<u32, FileError> {
    let bytes = fs::read(rt, name)?;
    let text = std::str::from_utf8(&bytes).ok().ok_or(FileError::NotText)?;
    let cases = cases(rt.alloc(), text)?;
    let count = cases.len();
    let mut different: u32 = 0;
    for case in cases {
        if !run_case(rt, case)? {
            different = different.saturating_add(1);
        }
    }
    println!(rt; "{name}: {count} cases, {different} differ")?;
    Ok(different)
}

/// Runs a case, prints what comes of it, and answers whether that is what is wanted.
fn run_case(rt: &(impl Print + AllocGlobal), case: Case) -> Result<bool, FileError> {
    let name = &case.name;
    let said = case.said(rt.alloc())?;
    let fault = case.fault(rt.alloc(), &said)?;
    if said == case.wanted && fault.is_none() {
        println!(rt; "ok {name}")?;
        return Ok(true);
    }
    println!(rt; "{name} differs")?;
    println!(rt; "    said   {said:?}")?;
    println!(rt; "    wanted {:?}", case.wanted)?;
    if let Some(fault) = fault {
        println!(rt; "    {fault}")?;
    }
    Ok(false)
}

fn main(rt: HostRuntime) -> ExitCode {
    match run_files(&rt) {
        Ok(0) => ExitCode::SUCCESS,
        Ok(_) => ExitCode::FAILURE,
        Err(error) => {
            let _told = eprintln!(rt; "{error}");
            ExitCode::from(2)
        }
    }
}
