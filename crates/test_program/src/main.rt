//! Runs the cases of the files that its words name, and says of each whether it ends as wanted.
//!
//! A case is a run of the program over inputs in memory. A file has cases one after another; empty lines and those that begin with `#`
//! are passed over:
//!
//! ```text
//! given DOUBLED
//! + fun f(x: INT32) -> INT32 = let y = x - 1:32 in y + y;
//!
//! case twice_the_number_before
//! words call s f 00000007
//! input s
//! use DOUBLED
//! status 0
//! | 0000000c
//! ```
//!
//! | line | says |
//! |---|---|
//! | `case NAME` | a case begins |
//! | `words W W ..`, `word W` | the words of the run, with single spaces between; one word as it stands, which may be empty |
//! | `input NAME` | the block after it is what the input of this name holds; of two of one name the first counts |
//! | `status N` | the exit status that is wanted; the block after it is all that is to be written |
//! | `fail N ..` | these calls of the inputs fail, counted from 0, an open as well as a read |
//! | `sink MOST N ..` | the sink takes at most so many bytes a call, and these calls of it fail |
//! | `given NAME` | the block after it is a text that later blocks may use |
//!
//! A block is made of lines that each give bytes: `| TEXT` the text and a line end, `+ TEXT` the text alone, `hex DIGITS` the bytes,
//! `use NAME` a given text, and `times N LINE` what the line gives, N times. A block may be empty.
//!
//! For each case a line is printed, `ok NAME`, or how it ended and how it was wanted to end; after each file how many cases
//! it has and how many differ. Without `fail` and `sink` a case is run by `run_in_memory`.
#![tactic(auto)]

mod case;
mod content;
mod error;
mod reader;

use case::Case;
use error::FileError;
use reader::cases;
use std::io::Print;
use std::process::ExitCode;
use std::rt::{Env, Files};
use std::{env, fs};

/// Runs the cases of all files that the words name, and answers how many of them differ.
fn run_files(rt: &(impl Env + Files + Print + AllocGlobal)) -> Result<u32, FileError> {
    let mut different: u32 = 0;
    for name in env::args(rt)?.skip(1) {
        different = different.saturating_add(run_file(rt, &name)?);
    }
    Ok(different)
}

/// Runs the cases of a file, and answers how many of them differ.
fn run_file(rt: &(impl Files + Print + AllocGlobal), name: &str) -> Result<u32, FileError> {
    let bytes = fs::read(rt, name)?;
    let text = std::str::from_utf8(&bytes).ok().ok_or(FileError::NotText)?;
    let cases = cases(rt.alloc(), text)?;
    let count = cases.len();
    let mut different: u32 = 0;
    for case in cases {
        if !run_case(rt, case)? {
            different = different.saturating_add(1);
        }
    }
    println!(rt; "{name}: {count} cases, {different} differ")?;
    Ok(different)
}

/// Runs a case, prints what comes of it, and answers whether it ends as wanted.
fn run_case(rt: &(impl Print + AllocGlobal), case: Case) -> Result<bool, FileError> {
    let Case { name, run, wanted } = case;
    let ending = run.end(rt.alloc())?;
    if ending == wanted {
        println!(rt; "ok {name}")?;
        return Ok(true);
    }
    println!(rt; "{name} differs")?;
    println!(rt; "    ended with {}", ending.shown(rt.alloc())?)?;
    println!(rt; "    wanted     {}", wanted.shown(rt.alloc())?)?;
    Ok(false)
}

fn main(rt: HostRuntime) -> ExitCode {
    match run_files(&rt) {
        Ok(0) => ExitCode::SUCCESS,
        Ok(_) => ExitCode::FAILURE,
        Err(error) => {
            let _told = eprintln!(rt; "{error}");
            ExitCode::from(2)
        }
    }
}
