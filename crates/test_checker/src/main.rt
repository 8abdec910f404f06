//! Checks the texts of the files that its words name, and says which answers differ from those that are wanted.
//!
//! A file has cases one after another; empty lines and those that begin with `#` are passed over:
//!
//! ```text
//! library
//! + type A = Aa; type A = Bb;
//! = spec 18 T2 A
//! ```
//!
//! | line | says |
//! |---|---|
//! | `library`, `machine` | a case begins: what its text is wanted for |
//! | `= LINE` | the case ends: the line of its first fault, or `accepted` |
//! | `given NAME` | the lines after it give a text that later cases may use |
//!
//! A text is made of lines: `| TEXT` gives the text and a line end, `+ TEXT` the text alone, `use NAME` a given text, and
//! `each N LINE` what the line gives for each number from 0 to N - 1, in decimal in the place of each `#`. Two names are
//! given from the start: `ppc` and `rv32i`, the instruction sets that are shipped.
//!
//! What is wanted was found by hand from the rules of the language. For each case that differs two lines are printed, and
//! for each file how many cases it has and how many differ.
#![tactic(auto)]

mod answer;
mod content;
mod error;
mod reader;

use error::FileError;
use reader::Reader;
use std::io::Print;
use std::process::ExitCode;
use std::rt::{Env, Files};
use std::{env, fs};

/// Checks the texts of all files that the words name, and answers how many answers differ.
fn check_files(rt: &(impl Env + Files + Print + AllocGlobal)) -> Result<u32, FileError> {
    let mut different: u32 = 0;
    for name in env::args(rt)?.skip(1) {
        different = different.saturating_add(check_file(rt, &name)?);
    }
    Ok(different)
}

/// Checks the texts of a file, and answers how many answers differ.
fn check_file(rt: &(impl Files + Print + AllocGlobal), name: &str) -> Result<u32, FileError> {
    let bytes = fs::read(rt, name)?;
    let text = std::str::from_utf8(&bytes).ok().ok_or(FileError::NotText)?;
    let mut reader = Reader::new(rt.alloc())?;
    let mut number: usize = 0;
    for line in text.split('\n') {
        number = number.saturating_add(1);
        match reader.take(line)? {
            Line::Passed => {}
            Line::Differs(got) => {
                println!(rt; "{name}, case that ends at line {number}")?;
                println!(rt; "    {}", got.as_str())?;
            }
            Line::Unknown => return Err(FileError::Line(number)),
        }
    }
    let (cases, different) = (reader.cases, reader.different);
    println!(rt; "{name}: {cases} cases, {different} differ")?;
    Ok(different)
}

/// What comes of a line of a file.
#[derive(Drop)]
enum Line {
    /// It says a part of a case, or ends one that answers as wanted.
    Passed,
    /// It ends a case with this answer, which isn't the one that is wanted.
    Differs(String),
    /// It has no form that stands here.
    Unknown,
}

fn main(rt: HostRuntime) -> ExitCode {
    match check_files(&rt) {
        Ok(0) => ExitCode::SUCCESS,
        Ok(_) => ExitCode::FAILURE,
        Err(error) => {
            let _told = eprintln!(rt; "{error}");
            ExitCode::from(2)
        }
    }
}
