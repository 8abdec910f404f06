//! What is said on standard error of a run: what to do, where it has no answer.
//!
//! `program_advice` has the lines. Here is what they are made from: the words, what the run wrote, and the text that it wrote of, which is read
//! again. Of a table that is left open, over a base that does not tell uses, it is also what the instructions of its first open blocks read: each is
//! analysed once more over `kset+defuse`, alone, from what the block says of its states. The caller makes these runs (`MemoryRuns`).
//!
//! Nothing is proved of it but that all calls are safe and end. It changes neither the answer nor the status.
#![tactic(auto)]

mod files;
mod machine;
mod runs;
mod steps;

use files::{length_of, text_of};
use program_advice::{Again, Run, help, parts_for, sentence_of, text_for};
use program_common::Status;
pub use runs::{EndedRun, MemoryRuns};
use std::alloc::AllocError;
use std::io::Eprint;
use std::rt::Files;
use steps::reads_of_blocks;

/// Says what to do after a run that ended, where there is something to say of it.
pub fn tell<'a>(
    rt: &(impl Files + Eprint + AllocGlobal),
    runs: &impl MemoryRuns,
    ended: &EndedRun<'a>,
) {
    match ended.status {
        Status::WriteFault => {}
        Status::NoMemory => tell_no_memory(rt),
        _ => tell_of(rt, runs, ended),
    }
}

/// Says what to do where memory ran out. It takes none.
fn tell_no_memory(rt: &impl Eprint) {
    if let Some(sentence) = sentence_of("no memory") {
        let _told = eprint!(rt;
            "no memory: {}\nwhat to do: {}\n",
            sentence.says, sentence.advice
        );
    }
}

/// Says what to do of what a run wrote, and why blocks of a table are open.
fn tell_of<'a>(
    rt: &(impl Files + Eprint + AllocGlobal),
    runs: &impl MemoryRuns,
    ended: &EndedRun<'a>,
) {
    if let Ok(lines) = lines_of(rt, runs, ended) {
        let _told = eprint!(rt; "{lines}");
    }
}

/// The lines to be said.
fn lines_of<'a>(
    rt: &(impl Files + AllocGlobal),
    runs: &impl MemoryRuns,
    ended: &EndedRun<'a>,
) -> Result<String, AllocError> {
    let mut lines = lines_of_front(rt, ended.words, ended.front)?;
    let reads = reads_of_blocks(rt, runs, ended);
    ended.open.push_lines(&mut lines, &reads)?;
    Ok(lines)
}

/// What is to be said of the front of what a run of these words wrote.
fn lines_of_front<'a>(
    rt: &(impl Files + AllocGlobal),
    words: &'a [String],
    front: &'a [u8],
) -> Result<String, AllocError> {
    let alloc = rt.alloc();
    let text = match text_for(alloc, words, front)? {
        Some(name) => text_of(rt, name),
        None => Vec::new(alloc),
    };
    let lengths = lengths_of(rt, words, front)?;
    let run = Run {
        words,
        written: front,
    };
    let again = Again {
        text: &text,
        lengths: &lengths,
    };
    help(alloc, run, again)
}

/// How many bytes the parts of the code have that a run wrote of, up to the first that is no file.
fn lengths_of<'a>(
    rt: &(impl Files + AllocGlobal),
    words: &'a [String],
    front: &'a [u8],
) -> Result<Vec<u64>, AllocError> {
    let mut lengths = Vec::new(rt.alloc());
    for part in parts_for(rt.alloc(), words, front)? {
        let Some(length) = length_of(rt, part.name) else {
            break;
        };
        lengths.push(length)?;
    }
    Ok(lengths)
}
