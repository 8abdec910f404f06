//! A case: a run over inputs in memory, and how it is to end.

use program_run::{run_in_memory, run_uncounted};
use std::alloc::{AllocError, Global};
use support_io::{MemInputs, MemSink};

/// How a run ends: its exit status, and all that it writes.
#[derive(Drop, PartialEq, Eq)]
pub struct Ending {
    pub status: u8,
    pub text: Vec<u8>,
}

impl Ending {
    /// The status and the text, to be read by people.
    pub fn shown(&self, alloc: Global) -> Result<String, AllocError> {
        match std::str::from_utf8(&self.text) {
            Ok(text) => format!(in alloc; "status {}, {text:?}", self.status),
            Err(_) => {
                let digits = hex::encode(alloc, self.text.as_slice())?;
                format!(in alloc; "status {}, hex {digits}", self.status)
            }
        }
    }
}

/// What fails in a run.
#[derive(Drop)]
pub struct Failures {
    /// The numbers, from 0, of the calls of the inputs that fail.
    pub calls: Vec<u32>,
    /// How many bytes the sink takes at most in a call.
    pub most: usize,
    /// The numbers, from 0, of the calls of the sink that fail.
    pub writes: Vec<u32>,
}

impl Failures {
    /// Nothing fails.
    pub fn none(alloc: Global) -> Failures {
        Failures {
            calls: Vec::new(alloc),
            most: usize::MAX,
            writes: Vec::new(alloc),
        }
    }
}

/// A run to be made.
#[derive(Drop)]
pub struct Run {
    pub words: Vec<String>,
    /// What the inputs hold by their names.
    pub inputs: Vec<(String, Vec<u8>)>,
    pub failures: Option<Failures>,
}

impl Run {
    /// Makes the run.
    pub fn end(self, alloc: Global) -> Result<Ending, AllocError> {
        let Run {
            words,
            inputs,
            failures,
        } = self;
        match failures {
            None => {
                let ended = run_in_memory(alloc, &words, inputs)?;
                Ok(Ending {
                    status: ended.status.code(),
                    text: ended.text,
                })
            }
            Some(failures) => end_with_failures(alloc, &words, inputs, failures),
        }
    }
}

fn end_with_failures(
    alloc: Global,
    words: &[String],
    inputs: Vec<(String, Vec<u8>)>,
    failures: Failures,
) -> Result<Ending, AllocError> {
    let Failures {
        calls,
        most,
        writes,
    } = failures;
    let mut inputs = MemInputs::new(alloc, inputs, calls)?;
    let mut sink = MemSink::new(alloc, writes, most)?;
    let status = run_uncounted(alloc, words, &mut inputs, &mut sink).code();
    let text = sink.bytes().to_vec(alloc)?;
    Ok(Ending { status, text })
}

/// A run with its name, and how it is to end.
#[derive(Drop)]
pub struct Case {
    pub name: String,
    pub run: Run,
    pub wanted: Ending,
}

impl Case {
    /// A case of this name, to which lines add.
    pub fn new(alloc: Global, name: &str) -> Result<Case, AllocError> {
        Ok(Case {
            name: String::from_str(alloc, name)?,
            run: Run {
                words: Vec::new(alloc),
                inputs: Vec::new(alloc),
                failures: None,
            },
            wanted: Ending {
                status: 0,
                text: Vec::new(alloc),
            },
        })
    }
}
