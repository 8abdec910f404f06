//! Which inputs have to be looked at again for help.

use crate::written::{LinedText, Written, read};
use std::alloc::{AllocError, Global};
use support_command_line::{Code, CodePart, Order, Request, SpecName, WordsError, read_words};

/// The input whose text a run of these words wrote of, by its name. A specification that is shipped is no input.
pub fn text_for<'a>(
    alloc: Global,
    words: &'a [String],
    written: &[u8],
) -> Result<Option<&'a str>, AllocError> {
    let Ok(front) = std::str::from_utf8(written) else {
        return Ok(None);
    };
    let text = match read(front) {
        Written::SpecFault { .. } => Wanted::Spec,
        Written::LineFault { text, .. } => Wanted::Lines(text),
        _ => return Ok(None),
    };
    match read_words(alloc, words) {
        Ok(request) => {
            let name = name_of(&request, text);
            drop(request);
            Ok(name)
        }
        Err(WordsError::BadWords) => Ok(None),
        Err(WordsError::NoMemory) => Err(AllocError),
    }
}

/// The parts of the code that a run of these words wrote of.
pub fn parts_for<'a>(
    alloc: Global,
    words: &'a [String],
    written: &[u8],
) -> Result<Vec<CodePart<'a>>, AllocError> {
    let Ok(front) = std::str::from_utf8(written) else {
        return Ok(Vec::new(alloc));
    };
    let Written::CodeFault { .. } = read(front) else {
        return Ok(Vec::new(alloc));
    };
    match read_words(alloc, words) {
        Ok(request) => {
            let parts = match code_of(&request) {
                Some(code) => Vec::from_slice(alloc, code.parts.as_slice()),
                None => Ok(Vec::new(alloc)),
            };
            drop(request);
            parts
        }
        Err(WordsError::BadWords) => Ok(Vec::new(alloc)),
        Err(WordsError::NoMemory) => Err(AllocError),
    }
}

/// A machine with its code, by the names of what is read for it.
#[derive(Drop)]
pub struct NamedMachine<'a> {
    pub spec: SpecName<'a>,
    pub parts: Vec<CodePart<'a>>,
    pub order: Order,
}

/// The machine of which a run of these words wrote a table, if they ask for one.
pub fn machine_for<'a>(
    alloc: Global,
    words: &'a [String],
) -> Result<Option<NamedMachine<'a>>, AllocError> {
    match read_words(alloc, words) {
        Ok(request) => {
            let machine = machine_of(alloc, &request);
            drop(request);
            machine
        }
        Err(WordsError::BadWords) => Ok(None),
        Err(WordsError::NoMemory) => Err(AllocError),
    }
}

/// The machine of which a request wants a table to be written.
fn machine_of<'a>(
    alloc: Global,
    request: &Request<'a>,
) -> Result<Option<NamedMachine<'a>>, AllocError> {
    let (spec, code) = match request {
        Request::Analyse(request) => (request.spec, &request.code),
        Request::Convert(request) => (request.spec, &request.code),
        _ => return Ok(None),
    };
    match Vec::from_slice(alloc, code.parts.as_slice()) {
        Ok(parts) => Ok(Some(NamedMachine {
            spec,
            parts,
            order: code.order,
        })),
        Err(error) => Err(error),
    }
}

/// The code of a request.
fn code_of<'r, 'a>(request: &'r Request<'a>) -> Option<&'r Code<'a>> {
    match request {
        Request::Emulate(request) => Some(&request.code),
        Request::Analyse(request) => Some(&request.code),
        Request::Check(request) => Some(&request.analysis.code),
        Request::Convert(request) => Some(&request.code),
        Request::List(request) => Some(&request.code),
        Request::Slice(request) => Some(&request.check.analysis.code),
        Request::Claims(request) => Some(&request.check.analysis.code),
        Request::Call(_) | Request::Stress(_) => None,
    }
}

/// Which text of a request.
#[derive(Clone, Copy)]
enum Wanted {
    Spec,
    Lines(LinedText),
}

/// The name of a text of a request.
fn name_of<'a>(request: &Request<'a>, text: Wanted) -> Option<&'a str> {
    match text {
        Wanted::Spec => spec_name(request),
        Wanted::Lines(LinedText::Entry) => entry_name(request),
        Wanted::Lines(LinedText::Table) => table_name(request),
        Wanted::Lines(LinedText::Claims) => match request {
            Request::Claims(request) => Some(request.claims),
            _ => None,
        },
    }
}

/// The name of the specification.
fn spec_name<'a>(request: &Request<'a>) -> Option<&'a str> {
    let spec = match request {
        Request::Call(request) => request.spec,
        Request::Emulate(request) => request.spec,
        Request::Convert(request) => request.spec,
        Request::List(request) => request.spec,
        Request::Stress(_) => return None,
        Request::Analyse(request) => request.spec,
        Request::Check(request) => request.analysis.spec,
        Request::Slice(request) => request.check.analysis.spec,
        Request::Claims(request) => request.check.analysis.spec,
    };
    match spec {
        SpecName::Input(name) => Some(name),
        _ => None,
    }
}

/// The name of the entry.
fn entry_name<'a>(request: &Request<'a>) -> Option<&'a str> {
    match request {
        Request::Emulate(request) => Some(request.entry),
        Request::Analyse(request) => Some(request.entry),
        Request::Check(request) => Some(request.analysis.entry),
        Request::Slice(request) => Some(request.check.analysis.entry),
        Request::Claims(request) => Some(request.check.analysis.entry),
        _ => None,
    }
}

/// The name of the table.
fn table_name<'a>(request: &Request<'a>) -> Option<&'a str> {
    match request {
        Request::Check(request) => Some(request.table),
        Request::Convert(request) => Some(request.table),
        Request::Slice(request) => Some(request.check.table),
        Request::Claims(request) => Some(request.check.table),
        _ => None,
    }
}
