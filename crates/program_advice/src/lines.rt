//! The lines of help.

use crate::asked::parts_for;
use crate::parts::{PartSize, faulty_part};
use crate::places::{line_of, place_of};
use crate::sentences::sentence_of;
use crate::shown::{push_line, push_with_caret};
use crate::word_lines::push_words_fault;
use crate::written::{LinedText, Written, read};
use std::alloc::{AllocError, Global};

/// A run.
#[derive(Clone, Copy)]
pub struct Run<'a> {
    /// Its words.
    pub words: &'a [String],
    /// The front of what it wrote.
    pub written: &'a [u8],
}

/// What was looked at again of a run's inputs.
#[derive(Clone, Copy)]
pub struct Again<'a> {
    /// The text that `text_for` names; empty where it names none, or that was not read.
    pub text: &'a [u8],
    /// How many bytes the parts of the code have that `parts_for` names, as far as that is known.
    pub lengths: &'a [u64],
}

/// The document that has the faults of a specification.
const LANGUAGE: &str = "docs/LANGUAGE.md";

/// The document that has all other faults.
const FORMATS: &str = "docs/FORMATS.md";

/// Lines that say what to do after a run, or nothing where there is nothing to say.
pub fn help(alloc: Global, run: Run, again: Again) -> Result<String, AllocError> {
    let mut out = String::new(alloc);
    let Ok(front) = std::str::from_utf8(run.written) else {
        return Ok(out);
    };
    match read(front) {
        Written::BadWords => push_words_fault(alloc, &mut out, run.words)?,
        Written::SpecFault { at, code } => {
            push_place(&mut out, again.text, at)?;
            push_fault(&mut out, code, LANGUAGE)?;
        }
        Written::LineFault { text, number, code } => {
            push_numbered(&mut out, text, again.text, number)?;
            push_fault(&mut out, code, FORMATS)?;
        }
        Written::CodeFault { code } => {
            push_part(alloc, &mut out, run, again, code)?;
            push_fault(&mut out, code, FORMATS)?;
        }
        Written::Line { code } => push_sentence(&mut out, code)?,
        Written::NoBlock => out.push_str(NO_BLOCK)?,
        Written::NoStep => out.push_str(NO_STEP)?,
        Written::NothingDecoded => out.push_str(NOTHING_DECODED)?,
        Written::Answer => {}
    }
    Ok(out)
}

const NO_BLOCK: &str =
    "the entry's counter is no address of the code, so the table has no block: give `--at`, or another counter\n";

const NO_STEP: &str =
    "the entry's counter is no address of the code, so no step was made: give `--at`, or another counter\n";

const NOTHING_DECODED: &str =
    "of the first code words none has a decoding: try `--order little`, or `--order big` where that was given\n";

/// The sentence of a fault, with the document that has more of it, and what to do.
fn push_fault(out: &mut String, code: &str, document: &str) -> Result<(), AllocError> {
    let Some(sentence) = sentence_of(code) else {
        return Ok(());
    };
    write!(out, "{code}: {} ({document})\n", sentence.says)?;
    push_advice(out, sentence.advice)
}

/// The sentence of a line, and what to do.
fn push_sentence(out: &mut String, code: &str) -> Result<(), AllocError> {
    let Some(sentence) = sentence_of(code) else {
        return Ok(());
    };
    write!(out, "{code}: {}\n", sentence.says)?;
    push_advice(out, sentence.advice)
}

/// What to do, where there is something.
fn push_advice(out: &mut String, advice: &str) -> Result<(), AllocError> {
    if advice.is_empty() {
        return Ok(());
    }
    write!(out, "what to do: {advice}\n")
}

/// The place of a byte of the specification, and its line.
fn push_place(out: &mut String, text: &[u8], at: usize) -> Result<(), AllocError> {
    if text.is_empty() {
        return Ok(());
    }
    let place = place_of(text, at);
    write!(out, "line {}, column {}\n", place.line, place.column)?;
    push_with_caret(out, line_of(text, place.line), place.column)
}

/// The part of the code that has the fault of this code first.
fn push_part(
    alloc: Global,
    out: &mut String,
    run: Run,
    again: Again,
    code: &str,
) -> Result<(), AllocError> {
    let parts = parts_for(alloc, run.words, run.written)?;
    let mut sizes = Vec::new(alloc);
    for (part, length) in parts.iter().zip(again.lengths) {
        sizes.push(PartSize {
            base: part.base,
            length: *length,
        })?;
    }
    if let Some(place) = faulty_part(&sizes, code) {
        if let Some(part) = parts.get(place) {
            write!(out, "the part {}\n", part.name)?;
        }
    }
    Ok(())
}

/// A line of a text of lines, by its number.
fn push_numbered(
    out: &mut String,
    text: LinedText,
    lines: &[u8],
    number: usize,
) -> Result<(), AllocError> {
    if number == 0 || lines.is_empty() {
        return Ok(());
    }
    let name = text.name();
    write!(out, "line {number} of the {name}\n")?;
    push_line(out, line_of(lines, number))
}
