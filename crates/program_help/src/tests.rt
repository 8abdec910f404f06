//! What is told, and where nothing is.

use crate::page_texts::{CALL, CHECK, HEAD, STRESS, TAIL, VERSION};
use crate::{HelpError, tell_help};
use std::alloc::{AllocError, Global};
use std::test::Fail;
use support_io::SureSink;

/// What words are told, where they ask for it.
fn told(alloc: Global, given: &[&str]) -> Result<Option<Vec<u8>>, AllocError> {
    let mut words = Vec::new(alloc);
    for word in given {
        words.push(String::from_str(alloc, word)?)?;
    }
    let mut sink = SureSink::new(alloc)?;
    match tell_help(alloc, &words, &mut sink) {
        Some(Ok(())) => Ok(Some(sink.bytes().to_vec(alloc)?)),
        Some(Err(HelpError::NoMemory)) => Err(AllocError),
        _ => Ok(None),
    }
}

/// Whether they are told this.
fn is_told(alloc: Global, given: &[&str], wanted: &str) -> Result<bool, AllocError> {
    match told(alloc, given)? {
        Some(text) => Ok(text.as_slice() == wanted.as_bytes()),
        None => Ok(false),
    }
}

/// Whether they are told nothing.
fn is_silent(alloc: Global, given: &[&str]) -> Result<bool, AllocError> {
    Ok(told(alloc, given)?.is_none())
}

/// Whether all of help has its head, the first page and the last one, and its tail.
fn is_whole(alloc: Global) -> Result<bool, AllocError> {
    let Some(text) = told(alloc, &["--help"])? else {
        return Ok(false);
    };
    let first = HEAD.len() + CALL.len();
    let last = text.len().saturating_sub(TAIL.len());
    let before = last.saturating_sub(STRESS.len());
    Ok(
        text.starts_with(HEAD.as_bytes())
            && text.get(HEAD.len()..first) == Some(CALL.as_bytes())
            && text.get(before..last) == Some(STRESS.as_bytes())
            && text.ends_with(TAIL.as_bytes()),
    )
}

#[test]
fn three_forms_are_told(rt: HostRuntime) -> Result<(), Fail> {
    let alloc = rt.alloc();
    assert!(rt; is_whole(alloc)?);
    assert!(rt; is_told(alloc, &["--version"], VERSION)?);
    assert!(rt; is_told(alloc, &["call", "--help"], CALL)?);
    assert!(rt; is_told(alloc, &["check", "--help"], CHECK)?);
    assert!(rt; is_told(alloc, &["stress", "--help"], STRESS)?);
    Ok(())
}

#[test]
fn other_words_are_not(rt: HostRuntime) -> Result<(), Fail> {
    let alloc = rt.alloc();
    assert!(rt; is_silent(alloc, &[])?);
    assert!(rt; is_silent(alloc, &["help"])?);
    assert!(rt; is_silent(alloc, &["-h"])?);
    assert!(rt; is_silent(alloc, &["--help=1"])?);
    assert!(rt; is_silent(alloc, &["--help", "call"])?);
    assert!(rt; is_silent(alloc, &["calls", "--help"])?);
    assert!(rt; is_silent(alloc, &["call", "--version"])?);
    assert!(rt; is_silent(alloc, &["call", "--help", "f"])?);
    Ok(())
}
