//! What a line gives.

use crate::chain::chain;
use crate::premises::{all_rows_suit, are_types, is_shape};
use crate::reading::{Case, read_case, types};
use crate::writing::tree_text;
use spec_match_compiler::{Decision, MatchError, Pattern, Shape, Sig, compile};
use std::alloc::{AllocError, Global};
use test_case_lines::{Read, Unread};

/// The answer to a match, where it is one.
fn compiled(
    alloc: Global,
    sig: &Sig,
    shape: Shape,
    rows: &[Pattern],
) -> Option<Result<Decision, MatchError>> {
    if !are_types(sig)
        || !all_rows_suit(sig, shape, rows)
        || !is_shape(sig.datas.len() as u64, shape)
        || rows.len() as u64 >= 0x1_0000_0000
    {
        return None;
    }
    Some(compile(alloc, sig, shape, rows))
}

/// The text of an answer.
fn answer_text(alloc: Global, answer: Result<Decision, MatchError>) -> Result<String, AllocError> {
    match answer {
        Ok(decision) => tree_text(alloc, &decision),
        Err(MatchError::NotExhaustive { example }) => {
            format!(in alloc; "not exhaustive {example:?}")
        }
        Err(MatchError::Useless { row }) => format!(in alloc; "useless {row}"),
        Err(MatchError::NoMemory) => Err(AllocError),
    }
}

/// What a match gives.
fn solved(alloc: Global, case: &Case) -> Read<String> {
    match compiled(alloc, &case.sig, case.shape, &case.rows) {
        Some(answer) => Ok(answer_text(alloc, answer)?),
        None => Err(Unread::No),
    }
}

fn matched(alloc: Global, types: &str, line: &str) -> Read<String> {
    let case = read_case(alloc, types, line)?;
    solved(alloc, &case)
}

/// How many types a text declares, if they are declared in order. It is kept in any case.
fn declared(alloc: Global, kept: &mut String, text: &str) -> Read<usize> {
    kept.clear();
    kept.push_str(text)?;
    let sig = types(alloc, text)?;
    if are_types(&sig) {
        Ok(sig.datas.len())
    } else {
        Err(Unread::No)
    }
}

fn number_text(alloc: Global, number: Read<usize>) -> Read<String> {
    Ok(format!(in alloc; "{}", number?)?)
}

/// What a line gives under the types of the last line that declares any.
pub(crate) fn answer(alloc: Global, types: &mut String, line: &str) -> Result<String, AllocError> {
    let found = if let Some(text) = line.strip_prefix("types ") {
        number_text(alloc, declared(alloc, types, text))
    } else if let Some(count) = line.strip_prefix("chain ") {
        number_text(alloc, chain(alloc, count))
    } else {
        matched(alloc, types.as_str(), line)
    };
    match found {
        Ok(text) => Ok(text),
        Err(Unread::No) => String::from_str(alloc, "no match"),
        Err(Unread::NoMemory) => Err(AllocError),
    }
}
