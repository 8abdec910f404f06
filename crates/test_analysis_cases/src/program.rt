//! What a program answers to a line.

ghost use Rattle.test_analysis_cases.specs.Subjects.{IsSubject};

use crate::case::{Case, no};
use crate::subject::{Subject, Unread};
use std::alloc::{AllocError as NoMemory, Global};

/// A program of cases: it knows the names of domains.
pub trait Program {
    /// What the analysis of a subject in the domain of the case gives.
    fn analysed(alloc: Global, case: Case<'_>, subject: &Subject) -> Result<String, NoMemory>
        requires { IsSubject subject.now };
}

/// What a line gives.
pub fn answer<P: Program>(alloc: Global, line: &str) -> Result<String, NoMemory> {
    match Case::of(line) {
        Some(case) => answered::<P>(alloc, case),
        None => no(alloc, "case"),
    }
}

/// What a case gives.
fn answered<P: Program>(alloc: Global, case: Case<'_>) -> Result<String, NoMemory> {
    match Subject::read(alloc, case) {
        Ok(subject) => P::analysed(alloc, case, &subject),
        Err(Unread::No(what)) => no(alloc, what),
        Err(Unread::NoMemory) => Err(NoMemory),
    }
}
