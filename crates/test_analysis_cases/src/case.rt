//! The parts of a line.

use std::alloc::{AllocError as NoMemory, Global};

/// The parts of a case: `domain machine limit | words | entry | more`. The limit may lack, and what is more.
#[derive(Clone, Copy)]
pub struct Case<'a> {
    /// The name of a domain.
    pub domain: &'a str,
    /// The name of a machine.
    pub machine: &'a str,
    /// The most targets that an instruction may have, in decimal; else 64.
    pub limit: u32,
    /// Code words in hex, with a space between.
    pub words: &'a str,
    /// An entry, with a `;` for each line end.
    pub entry: &'a str,
    /// What a program has behind it.
    pub more: Option<&'a str>,
}

impl<'a> Case<'a> {
    /// The case of a line, if it is one.
    pub(crate) fn of(line: &'a str) -> Option<Case<'a>> {
        let (names, rest) = line.split_once(" | ")?;
        let (words, rest) = rest.split_once(" | ")?;
        let (domain, rest_of_names) = names.split_once(" ")?;
        let (machine, limit) = limited(rest_of_names);
        let (entry, more) = optional(rest);
        Some(Case {
            domain,
            machine,
            limit,
            words,
            entry,
            more,
        })
    }
}

/// The name of a machine, and the limit behind it.
fn limited(name: &str) -> (&str, u32) {
    match name.split_once(" ") {
        Some((name, limit)) => (name, limit.parse().unwrap_or(64)),
        None => (name, 64),
    }
}

/// An entry, and what is behind it.
fn optional(text: &str) -> (&str, Option<&str>) {
    match text.split_once(" | ") {
        Some((entry, more)) => (entry, Some(more)),
        None => (text, None),
    }
}

/// That a case has no such part, as a line.
pub fn no(alloc: Global, what: &str) -> Result<String, NoMemory> {
    format!(in alloc; "  no {what}\n")
}
