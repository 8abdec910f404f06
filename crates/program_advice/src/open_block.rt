//! A block that is left open, and what is said of it.

use std::alloc::{AllocError, Global};

/// What is said where it is not known what the instruction reads.
pub const ANOTHER_BASE: &str =
    "a base with `defuse`, as `--base kset+defuse`, tells from where it comes";

/// A block that is left open.
#[derive(Drop)]
pub struct OpenBlock {
    at: String,
    /// What is said of it, but what is left to be found.
    said: String,
    /// The lines of its element, where it is left to be found what its instruction reads.
    element: Option<String>,
}

impl OpenBlock {
    /// A block whose word has no decoding.
    pub(crate) fn undecodable(
        alloc: Global,
        at: &str,
        word: &str,
    ) -> Result<OpenBlock, AllocError> {
        Ok(OpenBlock {
            at: String::from_str(alloc, at)?,
            said: format!(in alloc; "{at} is open: its word {word} has no decoding")?,
            element: None,
        })
    }

    /// A block after which too many addresses may come, and from where their word comes.
    pub(crate) fn told(
        alloc: Global,
        at: &str,
        word: &str,
        origin: &str,
    ) -> Result<OpenBlock, AllocError> {
        Ok(OpenBlock {
            at: String::from_str(alloc, at)?,
            said: format!(in alloc; "{at} is open: what comes next may be {word}; {origin}")?,
            element: None,
        })
    }

    /// A block after which too many addresses may come, with the lines of its element.
    pub(crate) fn untold(
        alloc: Global,
        at: &str,
        word: &str,
        element: &str,
    ) -> Result<OpenBlock, AllocError> {
        Ok(OpenBlock {
            at: String::from_str(alloc, at)?,
            said: format!(in alloc; "{at} is open: what comes next may be {word}")?,
            element: Some(String::from_str(alloc, element)?),
        })
    }

    /// Its address, in 8 hex digits.
    pub fn at(&self) -> &str {
        self.at.as_str()
    }

    /// The lines of its element, where the table does not tell what its instruction reads. Of most open blocks of a table they are not kept.
    pub fn element(&self) -> Option<&str> {
        match &self.element {
            Some(element) => Some(element.as_str()),
            None => None,
        }
    }

    /// Appends its line, with what was found of its reads, if something was.
    pub(crate) fn push_line(&self, out: &mut String, found: &str) -> Result<(), AllocError> {
        out.push_str(&self.said)?;
        if self.element.is_some() {
            let origin = if found.is_empty() {
                ANOTHER_BASE
            } else {
                found
            };
            write!(out, "; {origin}")?;
        }
        out.push('\n')
    }
}
