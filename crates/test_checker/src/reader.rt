//! From the lines of a file to the answers of its cases.

use crate::Line;
use crate::answer::answer;
use crate::content::append;
use crate::error::FileError;
use spec_checker::SpecUse;
use std::alloc::{AllocError, Global};
use std::mem;

/// What the lines of a text are for.
#[derive(Drop)]
enum Block {
    /// Nothing: no text is open.
    Closed,
    /// A text that later cases use by this name.
    Given(String),
    /// The text of a case.
    Case(SpecUse),
}

/// Reads a file of cases line by line.
#[derive(Drop)]
pub struct Reader {
    alloc: Global,
    given: Vec<(String, String)>,
    block: Block,
    text: String,
    /// How many cases have ended.
    pub cases: u32,
    /// How many of them answer otherwise than wanted.
    pub different: u32,
}

impl Reader {
    /// At the begin of a file.
    pub fn new(alloc: Global) -> Result<Reader, AllocError> {
        Ok(Reader {
            alloc,
            given: Vec::new(alloc),
            block: Block::Closed,
            text: String::new(alloc),
            cases: 0,
            different: 0,
        })
    }

    /// Takes a line.
    pub fn take(&mut self, line: &str) -> Result<Line, FileError> {
        if line.is_empty() || line.starts_with('#') {
            return Ok(Line::Passed);
        }
        let (keyword, rest) = line.split_once(' ').unwrap_or((line, ""));
        match keyword {
            "library" => self.open(Block::Case(SpecUse::Library)),
            "machine" => self.open(Block::Case(SpecUse::Machine)),
            "given" => {
                let name = String::from_str(self.alloc, rest)?;
                self.open(Block::Given(name))
            }
            "=" => self.end_case(rest),
            _ => self.take_of_text(line),
        }
    }

    /// Opens a text behind the last one, which is no case without an end.
    fn open(&mut self, block: Block) -> Result<Line, FileError> {
        let text = mem::replace(&mut self.text, String::new(self.alloc));
        match mem::replace(&mut self.block, block) {
            Block::Closed => Ok(Line::Passed),
            Block::Given(name) => {
                self.given.push((name, text))?;
                Ok(Line::Passed)
            }
            Block::Case(_) => Ok(Line::Unknown),
        }
    }

    /// Takes a line of the text that is open.
    fn take_of_text(&mut self, line: &str) -> Result<Line, FileError> {
        match self.block {
            Block::Closed => Ok(Line::Unknown),
            _ => match append(self.alloc, line, &self.given, &mut self.text)? {
                true => Ok(Line::Passed),
                false => Ok(Line::Unknown),
            },
        }
    }

    /// Ends the case that is open, which is to answer so.
    fn end_case(&mut self, wanted: &str) -> Result<Line, FileError> {
        let text = mem::replace(&mut self.text, String::new(self.alloc));
        let Block::Case(purpose) = mem::replace(&mut self.block, Block::Closed) else {
            return Ok(Line::Unknown);
        };
        let got = answer(self.alloc, purpose, text.as_str().as_bytes())?;
        self.cases = self.cases.saturating_add(1);
        if got.as_str() == wanted {
            return Ok(Line::Passed);
        }
        self.different = self.different.saturating_add(1);
        Ok(Line::Differs(got))
    }
}
