//! From the text of a file to its cases.

use crate::case::{Case, Failures};
use crate::content::append;
use crate::error::FileError;
use std::alloc::{AllocError, Global};
use std::mem;

/// What the lines of a block say.
#[derive(Drop)]
enum Block {
    /// Nothing: no block is open.
    Closed,
    /// A text that later blocks use by this name.
    Given(String),
    /// What the input of this name holds.
    Input(String),
    /// What is to be written.
    Wanted,
}

/// Reads a file of cases line by line.
#[derive(Drop)]
struct Reader {
    alloc: Global,
    given: Vec<(String, Vec<u8>)>,
    done: Vec<Case>,
    /// The case that the lines speak of, once there is one.
    case: Case,
    is_case: bool,
    block: Block,
    bytes: Vec<u8>,
}

/// The cases of a file, in order.
pub fn cases(alloc: Global, text: &str) -> Result<Vec<Case>, FileError> {
    let mut reader = Reader {
        alloc,
        given: Vec::new(alloc),
        done: Vec::new(alloc),
        case: Case::new(alloc, "")?,
        is_case: false,
        block: Block::Closed,
        bytes: Vec::new(alloc),
    };
    let mut number: usize = 0;
    for line in text.split('\n') {
        number = number.saturating_add(1);
        if !line.is_empty() && !line.starts_with('#') && !reader.take(line)? {
            return Err(FileError::Line(number));
        }
    }
    reader.end_case(Case::new(alloc, "")?)?;
    Ok(reader.done)
}

impl Reader {
    /// Takes a line, and answers whether it has a form that stands here.
    fn take(&mut self, line: &str) -> Result<bool, FileError> {
        let (keyword, rest) = line.split_once(' ').unwrap_or((line, ""));
        match keyword {
            "case" => {
                self.end_case(Case::new(self.alloc, rest)?)?;
                self.is_case = true;
                Ok(true)
            }
            "given" => {
                self.end_block()?;
                self.block = Block::Given(String::from_str(self.alloc, rest)?);
                Ok(true)
            }
            "words" | "word" | "input" | "fail" | "sink" | "status" if self.is_case => {
                self.end_block()?;
                self.take_of_case(keyword, rest)
            }
            _ => self.take_of_block(line),
        }
    }

    /// Takes a line that says a part of the case.
    fn take_of_case(&mut self, keyword: &str, rest: &str) -> Result<bool, FileError> {
        match keyword {
            "words" => {
                for word in rest.split(' ') {
                    let word = String::from_str(self.alloc, word)?;
                    self.case.run.words.push(word)?;
                }
                Ok(true)
            }
            "word" => {
                let word = String::from_str(self.alloc, rest)?;
                self.case.run.words.push(word)?;
                Ok(true)
            }
            "input" => {
                self.block = Block::Input(String::from_str(self.alloc, rest)?);
                Ok(true)
            }
            "status" => {
                self.block = Block::Wanted;
                self.take_status(rest)
            }
            _ => self.take_failures(keyword, rest),
        }
    }

    fn take_status(&mut self, rest: &str) -> Result<bool, FileError> {
        let Ok(status) = rest.parse::<u8>() else {
            return Ok(false);
        };
        self.case.wanted.status = status;
        Ok(true)
    }

    /// Takes `fail N ..`, the calls of the inputs that fail, or `sink MOST N ..`, how much the sink takes in a call and which
    /// of its calls fail.
    fn take_failures(&mut self, keyword: &str, rest: &str) -> Result<bool, FileError> {
        let Some(numbers) = numbers(self.alloc, rest)? else {
            return Ok(false);
        };
        let before = mem::replace(&mut self.case.run.failures, None);
        let mut failures = before.unwrap_or(Failures::none(self.alloc));
        if keyword == "fail" {
            failures.calls = numbers;
        } else {
            let [most, writes @ ..] = numbers.as_slice() else {
                return Ok(false);
            };
            failures.most = *most as usize;
            failures.writes = writes.to_vec(self.alloc)?;
        }
        self.case.run.failures = Some(failures);
        Ok(true)
    }

    /// Takes a line of the block that is open.
    fn take_of_block(&mut self, line: &str) -> Result<bool, FileError> {
        match self.block {
            Block::Closed => Ok(false),
            _ => append(self.alloc, line, &self.given, &mut self.bytes),
        }
    }

    /// Ends the block that is open: its bytes go where they belong.
    fn end_block(&mut self) -> Result<(), AllocError> {
        let bytes = mem::replace(&mut self.bytes, Vec::new(self.alloc));
        match mem::replace(&mut self.block, Block::Closed) {
            Block::Closed => {}
            Block::Given(name) => self.given.push((name, bytes))?,
            Block::Input(name) => self.case.run.inputs.push((name, bytes))?,
            Block::Wanted => self.case.wanted.text = bytes,
        }
        Ok(())
    }

    /// Ends the case, if there is one, and goes on to the next one.
    fn end_case(&mut self, next: Case) -> Result<(), AllocError> {
        self.end_block()?;
        let case = mem::replace(&mut self.case, next);
        if self.is_case {
            self.done.push(case)?;
        }
        self.is_case = false;
        Ok(())
    }
}

/// The decimal numbers of a text, with single spaces between.
fn numbers(alloc: Global, text: &str) -> Result<Option<Vec<u32>>, AllocError> {
    let mut numbers = Vec::new(alloc);
    for word in text.split(' ') {
        let Ok(number) = word.parse::<u32>() else {
            return Ok(None);
        };
        numbers.push(number)?;
    }
    Ok(Some(numbers))
}
