//! From the lines of a file to the answers of its cases.

ghost use Rattle.std.specs.Prelude.{IsSome};
ghost use Rattle.spec_ir.specs.Views.{specification};
ghost use Rattle.semantics_laws.specs.Accepted.{IsAccepted};
ghost use Rattle.code_image.specs.Decoders.{IsDecoderOf};

use crate::error::FileError;
use crate::machine::{Stepped, one_step};
use code_image::Decoder;
use spec_checker::Spec;
use std::alloc::{AllocError, Global};
use std::mem;

/// The state from which a word that is no instruction is tried.
const START: &str = "pc 00000000\n";

/// What the next lines of a file are for.
#[derive(Clone, Copy, Debug, Drop)]
enum Part {
    /// Nothing: no case is open.
    Closed,
    /// The state before a step.
    Before,
    /// The state after it.
    After,
    /// A word that is no instruction.
    Refused,
}

/// A case that is read.
#[derive(Drop)]
struct Case {
    name: String,
    word: Option<u32>,
    before: String,
    after: String,
}

/// The cases, one after another, that have a mnemonic.
#[derive(Drop)]
pub struct Group {
    pub mnemonic: String,
    /// How many there are.
    pub cases: u32,
    /// How many of them answer as wanted.
    pub agree: u32,
}

/// Reads a file of cases line by line.
#[derive(Drop)]
pub struct Reader {
    alloc: Global,
    /// How many lines were taken.
    line: usize,
    part: Part,
    case: Case,
    /// The mnemonics of the cases in their order.
    pub groups: Vec<Group>,
    /// How many cases have ended.
    pub cases: u32,
    /// How many words are to be no instruction.
    pub refused: u32,
    /// How many cases and words answer otherwise than wanted.
    pub different: u32,
}

impl Case {
    /// A case without lines.
    fn new(alloc: Global, name: &str) -> Result<Case, AllocError> {
        Ok(Case {
            name: String::from_str(alloc, name)?,
            word: None,
            before: String::new(alloc),
            after: String::new(alloc),
        })
    }
}

/// Appends a line to a text.
fn push_line(text: &mut String, line: &str) -> Result<(), AllocError> {
    text.push_str(line)?;
    text.push('\n')?;
    Ok(())
}

/// The word of eight hex digits.
fn word_of(digits: &str) -> Option<u32> {
    if digits.len() != 8 || digits.starts_with('+') {
        return None;
    }
    u32::from_str_radix(digits, 16).ok()
}

impl Reader {
    /// At the begin of a file.
    pub fn new(alloc: Global) -> Result<Reader, AllocError> {
        Ok(Reader {
            alloc,
            line: 0,
            part: Part::Closed,
            case: Case::new(alloc, "")?,
            groups: Vec::new(alloc),
            cases: 0,
            refused: 0,
            different: 0,
        })
    }

    /// Whether a case has begun and not ended.
    pub fn is_open(&self) -> bool {
        !matches!(self.part, Part::Closed)
    }

    /// Takes a line, and answers the name of the case that it ends, where that one answers otherwise than wanted.
    pub fn take(
        &mut self,
        spec: &Spec,
        decoder: &Decoder,
        line: &str,
    ) -> Result<Option<String>, FileError>
        requires accepted { IsAccepted (specification spec.now) }
        requires machine { IsSome (specification spec.now).machine }
        requires decoder { IsDecoderOf (specification spec.now).rows decoder.now }
    {
        self.line = self.line.saturating_add(1);
        if line.is_empty() {
            return self.end(spec, decoder);
        }
        self.take_of_case(line)?;
        Ok(None)
    }

    /// Takes a line that is not empty.
    fn take_of_case(&mut self, line: &str) -> Result<(), FileError> {
        if line.starts_with('#') {
            return Ok(());
        }
        match line.split_once(' ') {
            Some(("case", name)) => self.open(Part::Before, name),
            Some(("refused", name)) => self.open(Part::Refused, name),
            Some(("word", digits)) => self.take_word(digits),
            _ => self.take_of_state(line),
        }
    }

    /// Opens a case, where none is open.
    fn open(&mut self, part: Part, name: &str) -> Result<(), FileError> {
        if self.is_open() {
            return Err(FileError::Line(self.line));
        }
        self.part = part;
        self.case = Case::new(self.alloc, name)?;
        Ok(())
    }

    /// Takes the word of a case that has none.
    fn take_word(&mut self, digits: &str) -> Result<(), FileError> {
        match (self.part, self.case.word, word_of(digits)) {
            (Part::Before | Part::Refused, None, Some(word)) => {
                self.case.word = Some(word);
                Ok(())
            }
            _ => Err(FileError::Line(self.line)),
        }
    }

    /// Takes a line of a state, or the one between the states.
    fn take_of_state(&mut self, line: &str) -> Result<(), FileError> {
        match (self.part, line) {
            (Part::Before, "gives") => self.part = Part::After,
            (Part::Before, _) => push_line(&mut self.case.before, line)?,
            (Part::After, _) => push_line(&mut self.case.after, line)?,
            _ => return Err(FileError::Line(self.line)),
        }
        Ok(())
    }

    /// Ends the case that is open, if one is.
    fn end(&mut self, spec: &Spec, decoder: &Decoder) -> Result<Option<String>, FileError>
        requires accepted { IsAccepted (specification spec.now) }
        requires machine { IsSome (specification spec.now).machine }
        requires decoder { IsDecoderOf (specification spec.now).rows decoder.now }
    {
        let part = mem::replace(&mut self.part, Part::Closed);
        match (part, self.case.word) {
            (Part::Closed, _) => Ok(None),
            (Part::After, Some(word)) => {
                let same = self.agrees(spec, decoder, word)?;
                self.count_case(same)?;
                self.ended(same)
            }
            (Part::Refused, Some(word)) => {
                let same = self.is_refused(spec, decoder, word)?;
                self.refused = self.refused.saturating_add(1);
                self.ended(same)
            }
            _ => Err(FileError::Line(self.line)),
        }
    }

    /// Whether a step by the word makes the state after of the state before.
    fn agrees(&self, spec: &Spec, decoder: &Decoder, word: u32) -> Result<bool, FileError>
        requires accepted { IsAccepted (specification spec.now) }
        requires machine { IsSome (specification spec.now).machine }
        requires decoder { IsDecoderOf (specification spec.now).rows decoder.now }
    {
        let before = self.case.before.as_str().as_bytes();
        match one_step(self.alloc, spec, decoder, word, before) {
            Ok(Stepped::To(text)) => Ok(text.as_slice() == self.case.after.as_str().as_bytes()),
            Ok(_) => Ok(false),
            Err(error) => Err(FileError::Case(self.line, error)),
        }
    }

    /// Whether the word is no instruction.
    fn is_refused(&self, spec: &Spec, decoder: &Decoder, word: u32) -> Result<bool, FileError>
        requires accepted { IsAccepted (specification spec.now) }
        requires machine { IsSome (specification spec.now).machine }
        requires decoder { IsDecoderOf (specification spec.now).rows decoder.now }
    {
        match one_step(self.alloc, spec, decoder, word, START.as_bytes()) {
            Ok(Stepped::Undecodable) => Ok(true),
            Ok(_) => Ok(false),
            Err(error) => Err(FileError::Case(self.line, error)),
        }
    }

    /// Counts a case of its mnemonic.
    fn count_case(&mut self, same: bool) -> Result<(), FileError> {
        self.cases = self.cases.saturating_add(1);
        let name = self.case.name.as_str();
        let (mnemonic, _) = name.split_once(' ').unwrap_or((name, ""));
        let agree = u32::from(same);
        if let Some(group) = self.groups.last_mut() {
            if group.mnemonic.as_str() == mnemonic {
                group.cases = group.cases.saturating_add(1);
                group.agree = group.agree.saturating_add(agree);
                return Ok(());
            }
        }
        let mnemonic = String::from_str(self.alloc, mnemonic)?;
        self.groups.push(Group {
            mnemonic,
            cases: 1,
            agree,
        })?;
        Ok(())
    }

    /// Counts a case that answers otherwise than wanted, and answers its name.
    fn ended(&mut self, same: bool) -> Result<Option<String>, FileError> {
        if same {
            return Ok(None);
        }
        self.different = self.different.saturating_add(1);
        let name = mem::replace(&mut self.case.name, String::new(self.alloc));
        Ok(Some(name))
    }
}
