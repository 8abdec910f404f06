//! A case: what is known of a run, and what is to be said of it.

use program_advice::{Again, OpenBlocks, Run, entry_of, help, reads_of, text_for};
use std::alloc::{AllocError, Global};

/// How many bytes a piece of what is written has.
const PIECE_LENGTH: usize = 7;

/// A case.
#[derive(Drop)]
pub struct Case {
    pub name: String,
    pub words: Vec<String>,
    pub written: String,
    /// The text that is read again; it may be empty.
    pub text: String,
    /// How many bytes the parts of the code have.
    pub lengths: Vec<u64>,
    /// The counter of the states, and then their fields, of a map `NAME[*]`.
    pub cells: Vec<String>,
    /// The tables of steps that are made again.
    pub steps: String,
    /// The entries of these steps; it may be empty, and then they are not looked at.
    pub entries: String,
    /// The name of the text that is read again, where the case says it.
    pub named: Option<String>,
    /// All that is to be said.
    pub wanted: String,
}

impl Case {
    /// A case of nothing.
    pub fn new(alloc: Global, name: &str) -> Result<Case, AllocError> {
        Ok(Case {
            name: String::from_str(alloc, name)?,
            words: Vec::new(alloc),
            written: String::new(alloc),
            text: String::new(alloc),
            lengths: Vec::new(alloc),
            cells: Vec::new(alloc),
            steps: String::new(alloc),
            entries: String::new(alloc),
            named: None,
            wanted: String::new(alloc),
        })
    }

    /// What is said, where what is written is looked at piece by piece.
    pub fn said(&self, alloc: Global) -> Result<String, AllocError> {
        let mut open = OpenBlocks::new(alloc);
        for piece in self.written.as_bytes().chunks(PIECE_LENGTH) {
            open.take_in(piece)?;
        }
        self.said_with(alloc, &open)
    }

    /// What else is not as the case says, if something is not.
    pub fn fault(&self, alloc: Global, said: &str) -> Result<Option<&'static str>, AllocError> {
        let mut open = OpenBlocks::new(alloc);
        open.take_in(self.written.as_bytes())?;
        if !self.is_named(alloc)? {
            return Ok(Some("another text is named"));
        }
        if !self.is_entered(alloc, &open)? {
            return Ok(Some("the entries of steps are others"));
        }
        if self.said_with(alloc, &open)?.as_str() != said {
            return Ok(Some("other lines are said where all is written at once"));
        }
        Ok(None)
    }

    /// What is said, with these open blocks.
    fn said_with(&self, alloc: Global, open: &OpenBlocks) -> Result<String, AllocError> {
        let mut said = self.said_of_the_front(alloc)?;
        let reads = self.reads(alloc, open)?;
        open.push_lines(&mut said, &reads)?;
        Ok(said)
    }

    /// What is said of the front.
    fn said_of_the_front(&self, alloc: Global) -> Result<String, AllocError> {
        help(
            alloc,
            Run {
                words: &self.words,
                written: self.written.as_bytes(),
            },
            Again {
                text: self.text.as_bytes(),
                lengths: &self.lengths,
            },
        )
    }

    /// What the steps of open blocks read, each at the place of its block.
    fn reads(&self, alloc: Global, open: &OpenBlocks) -> Result<Vec<String>, AllocError> {
        let mut reads = Vec::new(alloc);
        for block in open.blocks() {
            let found = match block.element() {
                Some(element) => reads_of(alloc, block.at(), element, &self.steps)?,
                None => String::new(alloc),
            };
            reads.push(found)?;
        }
        Ok(reads)
    }

    /// Whether the text that is wanted for help is the one of the case.
    fn is_named(&self, alloc: Global) -> Result<bool, AllocError> {
        let Some(wanted) = &self.named else {
            return Ok(true);
        };
        let found = text_for(alloc, &self.words, self.written.as_bytes())?;
        Ok(found.unwrap_or("") == wanted.as_str())
    }

    /// Whether the entries of the steps that are to be made again are those of the case.
    fn is_entered(&self, alloc: Global, open: &OpenBlocks) -> Result<bool, AllocError> {
        if self.entries.is_empty() {
            return Ok(true);
        }
        let mut found = String::new(alloc);
        for block in open.blocks() {
            if let Some(element) = block.element() {
                found.push_str(&entry_of(alloc, &self.cells, block.at(), element)?)?;
            }
        }
        Ok(found == self.entries)
    }
}
