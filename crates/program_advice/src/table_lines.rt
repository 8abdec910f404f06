//! The lines of a table, one after another, as far as its open blocks are to be told.

use crate::open_block::{ANOTHER_BASE, OpenBlock};
use crate::step_reads::NO_READ;
use std::alloc::{AllocError, Global};

/// How many digits an address has.
const ADDRESS_LENGTH: usize = 8;

/// How many open blocks are told at most.
const MOST_BLOCKS: usize = 1024;

/// Up to how many open blocks keep the lines of their elements.
const MOST_ELEMENTS: usize = 8;

/// How many bytes the lines of an element may have that are kept.
const MOST_OF_AN_ELEMENT: usize = 65_536;

/// What is known of the lines so far.
#[derive(Drop)]
pub struct TableLines {
    alloc: Global,
    text: Text,
    /// The address of the block.
    at: String,
    /// The uses of the block.
    uses: String,
    /// The lines of the block, in a table without uses.
    element: Vec<u8>,
    /// The open blocks.
    blocks: Vec<OpenBlock>,
    /// Whether the last of them is the block whose lines come: its last line so far says that it is open. A cell may be called `open` too, but no
    /// line of one ends a block that is open.
    is_ended: bool,
}

/// What is written, as far as it is known.
#[derive(Clone, Copy, PartialEq, Eq)]
enum Text {
    /// Nothing is known yet.
    Unknown,
    /// A table without uses.
    Table,
    /// A table over a base that tells uses.
    TableWithUses,
    /// Anything else.
    Other,
}

impl TableLines {
    /// No line is known yet.
    pub fn new(alloc: Global) -> TableLines {
        TableLines {
            alloc,
            text: Text::Unknown,
            at: String::new(alloc),
            uses: String::new(alloc),
            element: Vec::new(alloc),
            blocks: Vec::new(alloc),
            is_ended: false,
        }
    }

    /// Whether they are no lines of a table.
    pub fn are_of_no_table(&self) -> bool {
        self.text == Text::Other
    }

    /// The open blocks so far.
    pub fn blocks(&self) -> &[OpenBlock] {
        self.blocks.as_slice()
    }

    /// Takes in the next line. Of those that are told of, one that is no text counts for nothing.
    pub fn take(&mut self, line: &[u8]) -> Result<(), AllocError> {
        if self.is_other(line) {
            self.go_on();
            return self.keep(line);
        }
        match std::str::from_utf8(line) {
            Ok(line) => self.take_text(line),
            Err(_) => Ok(()),
        }
    }

    /// Whether a line, of what is known to be a table, begins otherwise than those that are told of. Most lines of a large table do.
    fn is_other(&self, line: &[u8]) -> bool {
        let is_told = matches!(line.first(), Some(b'a' | b'b' | b'o' | b'u'));
        self.text != Text::Unknown && !is_told
    }

    /// Takes in the next line, which is a text.
    fn take_text(&mut self, line: &str) -> Result<(), AllocError> {
        let (first, rest) = line.split_once(' ').unwrap_or((line, ""));
        if self.text == Text::Unknown {
            self.text = text_of(first);
            return Ok(());
        }
        if first == "at" && is_address(rest) {
            return self.begin_block(rest);
        }
        self.go_on();
        match first {
            "base" if rest.ends_with("defuse") => self.text = Text::TableWithUses,
            "use" => push_use(&mut self.uses, rest)?,
            "open" => self.push_open(rest)?,
            "undecodable" => self.push_undecodable(rest)?,
            _ => {}
        }
        self.keep(line.as_bytes())
    }

    /// Begins the block of an address.
    fn begin_block(&mut self, at: &str) -> Result<(), AllocError> {
        self.is_ended = false;
        self.uses.clear();
        self.element.clear();
        self.at.clear();
        self.at.push_str(at)
    }

    /// Goes on in the block: the line before did not end it.
    fn go_on(&mut self) {
        if self.is_ended {
            let _block = self.blocks.pop();
            self.is_ended = false;
        }
    }

    /// Keeps a line of the block, where it may be one of its element that is wanted.
    fn keep(&mut self, line: &[u8]) -> Result<(), AllocError> {
        if self.text != Text::Table || self.element.len() >= MOST_OF_AN_ELEMENT {
            return Ok(());
        }
        self.element.extend_from_slice(line)?;
        self.element.push(b'\n')?;
        Ok(())
    }

    /// The block is open if this is its last line: what comes next may be this word.
    fn push_open(&mut self, word: &str) -> Result<(), AllocError> {
        let block = self.open_block(word)?;
        self.push_block(block)
    }

    /// The block as one after which too many addresses may come.
    fn open_block(&self, word: &str) -> Result<OpenBlock, AllocError> {
        if self.text == Text::TableWithUses {
            let uses = if self.uses.is_empty() {
                NO_READ
            } else {
                self.uses.as_str()
            };
            return OpenBlock::told(self.alloc, &self.at, word, uses);
        }
        if self.blocks.len() < MOST_ELEMENTS && self.element.len() < MOST_OF_AN_ELEMENT {
            let element = std::str::from_utf8(&self.element).unwrap_or("");
            return OpenBlock::untold(self.alloc, &self.at, word, element);
        }
        OpenBlock::told(self.alloc, &self.at, word, ANOTHER_BASE)
    }

    /// The block is open if this is its last line: its word has no decoding.
    fn push_undecodable(&mut self, word: &str) -> Result<(), AllocError> {
        let block = OpenBlock::undecodable(self.alloc, &self.at, word)?;
        self.push_block(block)
    }

    /// Adds the block whose lines come to the open ones.
    fn push_block(&mut self, block: OpenBlock) -> Result<(), AllocError> {
        if self.blocks.len() < MOST_BLOCKS {
            self.blocks.push(block)?;
            self.is_ended = true;
        }
        Ok(())
    }
}

/// What a text is whose first line begins with this word.
fn text_of(first: &str) -> Text {
    if first == "tsl-table" {
        Text::Table
    } else {
        Text::Other
    }
}

/// Whether a text is an address as tables write it.
pub fn is_address(text: &str) -> bool {
    text.len() == ADDRESS_LENGTH && text.bytes().all(|byte| byte.is_ascii_hexdigit())
}

/// Appends a use to those of a block.
fn push_use(uses: &mut String, cell: &str) -> Result<(), AllocError> {
    uses.push_str(if uses.is_empty() { "it reads " } else { "; " })?;
    uses.push_str(cell)
}
