//! The open blocks of a table that is written.

use crate::open_block::OpenBlock;
use crate::table_lines::TableLines;
use std::alloc::{AllocError, Global};

/// How many bytes of a line are looked at. The lines that count here have fewer; no other one is kept whole.
const MOST_OF_A_LINE: usize = 4096;

/// What is known of a table that is written piece by piece, as far as its open blocks are to be told.
#[derive(Drop)]
pub struct OpenBlocks {
    /// What was written of the line that is not ended yet.
    line: Vec<u8>,
    /// The lines before it.
    lines: TableLines,
}

impl OpenBlocks {
    /// Nothing is written yet.
    pub fn new(alloc: Global) -> OpenBlocks {
        OpenBlocks {
            line: Vec::new(alloc),
            lines: TableLines::new(alloc),
        }
    }

    /// Takes in the next piece of what is written.
    pub fn take_in(&mut self, piece: &[u8]) -> Result<(), AllocError> {
        for part in piece.split_inclusive(|byte| *byte == b'\n') {
            if self.lines.are_of_no_table() {
                return Ok(());
            }
            match part {
                [line @ .., b'\n'] => self.end_line(line)?,
                _ => self.begin_line(part)?,
            }
        }
        Ok(())
    }

    /// The open blocks, in the order in which they stand.
    pub fn blocks(&self) -> &[OpenBlock] {
        self.lines.blocks()
    }

    /// Appends one line for each open block: its address, why it is open, and from where the word comes that has too many addresses. Where the
    /// table does not tell that of a block, it is what `reads` has at the place of the block, if it has something there.
    pub fn push_lines(&self, out: &mut String, reads: &[String]) -> Result<(), AllocError> {
        for (place, block) in self.blocks().iter().enumerate() {
            match reads.get(place) {
                Some(found) => block.push_line(out, found)?,
                None => block.push_line(out, "")?,
            }
        }
        Ok(())
    }

    /// Keeps what was written of a line that is not ended yet.
    fn begin_line(&mut self, part: &[u8]) -> Result<(), AllocError> {
        let room = MOST_OF_A_LINE.saturating_sub(self.line.len());
        self.line.extend_from_slice(&part[..part.len().min(room)])
    }

    /// Takes in a line, of which this is the last part. One that stands in one piece is read there.
    fn end_line(&mut self, part: &[u8]) -> Result<(), AllocError> {
        if self.line.is_empty() {
            return self.lines.take(&part[..part.len().min(MOST_OF_A_LINE)]);
        }
        self.begin_line(part)?;
        self.lines.take(&self.line)?;
        self.line.clear();
        Ok(())
    }
}
