//! Runs that are asked for.

use program_advice::OpenBlocks;
use program_common::Status;
use std::alloc::Global;

/// A run that ended.
#[derive(Clone, Copy)]
pub struct EndedRun<'a> {
    /// Its words.
    pub words: &'a [String],
    pub status: Status,
    /// The front of what it wrote.
    pub front: &'a [u8],
    /// What is known of the open blocks of the table that it wrote, if it was one.
    pub open: &'a OpenBlocks,
}

/// What makes runs of the program over inputs in memory.
pub trait MemoryRuns {
    /// What the run of these words over these files by their names writes, where it has an answer.
    fn answer(
        &self,
        alloc: Global,
        words: &[String],
        files: Vec<(String, Vec<u8>)>,
    ) -> Option<Vec<u8>>;
}
