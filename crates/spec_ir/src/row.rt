//! Rows of the decode section.

use word_operations::WordComparison;

/// A stretch of bits of an instruction word: fixed, or a field.
#[derive(Clone, Copy, Drop)]
pub enum WordPart {
    Fixed { v: u64, w: u32 },
    Field { w: u32 },
}

/// A field by its number in the order of the row, or a word.
#[derive(Clone, Copy, Drop)]
pub enum Arg {
    Field(u32),
    Word { w: u32, v: u64 },
}

/// A condition on the fields of a row.
#[derive(Clone, Copy, Drop)]
pub struct Guard {
    pub field: u32,
    pub c: WordComparison,
    pub other: Arg,
}

/// A row: its parts, the most significant bits first, its guards, and the constructor of the
/// instruction with its arguments.
#[derive(Drop)]
pub struct Row {
    pub parts: Vec<WordPart>,
    pub guards: Vec<Guard>,
    pub case: u32,
    pub args: Vec<Arg>,
}
