//! Entries: what is given of the states at which an analysis or a run begins.

/// Which cells of a field a line speaks of: the field itself, where it is a word; all keys of a map that no
/// other line names; or one key.
#[derive(Clone, Copy, Debug, PartialEq, Eq)]
pub enum KeyAt {
    Whole,
    Rest,
    At(u64),
}

/// What is given of a number: that it is this one, nothing, or that it lies between two, both included.
#[derive(Clone, Copy, Debug, PartialEq, Eq)]
pub enum GivenNumber {
    One(u64),
    Any,
    Range { lo: u64, hi: u64 },
}

/// What an entry gives of cells of a field: its number among the fields of the state, of which the counter is
/// number 0; and the number, from 1, of the line of the text.
#[derive(Clone, Copy, Debug, PartialEq, Eq)]
pub struct Line {
    pub field: u32,
    pub key: KeyAt,
    pub given: GivenNumber,
    pub line: u32,
}

/// An entry: the program counter, and what is given of other cells.
#[derive(Debug)]
pub struct Entry {
    pub pc: u32,
    pub lines: Vec<Line>,
}

/// Written out, so that what lets an entry go stands once, and not once more in each crate where one is let go.
impl Drop for Entry {
    fn drop(self) {
        let Entry {
            pc: _pc,
            lines: _lines,
        } = self;
    }
}
