//! Decision trees.

/// A place in a value: the way down to it, each step by a constructor and one of its fields.
#[derive(Debug, Drop)]
pub struct Path {
    pub steps: Vec<(u32, u32)>,
}

/// A match as tests, one after another.
#[derive(Debug)]
pub enum Decision {
    /// This row is chosen, from 0; each of its variables names the value at a place.
    Row {
        row: u32,
        binds: Vec<(u32, Path)>,
    },
    /// An arm for each constructor of the value there, in declared order.
    OnCase {
        at: Path,
        arms: Vec<Decision>,
    },
    /// Whether the word there is this number.
    OnWord {
        at: Path,
        value: u64,
        yes: Box<Decision>,
        no: Box<Decision>,
    },
    /// Whether the truth value there is true.
    OnFlag {
        at: Path,
        yes: Box<Decision>,
        no: Box<Decision>,
    },
}

/// Goes on in a loop where an answer is no, so that many literals of one position take no more stack than one.
impl Drop for Decision {
    fn drop(mut self) {
        loop {
            match self {
                Decision::Row {
                    row: _row,
                    binds: _binds,
                } => return,
                Decision::OnCase {
                    at: _at,
                    arms: _arms,
                } => return,
                Decision::OnWord {
                    at: _at,
                    value: _value,
                    yes: _yes,
                    no,
                } => self = Box::into_inner(no),
                Decision::OnFlag {
                    at: _at,
                    yes: _yes,
                    no,
                } => self = Box::into_inner(no),
            }
        }
    }
}
