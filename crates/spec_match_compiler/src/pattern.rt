//! Patterns.

/// What a row of a match asks of a value.
#[derive(Debug, Drop)]
pub enum Pattern {
    /// `_`, which every value meets.
    Any,
    /// A variable by its number, which every value meets.
    Bind(u32),
    /// This truth value.
    Flag(bool),
    /// This number.
    Word(u64),
    /// This constructor, by its number, with a pattern for each of its fields.
    Case { case: u32, parts: Vec<Pattern> },
}
