//! The kinds of operations and comparisons.

/// An operation on two words.
#[derive(Clone, Copy, Debug, PartialEq, Eq)]
pub enum BinaryOperation {
    /// The sum modulo 2^w.
    Add,
    /// The difference modulo 2^w.
    Sub,
    /// The product modulo 2^w.
    Mul,
    /// Bit by bit.
    And,
    /// Bit by bit.
    Or,
    /// Bit by bit.
    Xor,
    /// To the left by the second word; 0 by w or more.
    Shl,
    /// To the right by the second word, with zeros; 0 by w or more.
    ShrU,
    /// To the right by the second word, with copies of the sign bit.
    ShrS,
    /// To the left by the second word modulo w; the bits that leave come in again.
    RotL,
    /// The unsigned quotient, rounded down; 0 by 0.
    DivU,
    /// The signed quotient, rounded towards 0; 0 by 0.
    DivS,
    /// The unsigned remainder; 0 by 0.
    RemU,
    /// The signed remainder, with the sign of the first word; 0 by 0.
    RemS,
    /// Bits w to 2w - 1 of the product of the unsigned readings.
    MulHiU,
    /// Bits w to 2w - 1 of the product of the signed readings.
    MulHiS,
}

/// An operation on one word.
#[derive(Clone, Copy, Debug, PartialEq, Eq)]
pub enum UnaryOperation {
    /// 0 less the word, modulo 2^w.
    Neg,
    /// Each bit turned.
    Not,
}

/// A comparison of two words, of their unsigned (U) or signed (S) readings.
#[derive(Clone, Copy, Debug, PartialEq, Eq)]
pub enum WordComparison {
    Eq,
    Ne,
    LtU,
    LeU,
    LtS,
    LeS,
}
