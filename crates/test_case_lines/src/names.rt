//! The names of operations and comparisons.

use word_operations::{BinaryOperation, UnaryOperation, WordComparison};

/// The operation on one word of this name.
pub fn op1_named(name: &str) -> Option<UnaryOperation> {
    match name {
        "Neg" => Some(UnaryOperation::Neg),
        "Not" => Some(UnaryOperation::Not),
        _ => None,
    }
}

/// The operation on two words of this name.
pub fn op2_named(name: &str) -> Option<BinaryOperation> {
    match name {
        "Add" => Some(BinaryOperation::Add),
        "Sub" => Some(BinaryOperation::Sub),
        "Mul" => Some(BinaryOperation::Mul),
        "And" => Some(BinaryOperation::And),
        "Or" => Some(BinaryOperation::Or),
        "Xor" => Some(BinaryOperation::Xor),
        "Shl" => Some(BinaryOperation::Shl),
        "ShrU" => Some(BinaryOperation::ShrU),
        "ShrS" => Some(BinaryOperation::ShrS),
        "RotL" => Some(BinaryOperation::RotL),
        "DivU" => Some(BinaryOperation::DivU),
        "DivS" => Some(BinaryOperation::DivS),
        "RemU" => Some(BinaryOperation::RemU),
        "RemS" => Some(BinaryOperation::RemS),
        "MulHiU" => Some(BinaryOperation::MulHiU),
        "MulHiS" => Some(BinaryOperation::MulHiS),
        _ => None,
    }
}

/// The comparison of this name.
pub fn cmp_named(name: &str) -> Option<WordComparison> {
    match name {
        "Eq" => Some(WordComparison::Eq),
        "Ne" => Some(WordComparison::Ne),
        "LtU" => Some(WordComparison::LtU),
        "LeU" => Some(WordComparison::LeU),
        "LtS" => Some(WordComparison::LtS),
        "LeS" => Some(WordComparison::LeS),
        _ => None,
    }
}
