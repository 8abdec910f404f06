//! What operators and keywords stand for.

ghost use Rattle.std.specs.Prelude.{◌≡◌};
ghost use Rattle.spec_term_forms.specs.Operators.{cast_of, cast_fits, keyword_operator, operator_of};
ghost use Rattle.spec_term_forms.specs.OperatorViews.{operator};

use spec_ir::CastKind;
use spec_patterns::is_width;
use syntax_lexer::Keyword;
use syntax_parser::tree::BinOp;
use word_operations::{BinaryOperation, WordComparison};

/// An operator on two operands.
#[derive(Clone, Copy, Debug, PartialEq, Eq, Drop)]
pub enum Operator {
    Both,
    Either,
    Operation(BinaryOperation),
    Comparison(WordComparison),
}

/// The operator of a mark.
pub fn operator_of(op: BinOp) -> Operator
    ensures { operator result ≡ operator_of op }
{
    match op {
        BinOp::OrElse => Operator::Either,
        BinOp::AndAlso => Operator::Both,
        BinOp::Eq => Operator::Comparison(WordComparison::Eq),
        BinOp::Ne => Operator::Comparison(WordComparison::Ne),
        BinOp::BitOr => Operator::Operation(BinaryOperation::Or),
        BinOp::BitXor => Operator::Operation(BinaryOperation::Xor),
        BinOp::BitAnd => Operator::Operation(BinaryOperation::And),
        BinOp::Add => Operator::Operation(BinaryOperation::Add),
        BinOp::Sub => Operator::Operation(BinaryOperation::Sub),
        BinOp::Mul => Operator::Operation(BinaryOperation::Mul),
    }
}

/// The operator of a keyword. A tree has only those from `shl` to `les`.
pub fn keyword_operator(op: Keyword) -> Operator
    ensures { operator result ≡ keyword_operator op }
{
    match op {
        Keyword::KwShl => Operator::Operation(BinaryOperation::Shl),
        Keyword::KwShru => Operator::Operation(BinaryOperation::ShrU),
        Keyword::KwShrs => Operator::Operation(BinaryOperation::ShrS),
        Keyword::KwRotl => Operator::Operation(BinaryOperation::RotL),
        Keyword::KwDivu => Operator::Operation(BinaryOperation::DivU),
        Keyword::KwDivs => Operator::Operation(BinaryOperation::DivS),
        Keyword::KwRemu => Operator::Operation(BinaryOperation::RemU),
        Keyword::KwRems => Operator::Operation(BinaryOperation::RemS),
        Keyword::KwMulhu => Operator::Operation(BinaryOperation::MulHiU),
        Keyword::KwMulhs => Operator::Operation(BinaryOperation::MulHiS),
        Keyword::KwLtu => Operator::Comparison(WordComparison::LtU),
        Keyword::KwLeu => Operator::Comparison(WordComparison::LeU),
        Keyword::KwLts => Operator::Comparison(WordComparison::LtS),
        _ => Operator::Comparison(WordComparison::LeS),
    }
}

/// The cast of a keyword.
pub fn cast_of(op: Keyword) -> CastKind
    ensures { result ≡ cast_of op }
{
    match op {
        Keyword::KwZext => CastKind::Zero,
        Keyword::KwSext => CastKind::Sign,
        _ => CastKind::Cut,
    }
}

/// Whether a word may be cast from one width to another.
pub fn cast_fits(kind: CastKind, from: u32, to: u64) -> bool
    ensures { result ≡ cast_fits kind from to }
{
    match kind {
        CastKind::Cut => is_width(to) && to <= from as u64,
        _ => is_width(to) && from as u64 <= to,
    }
}
