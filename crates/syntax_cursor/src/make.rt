//! Terms made from their parts, each with its span.

ghost use Rattle.std.specs.Prelude.{◌≡◌, IfOk, box_value, map};
ghost use Rattle.syntax_grammar.specs.Nodes as nodes;
ghost use Rattle.syntax_grammar.specs.TermRules as spec;
ghost use Rattle.syntax_grammar.specs.View.{term as term_view, arm as arm_view, pattern as pattern_view};

use crate::pattern::pattern_span;
use crate::reader::hull;
use std::alloc::{AllocError, Global};
use syntax_grammar::span_of;
use syntax_grammar::tree::{Arm, BinOp, Expr, Name, Num, Pat, PreOp, Span};
use syntax_lexer::Keyword;

/// Both in boxes.
fn boxes<T: Drop>(alloc: Global, x: T, y: T) -> Result<(Box<T>, Box<T>), AllocError>
    ensures { IfOk result (λ both. (box_value both.0 ≡ x) × (box_value both.1 ≡ y)) }
{
    let first = Box::new(alloc, x)?;
    let second = Box::new(alloc, y)?;
    Ok((first, second))
}

/// All three in boxes.
fn three_boxes<T: Drop>(
    alloc: Global,
    x: T,
    y: T,
    z: T,
) -> Result<(Box<T>, Box<T>, Box<T>), AllocError>
    ensures { IfOk result (λ all. (box_value all.0 ≡ x) × (box_value all.1 ≡ y) × (box_value all.2 ≡ z)) }
{
    let first = Box::new(alloc, x)?;
    let second = Box::new(alloc, y)?;
    let third = Box::new(alloc, z)?;
    Ok((first, second, third))
}

/// `let NAME = x in then`, from its first token to the end of `then`.
#[tactic(auto, unfolding(syntax_grammar::specs::Nodes::let_of))]
pub fn let_of(
    alloc: Global,
    start: Span,
    name: Name,
    x: Expr,
    then: Expr,
) -> Result<Expr, AllocError>
    ensures { IfOk result (λ e. term_view e ≡ nodes.let_of start name (term_view x) (term_view then)) }
{
    let span = hull(start, span_of(&then));
    let (x, then) = or_drop!(boxes(alloc, x, then), name);
    Ok(Expr::Let {
        name,
        x,
        then,
        span,
    })
}

/// `if c then yes else no`, from its first token to the end of `no`.
#[tactic(auto, unfolding(syntax_grammar::specs::Nodes::if_of))]
pub fn if_of(alloc: Global, start: Span, c: Expr, yes: Expr, no: Expr) -> Result<Expr, AllocError>
    ensures { IfOk result (λ e. term_view e ≡ nodes.if_of start (term_view c) (term_view yes) (term_view no)) }
{
    let span = hull(start, span_of(&no));
    let (c, yes, no) = three_boxes(alloc, c, yes, no)?;
    Ok(Expr::If { c, yes, no, span })
}

/// An operator between two operands, from the beginning of the first to the end of the second.
#[tactic(auto, unfolding(syntax_grammar::specs::Nodes::binary_of))]
pub fn binary_of(alloc: Global, op: BinOp, x: Expr, y: Expr) -> Result<Expr, AllocError>
    ensures { IfOk result (λ e. term_view e ≡ nodes.binary_of op (term_view x) (term_view y)) }
{
    let span = hull(span_of(&x), span_of(&y));
    let (x, y) = boxes(alloc, x, y)?;
    Ok(Expr::Binary { op, x, y, span })
}

/// A prefix operator, which stands at `start`, before its operand.
#[tactic(auto, unfolding(syntax_grammar::specs::Nodes::prefix_of))]
pub fn prefix_of(alloc: Global, op: PreOp, start: Span, x: Expr) -> Result<Expr, AllocError>
    ensures { IfOk result (λ e. term_view e ≡ nodes.prefix_of op start (term_view x)) }
{
    let span = hull(start, span_of(&x));
    Ok(Expr::Prefix {
        op,
        x: Box::new(alloc, x)?,
        span,
    })
}

/// `x[key]`, to the bracket at `end`.
#[tactic(auto, unfolding(syntax_grammar::specs::Nodes::get_of))]
pub fn get_of(alloc: Global, x: Expr, key: Expr, end: Span) -> Result<Expr, AllocError>
    ensures { IfOk result (λ e. term_view e ≡ nodes.get_of (term_view x) (term_view key) end) }
{
    let span = hull(span_of(&x), end);
    let (x, key) = boxes(alloc, x, key)?;
    Ok(Expr::Get { x, key, span })
}

/// `x[key := v]`, to the bracket at `end`.
#[tactic(auto, unfolding(syntax_grammar::specs::Nodes::put_of))]
pub fn put_of(alloc: Global, x: Expr, key: Expr, v: Expr, end: Span) -> Result<Expr, AllocError>
    ensures { IfOk result (λ e. term_view e ≡ nodes.put_of (term_view x) (term_view key) (term_view v) end) }
{
    let span = hull(span_of(&x), end);
    let (x, key, v) = three_boxes(alloc, x, key, v)?;
    Ok(Expr::Put { x, key, v, span })
}

/// `op(x, y)`, from the word of the operation to the parenthesis at `end`.
pub fn operation_of(
    alloc: Global,
    op: Keyword,
    start: Span,
    x: Expr,
    y: Expr,
    end: Span,
) -> Result<Expr, AllocError>
    ensures { IfOk result (λ e. term_view e ≡ nodes.operation_of op start (term_view x) (term_view y) end) }
{
    let (x, y) = boxes(alloc, x, y)?;
    Ok(Expr::Op {
        op,
        x,
        y,
        span: hull(start, end),
    })
}

/// `op(x, to)`, from the word of the cast to the parenthesis at `end`; `to` is the width in bits.
pub fn cast_of(
    alloc: Global,
    op: Keyword,
    start: Span,
    x: Expr,
    to: Num,
    end: Span,
) -> Result<Expr, AllocError>
    ensures { IfOk result (λ e. term_view e ≡ nodes.cast_of op start (term_view x) to end) }
{
    Ok(Expr::Cast {
        op,
        x: Box::new(alloc, x)?,
        to,
        span: hull(start, end),
    })
}

/// `pat => body;`, to the semicolon at `end`.
pub fn arm_of(pat: Pat, body: Expr, end: Span) -> Arm
    ensures { arm_view result ≡ nodes.arm_of (pattern_view pat) (term_view body) end }
{
    let span = hull(pattern_span(&pat), end);
    Arm { pat, body, span }
}

/// `match x with { arms }`, from its first token to the brace at `end`.
pub fn match_of(
    alloc: Global,
    start: Span,
    x: Expr,
    arms: Vec<Arm>,
    end: Span,
) -> Result<Expr, AllocError>
    ensures { IfOk result (λ e. term_view e ≡ nodes.match_of start (term_view x) (map arm_view arms.items) end) }
{
    let x = match Box::new(alloc, x) {
        Ok(x) => x,
        Err(failed) => {
            drop(arms);
            return Err(AllocError::from(failed));
        }
    };
    Ok(Expr::Match {
        x,
        arms,
        span: hull(start, end),
    })
}

/// `(x)`, from one parenthesis to the other.
pub fn paren_of(alloc: Global, start: Span, x: Expr, end: Span) -> Result<Expr, AllocError>
    ensures { IfOk result (λ e. term_view e ≡ nodes.paren_of start (term_view x) end) }
{
    Ok(Expr::Paren {
        x: Box::new(alloc, x)?,
        span: hull(start, end),
    })
}
