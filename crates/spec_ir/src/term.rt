//! Typed terms.

use spec_match_compiler::Pattern;
use word_operations::{BinaryOperation, UnaryOperation, WordComparison};

/// How a word gets another width.
#[derive(Clone, Copy, Debug)]
pub enum CastKind {
    Zero,
    Sign,
    Cut,
}

/// A typed term. A variable is its place in the list of names in scope, outermost first.
#[derive(Drop)]
pub enum Term {
    Var(u32),
    Flag(bool),
    Word {
        w: u32,
        v: u64,
    },
    Un {
        op: UnaryOperation,
        w: u32,
        x: Box<Term>,
    },
    Bin {
        op: BinaryOperation,
        w: u32,
        x: Box<Term>,
        y: Box<Term>,
    },
    Test {
        c: WordComparison,
        w: u32,
        x: Box<Term>,
        y: Box<Term>,
    },
    Cast {
        kind: CastKind,
        from: u32,
        to: u32,
        x: Box<Term>,
    },
    Let {
        x: Box<Term>,
        then: Box<Term>,
    },
    If {
        c: Box<Term>,
        yes: Box<Term>,
        no: Box<Term>,
    },
    Match {
        x: Box<Term>,
        arms: Vec<(Pattern, Term)>,
    },
    Make {
        ty: u32,
        case: u32,
        args: Vec<Term>,
    },
    Call {
        fun: u32,
        args: Vec<Term>,
    },
    Get {
        map: u32,
        x: Box<Term>,
        key: Box<Term>,
    },
    Put {
        map: u32,
        x: Box<Term>,
        key: Box<Term>,
        v: Box<Term>,
    },
}
