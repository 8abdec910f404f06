//! Core terms.

use crate::term::CastKind;
use spec_match_compiler::Decision;
use word_operations::{BinaryOperation, UnaryOperation, WordComparison};

/// A typed term in which each match is a decision, with the arms in their order.
#[derive(Debug, Drop)]
pub enum Core {
    Var(u32),
    Flag(bool),
    Word {
        w: u32,
        v: u64,
    },
    Un {
        op: UnaryOperation,
        w: u32,
        x: Box<Core>,
    },
    Bin {
        op: BinaryOperation,
        w: u32,
        x: Box<Core>,
        y: Box<Core>,
    },
    Test {
        c: WordComparison,
        w: u32,
        x: Box<Core>,
        y: Box<Core>,
    },
    Cast {
        kind: CastKind,
        from: u32,
        to: u32,
        x: Box<Core>,
    },
    Let {
        x: Box<Core>,
        then: Box<Core>,
    },
    If {
        c: Box<Core>,
        yes: Box<Core>,
        no: Box<Core>,
    },
    Choose {
        x: Box<Core>,
        by: Decision,
        arms: Vec<Core>,
    },
    Make {
        ty: u32,
        case: u32,
        args: Vec<Core>,
    },
    Call {
        fun: u32,
        args: Vec<Core>,
    },
    Get {
        map: u32,
        x: Box<Core>,
        key: Box<Core>,
    },
    Put {
        map: u32,
        x: Box<Core>,
        key: Box<Core>,
        v: Box<Core>,
    },
}
