//! Code of a specification.

use spec_ir::CastKind;
use spec_match_compiler::Decision;
use word_operations::{BinaryOperation, UnaryOperation, WordComparison};

/// The code of a specification: that of each function, in their order.
#[derive(Debug, Drop)]
pub struct EvaluatorCode {
    pub funs: Vec<FunctionCode>,
}

/// The code of a function. The first slots of its frame are its arguments.
#[derive(Debug, Drop)]
pub struct FunctionCode {
    /// How many arguments it has.
    pub params: u32,
    pub body: Tail,
}

/// Nodes, one after another, and the slot that has the value then.
#[cycle(code)]
#[derive(Debug, Drop)]
pub struct Stretch {
    pub nodes: Vec<Node>,
    pub slot: u32,
}

/// What computes the value of the next slot from those of earlier ones. Operands are slots.
#[cycle(code)]
#[derive(Debug, Drop)]
pub enum Node {
    Flag(bool),
    Word {
        /// The width in bits.
        w: u32,
        /// The number.
        v: u64,
    },
    Un {
        op: UnaryOperation,
        w: u32,
        x: u32,
    },
    Bin {
        op: BinaryOperation,
        w: u32,
        x: u32,
        y: u32,
    },
    Test {
        c: WordComparison,
        w: u32,
        x: u32,
        y: u32,
    },
    Cast {
        kind: CastKind,
        /// The widths in bits.
        from: u32,
        to: u32,
        x: u32,
    },
    If {
        c: u32,
        yes: Stretch,
        no: Stretch,
    },
    /// A choice by a decision on the value of a slot: the arm of the row that it picks, from 0, with the variables of the row in the
    /// next slots.
    Choose {
        x: u32,
        by: Decision,
        arms: Vec<Stretch>,
    },
    /// A constructor of a datatype, by their numbers.
    Make {
        ty: u32,
        case: u32,
        args: Vec<u32>,
    },
    /// A call of a function outside tail position, or of another group.
    Call {
        fun: u32,
        args: Vec<u32>,
    },
    /// A read of a map of a map type, by its number.
    Get {
        map: u32,
        x: u32,
        key: u32,
    },
    /// A change of one.
    Put {
        map: u32,
        x: u32,
        key: u32,
        v: u32,
    },
}

/// Nodes in tail position, one after another, and what follows them.
#[cycle(tail)]
#[derive(Debug, Drop)]
pub struct Tail {
    pub nodes: Vec<Node>,
    pub end: End,
}

/// How a turn goes on behind the nodes of a tail.
#[cycle(tail)]
#[derive(Debug, Drop)]
pub enum End {
    /// With the value of a slot.
    Slot(u32),
    /// With a call of a function of the group.
    Again {
        fun: u32,
        args: Vec<u32>,
    },
    /// With one of two tails.
    If {
        c: u32,
        yes: Box<Tail>,
        no: Box<Tail>,
    },
    /// With one of several, as in `Node::Choose`.
    Pick {
        x: u32,
        by: Decision,
        arms: Vec<Tail>,
    },
}
