use eval_code_lowering::lower;
use spec_ir::{CastKind, Core, Fun, Spec, Term, Ty};
use spec_match_compiler::{Decision, Path};
use std::alloc::{AllocError, Global};
use std::test::Fail;
use syntax_lexer::Text;
use word_operations::{BinaryOperation, UnaryOperation, WordComparison};

fn boxed(alloc: Global, t: Core) -> Result<Box<Core>, AllocError> {
    Ok(Box::new(alloc, t)?)
}

fn var(alloc: Global, n: u32) -> Result<Box<Core>, AllocError> {
    boxed(alloc, Core::Var(n))
}

/// A row that names what stands at two places.
fn row(alloc: Global, row: u32) -> Result<Decision, AllocError> {
    let first = Path {
        steps: vec![in alloc; (0, 1)]?,
    };
    let second = Path {
        steps: vec![in alloc; (0, 1), (2, 0)]?,
    };
    Ok(Decision::Row {
        row,
        binds: vec![in alloc; (3, first), (4, second)]?,
    })
}

/// Row 1 where the word of the value is 7, row 0 otherwise.
fn decision(alloc: Global) -> Result<Decision, AllocError> {
    let other = Decision::Row {
        row: 1,
        binds: Vec::new(alloc),
    };
    Ok(Decision::OnWord {
        at: Path {
            steps: Vec::new(alloc),
        },
        value: 7,
        yes: Box::new(alloc, other)?,
        no: Box::new(alloc, row(alloc, 0)?)?,
    })
}

/// Operations: their operands are slots, one behind the other.
fn operations(alloc: Global) -> Result<Vec<(Core, &'static str)>, AllocError> {
    let less = Core::Bin {
        op: BinaryOperation::Sub,
        w: 8,
        x: var(alloc, 1)?,
        y: var(alloc, 2)?,
    };
    let number = boxed(alloc, Core::Word { w: 8, v: 200 })?;
    let not = Core::Un {
        op: UnaryOperation::Not,
        w: 8,
        x: var(alloc, 0)?,
    };
    Ok(vec![in alloc;
        (Core::Var(2), "Tail { nodes: [], end: Slot(2) }"),
        (
            Core::Flag(true),
            "Tail { nodes: [Flag(true)], end: Slot(3) }"
        ),
        (
            Core::Un {
                op: UnaryOperation::Neg,
                w: 8,
                x: boxed(alloc, not)?
            },
            "Tail { nodes: [Un { op: Not, w: 8, x: 0 }, Un { op: Neg, w: 8, x: 3 }], end: Slot(4) }",
        ),
        (
            Core::Bin {
                op: BinaryOperation::Sub,
                w: 8,
                x: boxed(alloc, less)?,
                y: var(alloc, 0)?
            },
            "Tail { nodes: [Bin { op: Sub, w: 8, x: 1, y: 2 }, Bin { op: Sub, w: 8, x: 3, y: 0 }], end: Slot(4) }",
        ),
        (
            Core::Test {
                c: WordComparison::LtU,
                w: 8,
                x: var(alloc, 0)?,
                y: number
            },
            "Tail { nodes: [Word { w: 8, v: 200 }, Test { c: LtU, w: 8, x: 0, y: 3 }], end: Slot(4) }",
        ),
        (
            Core::Cast {
                kind: CastKind::Sign,
                from: 8,
                to: 16,
                x: var(alloc, 1)?
            },
            "Tail { nodes: [Cast { kind: Sign, from: 8, to: 16, x: 1 }], end: Slot(3) }",
        ),
    ]?)
}

/// A `let` is a name for a slot; maps, constructors and calls take slots.
fn names(alloc: Global) -> Result<Vec<(Core, &'static str)>, AllocError> {
    let args = || -> Result<Vec<Core>, AllocError> {
        Ok(vec![in alloc; Core::Var(1), Core::Flag(false)]?)
    };
    let again = Core::Un {
        op: UnaryOperation::Neg,
        w: 8,
        x: var(alloc, 3)?,
    };
    let call = Core::Call {
        fun: 0,
        args: args()?,
    };
    Ok(vec![in alloc;
        (
            Core::Let { x: var(alloc, 1)?, then: boxed(alloc, again)? },
            "Tail { nodes: [Un { op: Neg, w: 8, x: 1 }], end: Slot(3) }",
        ),
        (
            Core::Let { x: boxed(alloc, Core::Flag(true))?, then: var(alloc, 3)? },
            "Tail { nodes: [Flag(true)], end: Slot(3) }",
        ),
        (
            Core::Make { ty: 1, case: 2, args: args()? },
            "Tail { nodes: [Flag(false), Make { ty: 1, case: 2, args: [1, 3] }], end: Slot(4) }",
        ),
        (
            Core::Get { map: 4, x: var(alloc, 2)?, key: var(alloc, 1)? },
            "Tail { nodes: [Get { map: 4, x: 2, key: 1 }], end: Slot(3) }",
        ),
        (
            Core::Put { map: 5, x: var(alloc, 2)?, key: var(alloc, 1)?, v: var(alloc, 0)? },
            "Tail { nodes: [Put { map: 5, x: 2, key: 1, v: 0 }], end: Slot(3) }",
        ),
        // function 0 is of the group of all these
        (
            Core::Call { fun: 0, args: args()? },
            "Tail { nodes: [Flag(false)], end: Again { fun: 0, args: [1, 3] } }",
        ),
        (
            Core::Cast { kind: CastKind::Zero, from: 8, to: 16, x: boxed(alloc, call)? },
            "Tail { nodes: [Flag(false), Call { fun: 0, args: [1, 3] }, Cast { kind: Zero, from: 8, to: 16, x: 4 }], end: Slot(5) }",
        ),
    ]?)
}

/// Branches begin with the frame as it is, with the variables of an arm behind it.
fn branches(alloc: Global) -> Result<Vec<(Core, &'static str)>, AllocError> {
    let either = || -> Result<Core, AllocError> {
        Ok(Core::If {
            c: var(alloc, 0)?,
            yes: boxed(alloc, Core::Flag(true))?,
            no: var(alloc, 1)?,
        })
    };
    let choice = || -> Result<Core, AllocError> {
        Ok(Core::Choose {
            x: var(alloc, 2)?,
            by: decision(alloc)?,
            arms: vec![in alloc; Core::Var(4), Core::Flag(true)]?,
        })
    };
    Ok(vec![in alloc;
        (
            either()?,
            "Tail { nodes: [], end: If { c: 0, yes: Tail { nodes: [Flag(true)], end: Slot(3) }, no: Tail { nodes: [], end: Slot(1) } } }",
        ),
        (
            Core::Un {
                op: UnaryOperation::Neg,
                w: 8,
                x: boxed(alloc, either()?)?
            },
            "Tail { nodes: [If { c: 0, yes: Stretch { nodes: [Flag(true)], slot: 3 }, no: Stretch { nodes: [], slot: 1 } }, Un { op: Neg, w: 8, x: 3 }], end: Slot(4) }",
        ),
        (
            choice()?,
            "Tail { nodes: [], end: Pick { x: 2, by: OnWord { at: Path { steps: [] }, value: 7, yes: Row { row: 1, binds: [] }, no: Row { row: 0, binds: [(3, Path { steps: [(0, 1)] }), (4, Path { steps: [(0, 1), (2, 0)] })] } }, arms: [Tail { nodes: [], end: Slot(4) }, Tail { nodes: [Flag(true)], end: Slot(3) }] } }",
        ),
        (
            Core::Un {
                op: UnaryOperation::Neg,
                w: 8,
                x: boxed(alloc, choice()?)?
            },
            "Tail { nodes: [Choose { x: 2, by: OnWord { at: Path { steps: [] }, value: 7, yes: Row { row: 1, binds: [] }, no: Row { row: 0, binds: [(3, Path { steps: [(0, 1)] }), (4, Path { steps: [(0, 1), (2, 0)] })] } }, arms: [Stretch { nodes: [], slot: 4 }, Stretch { nodes: [Flag(true)], slot: 3 }] }, Un { op: Neg, w: 8, x: 3 }], end: Slot(4) }",
        ),
    ]?)
}

/// A function of three parameters with this core term.
fn function(alloc: Global, core: Core) -> Result<Fun, AllocError> {
    Ok(Fun {
        name: Text::from_str(alloc, "f")?,
        params: vec![in alloc; Ty::Bool, Ty::Word(8), Ty::Word(8)]?,
        result: Ty::Bool,
        body: Term::Flag(true),
        core,
        group: 0,
        loops: false,
    })
}

/// Each term has the nodes that are written beside it.
#[test]
fn lowers_each_form(rt: HostRuntime) -> Result<(), Fail> {
    let alloc = rt.alloc();
    let mut funs = Vec::new(alloc);
    let mut wanted = Vec::new(alloc);
    for cases in [operations(alloc)?, names(alloc)?, branches(alloc)?] {
        for (core, text) in cases {
            funs.push(function(alloc, core)?)?;
            wanted.push(text)?;
        }
    }
    let spec = Spec {
        datas: Vec::new(alloc),
        maps: Vec::new(alloc),
        funs,
        rows: Vec::new(alloc),
        machine: None,
    };
    let cir = lower(alloc, &spec)?;
    assert_eq!(rt; cir.funs.len(), wanted.len());
    for (code, text) in cir.funs.iter().zip(wanted.iter()) {
        assert_eq!(rt; code.params, 3);
        let body = &code.body;
        let found = format!(in alloc; "{body:?}")?;
        assert_eq!(rt; found.as_str(), *text);
    }
    Ok(())
}
