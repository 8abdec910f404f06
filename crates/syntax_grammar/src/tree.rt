//! The tree of a specification: its declarations, terms and patterns, each with its span.
//!
//! Lists keep the order of the text, and a list that the text leaves out is empty.

use syntax_lexer::{Keyword, Text};

/// A stretch of the source in bytes, from the first byte of a form to just after its last.
#[derive(Clone, Copy, Debug, PartialEq, Eq)]
pub struct Span {
    pub from: u32,
    pub to: u32,
}

/// A name where it stands.
#[derive(Debug, Drop)]
pub struct Name {
    pub text: Text,
    pub span: Span,
}

/// A number where it stands.
#[derive(Clone, Copy, Debug, PartialEq, Eq)]
pub struct Num {
    pub v: u64,
    pub span: Span,
}

/// A whole specification. `end` is the length of its source.
pub struct Tree {
    pub items: Vec<Item>,
    pub end: u32,
}

/// Written out, so that what lets a tree go stands once, and not once more in each crate where one is let go.
impl Drop for Tree {
    fn drop(self) {
        let Tree {
            items: _items,
            end: _end,
        } = self;
    }
}

/// A declaration.
#[derive(Drop)]
pub enum Item {
    Data(DataDecl),
    Map(MapDecl),
    Fun(FunDecl),
    Decode(DecodeDecl),
}

/// `name: Type`, a field of a constructor or a parameter of a function.
#[derive(Debug, Drop)]
pub struct FieldDecl {
    pub name: Name,
    pub ty: Name,
    pub span: Span,
}

/// A constructor of a datatype.
#[derive(Debug, Drop)]
pub struct CaseDecl {
    pub name: Name,
    pub fields: Vec<FieldDecl>,
    pub span: Span,
}

/// `type Name = Case | Case ..;`
#[derive(Debug, Drop)]
pub struct DataDecl {
    pub name: Name,
    pub cases: Vec<CaseDecl>,
    pub span: Span,
}

/// `map Name [Key -> Value] default number;`
#[derive(Debug, Drop)]
pub struct MapDecl {
    pub name: Name,
    pub key: Name,
    pub value: Name,
    pub default: Num,
    pub span: Span,
}

/// `fun name(..) -> Type = term;`
#[derive(Drop)]
pub struct FunDecl {
    pub name: Name,
    pub params: Vec<FieldDecl>,
    pub result: Name,
    pub body: Expr,
    pub span: Span,
}

/// `decode { row .. }`
#[derive(Debug, Drop)]
pub struct DecodeDecl {
    pub rows: Vec<RowDecl>,
    pub span: Span,
}

/// `[part ..] when guard, .. => Case(arg, ..);`
#[derive(Debug, Drop)]
pub struct RowDecl {
    pub parts: Vec<PartDecl>,
    pub guards: Vec<GuardDecl>,
    pub case: Name,
    pub args: Vec<ArgDecl>,
    pub span: Span,
}

/// A stretch of bits of an instruction word: fixed, or a named field.
#[derive(Debug, Drop)]
pub enum PartDecl {
    Fixed { v: Num, w: Num, span: Span },
    Named { name: Name, w: Num, span: Span },
}

/// A condition on the fields of a row.
#[derive(Debug, Drop)]
pub struct GuardDecl {
    pub field: Name,
    pub op: GuardOp,
    pub other: GuardArg,
    pub span: Span,
}

/// The comparison of a guard: `==`, `!=`, and `<` of unsigned numbers.
#[derive(Clone, Copy, Debug, PartialEq, Eq)]
pub enum GuardOp {
    Eq,
    Ne,
    Less,
}

/// What a guard compares a field with: another field or a number.
#[derive(Debug, Drop)]
pub enum GuardArg {
    Named(Name),
    Number(Num),
}

/// What a row gives to a field of its constructor.
#[derive(Debug, Drop)]
pub enum ArgDecl {
    Named(Name),
    Word { v: Num, w: Num, span: Span },
}

/// The binary operators that are marks.
#[derive(Clone, Copy, Debug, PartialEq, Eq)]
pub enum BinOp {
    OrElse,
    AndAlso,
    Eq,
    Ne,
    BitOr,
    BitXor,
    BitAnd,
    Add,
    Sub,
    Mul,
}

/// The prefix operators.
#[derive(Clone, Copy, Debug, PartialEq, Eq)]
pub enum PreOp {
    Bang,
    Tilde,
    Minus,
}

/// `pattern => term;`
#[cycle(expr)]
#[derive(Drop)]
pub struct Arm {
    pub pat: Pat,
    pub body: Expr,
    pub span: Span,
}

/// A term.
#[cycle(expr)]
#[derive(Drop)]
pub enum Expr {
    Let {
        name: Name,
        x: Box<Expr>,
        then: Box<Expr>,
        span: Span,
    },
    If {
        c: Box<Expr>,
        yes: Box<Expr>,
        no: Box<Expr>,
        span: Span,
    },
    Binary {
        op: BinOp,
        x: Box<Expr>,
        y: Box<Expr>,
        span: Span,
    },
    Prefix {
        op: PreOp,
        x: Box<Expr>,
        span: Span,
    },
    /// `map[key]`
    Get {
        x: Box<Expr>,
        key: Box<Expr>,
        span: Span,
    },
    /// `map[key := v]`
    Put {
        x: Box<Expr>,
        key: Box<Expr>,
        v: Box<Expr>,
        span: Span,
    },
    /// The literal `v:w`.
    Word {
        v: Num,
        w: Num,
        span: Span,
    },
    Flag {
        v: bool,
        span: Span,
    },
    Var(Name),
    Call {
        name: Name,
        args: Vec<Expr>,
        span: Span,
    },
    Make {
        name: Name,
        args: Vec<Expr>,
        span: Span,
    },
    /// An operation that is named by a keyword, as `shl(x, y)`.
    Op {
        op: Keyword,
        x: Box<Expr>,
        y: Box<Expr>,
        span: Span,
    },
    /// `zext(x, to)`, `sext(x, to)` or `trunc(x, to)`.
    Cast {
        op: Keyword,
        x: Box<Expr>,
        to: Num,
        span: Span,
    },
    Match {
        x: Box<Expr>,
        arms: Vec<Arm>,
        span: Span,
    },
    Paren {
        x: Box<Expr>,
        span: Span,
    },
}

/// A pattern.
#[derive(Drop)]
pub enum Pat {
    Any {
        span: Span,
    },
    Var(Name),
    Word {
        v: Num,
        w: Num,
        span: Span,
    },
    Flag {
        v: bool,
        span: Span,
    },
    Make {
        name: Name,
        parts: Vec<Pat>,
        span: Span,
    },
}
