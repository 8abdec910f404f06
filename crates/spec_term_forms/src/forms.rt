//! Terms in both forms, built from their parts.

ghost use Rattle.std.specs.Prelude.{◌≡◌, [], ◌∷◌, ◌++◌, IfOk, OnOk, Some, false, map, true};
ghost use Rattle.spec_ir.specs.CoreTerms as k;
ghost use Rattle.spec_ir.specs.Terms as s;
ghost use Rattle.spec_ir.specs.Views.{core, term};
ghost use Rattle.spec_term_forms.specs.Forms.{operator_core, operator_term, operator_type, width_of};
ghost use Rattle.spec_term_forms.specs.OperatorViews.{operator};

use crate::operators::Operator;
use spec_ir::{CastKind, Core, Term, Ty};
use std::alloc::{AllocError, Global};
use word_operations::{BinaryOperation, UnaryOperation, WordComparison};

/// A checked term in both forms: the typed term, and the core term, in which each match is a
/// decision.
#[derive(Drop)]
pub struct Forms {
    pub term: Term,
    pub core: Core,
}

/// Both forms, each in a box.
#[derive(Drop)]
pub struct Boxes {
    pub term: Box<Term>,
    pub core: Box<Core>,
}

/// Both forms of a term in boxes.
pub fn boxed_forms(alloc: Global, x: Forms) -> Result<Boxes, AllocError>
    ensures term { IfOk result (λ r. r.term.value ≡ x.term) }
    ensures core { IfOk result (λ r. r.core.value ≡ x.core) }
{
    let term = Box::new(alloc, x.term)?;
    let core = Box::new(alloc, x.core)?;
    Ok(Boxes { term, core })
}

/// A truth value.
pub fn flag(v: bool) -> Forms
    ensures term { term result.term ≡ s.flag v }
    ensures core { core result.core ≡ k.flag v }
{
    Forms {
        term: Term::Flag(v),
        core: Core::Flag(v),
    }
}

/// The literal of a number and a width.
pub fn literal(w: u32, v: u64) -> Forms
    ensures term { term result.term ≡ s.word w v }
    ensures core { core result.core ≡ k.word w v }
{
    Forms {
        term: Term::Word { w, v },
        core: Core::Word { w, v },
    }
}

/// A variable, by its place in the scope.
pub fn variable(place: u32) -> Forms
    ensures term { term result.term ≡ s.var place }
    ensures core { core result.core ≡ k.var place }
{
    Forms {
        term: Term::Var(place),
        core: Core::Var(place),
    }
}

/// A name for a term in another.
pub fn let_in(alloc: Global, x: Forms, then: Forms) -> Result<Forms, AllocError>
    ensures term { IfOk result (λ r. term r.term ≡ s.let_in (term x.term) (term then.term)) }
    ensures core { IfOk result (λ r. core r.core ≡ k.let_in (core x.core) (core then.core)) }
{
    let x = boxed_forms(alloc, x)?;
    let then = boxed_forms(alloc, then)?;
    Ok(Forms {
        term: Term::Let {
            x: x.term,
            then: then.term,
        },
        core: Core::Let {
            x: x.core,
            then: then.core,
        },
    })
}

/// A choice by a condition.
pub fn if_else(alloc: Global, c: Forms, yes: Forms, no: Forms) -> Result<Forms, AllocError>
    ensures term { IfOk result (λ r. term r.term ≡ s.if_else (term c.term) (term yes.term) (term no.term)) }
    ensures core { IfOk result (λ r. core r.core ≡ k.if_else (core c.core) (core yes.core) (core no.core)) }
{
    let c = boxed_forms(alloc, c)?;
    let yes = boxed_forms(alloc, yes)?;
    let no = boxed_forms(alloc, no)?;
    Ok(Forms {
        term: Term::If {
            c: c.term,
            yes: yes.term,
            no: no.term,
        },
        core: Core::If {
            c: c.core,
            yes: yes.core,
            no: no.core,
        },
    })
}

/// A truth value in boxes.
fn boxed_flag(alloc: Global, v: bool) -> Result<Boxes, AllocError>
    ensures term { IfOk result (λ r. term r.term.value ≡ s.flag v) }
    ensures core { IfOk result (λ r. core r.core.value ≡ k.flag v) }
{
    let term = Box::new(alloc, Term::Flag(v))?;
    let core = Box::new(alloc, Core::Flag(v))?;
    Ok(Boxes { term, core })
}

/// An operator on words of `w` bits.
fn operation(op: BinaryOperation, w: u32, x: Boxes, y: Boxes) -> Forms
    ensures term { term result.term ≡ s.bin op w (term x.term.value) (term y.term.value) }
    ensures core { core result.core ≡ k.bin op w (core x.core.value) (core y.core.value) }
{
    Forms {
        term: Term::Bin {
            op,
            w,
            x: x.term,
            y: y.term,
        },
        core: Core::Bin {
            op,
            w,
            x: x.core,
            y: y.core,
        },
    }
}

/// A comparison of words of `w` bits.
fn comparison(c: WordComparison, w: u32, x: Boxes, y: Boxes) -> Forms
    ensures term { term result.term ≡ s.test c w (term x.term.value) (term y.term.value) }
    ensures core { core result.core ≡ k.test c w (core x.core.value) (core y.core.value) }
{
    Forms {
        term: Term::Test {
            c,
            w,
            x: x.term,
            y: y.term,
        },
        core: Core::Test {
            c,
            w,
            x: x.core,
            y: y.core,
        },
    }
}

/// A choice whose parts are boxed.
fn choice(c: Boxes, yes: Boxes, no: Boxes) -> Forms
    ensures term { term result.term ≡ s.if_else (term c.term.value) (term yes.term.value) (term no.term.value) }
    ensures core { core result.core ≡ k.if_else (core c.core.value) (core yes.core.value) (core no.core.value) }
{
    Forms {
        term: Term::If {
            c: c.term,
            yes: yes.term,
            no: no.term,
        },
        core: Core::If {
            c: c.core,
            yes: yes.core,
            no: no.core,
        },
    }
}

/// An operator on two operands of a type.
pub fn operate(alloc: Global, op: Operator, ty: Ty, x: Forms, y: Forms) -> Result<Forms, AllocError>
    ensures term { IfOk result (λ r. term r.term ≡ operator_term (operator op) (width_of (Some ty)) (term x.term) (term y.term)) }
    ensures core { IfOk result (λ r. core r.core ≡ operator_core (operator op) (width_of (Some ty)) (core x.core) (core y.core)) }
{
    let w = match ty {
        Ty::Word(w) => w,
        _ => 0,
    };
    let x = boxed_forms(alloc, x)?;
    let y = boxed_forms(alloc, y)?;
    match op {
        Operator::Both => Ok(choice(x, y, boxed_flag(alloc, false)?)),
        Operator::Either => Ok(choice(x, boxed_flag(alloc, true)?, y)),
        Operator::Operation(op) => Ok(operation(op, w, x, y)),
        Operator::Comparison(c) => Ok(comparison(c, w, x, y)),
    }
}

/// The type of an operator's result, by the type of its first operand.
pub fn result_type(op: Operator, ty: Ty) -> Ty
    ensures { operator_type (operator op) (Some ty) ≡ Some result }
{
    match op {
        Operator::Operation(_op) => ty,
        _ => Ty::Bool,
    }
}

/// The negation of a truth value.
pub fn negate(alloc: Global, x: Forms) -> Result<Forms, AllocError>
    ensures term { IfOk result (λ r. term r.term ≡ s.if_else (term x.term) (s.flag false) (s.flag true)) }
    ensures core { IfOk result (λ r. core r.core ≡ k.if_else (core x.core) (k.flag false) (k.flag true)) }
{
    let x = boxed_forms(alloc, x)?;
    let yes = boxed_flag(alloc, false)?;
    let no = boxed_flag(alloc, true)?;
    Ok(choice(x, yes, no))
}

/// An operator on one word of `w` bits.
pub fn unary(alloc: Global, op: UnaryOperation, w: u32, x: Forms) -> Result<Forms, AllocError>
    ensures term { IfOk result (λ r. term r.term ≡ s.un op w (term x.term)) }
    ensures core { IfOk result (λ r. core r.core ≡ k.un op w (core x.core)) }
{
    let x = boxed_forms(alloc, x)?;
    Ok(Forms {
        term: Term::Un { op, w, x: x.term },
        core: Core::Un { op, w, x: x.core },
    })
}

/// A cast from one width to another.
pub fn cast(
    alloc: Global,
    kind: CastKind,
    from: u32,
    to: u32,
    x: Forms,
) -> Result<Forms, AllocError>
    ensures term { IfOk result (λ r. term r.term ≡ s.cast kind from to (term x.term)) }
    ensures core { IfOk result (λ r. core r.core ≡ k.cast kind from to (core x.core)) }
{
    let x = boxed_forms(alloc, x)?;
    Ok(Forms {
        term: Term::Cast {
            kind,
            from,
            to,
            x: x.term,
        },
        core: Core::Cast {
            kind,
            from,
            to,
            x: x.core,
        },
    })
}

/// An access to a map.
pub fn get(alloc: Global, map: u32, x: Forms, key: Forms) -> Result<Forms, AllocError>
    ensures term { IfOk result (λ r. term r.term ≡ s.get map (term x.term) (term key.term)) }
    ensures core { IfOk result (λ r. core r.core ≡ k.get map (core x.core) (core key.core)) }
{
    let x = boxed_forms(alloc, x)?;
    let key = boxed_forms(alloc, key)?;
    Ok(Forms {
        term: Term::Get {
            map,
            x: x.term,
            key: key.term,
        },
        core: Core::Get {
            map,
            x: x.core,
            key: key.core,
        },
    })
}

/// An update of a map.
pub fn put(alloc: Global, map: u32, x: Forms, key: Forms, value: Forms) -> Result<Forms, AllocError>
    ensures term { IfOk result (λ r. term r.term ≡ s.put map (term x.term) (term key.term) (term value.term)) }
    ensures core { IfOk result (λ r. core r.core ≡ k.put map (core x.core) (core key.core) (core value.core)) }
{
    let x = boxed_forms(alloc, x)?;
    let key = boxed_forms(alloc, key)?;
    let v = boxed_forms(alloc, value)?;
    Ok(Forms {
        term: Term::Put {
            map,
            x: x.term,
            key: key.term,
            v: v.term,
        },
        core: Core::Put {
            map,
            x: x.core,
            key: key.core,
            v: v.core,
        },
    })
}

/// Checked terms in both forms, in their order.
#[derive(Drop)]
pub struct Lists {
    pub terms: Vec<Term>,
    pub cores: Vec<Core>,
}

impl Lists {
    /// No terms.
    pub fn new(alloc: Global) -> Lists
        ensures terms { result.terms.items ≡ [] }
        ensures cores { result.cores.items ≡ [] }
    {
        Lists {
            terms: Vec::new(alloc),
            cores: Vec::new(alloc),
        }
    }

    /// One more term, at the end.
    pub fn push(&mut self, x: Forms) -> Result<(), AllocError>
        ensures terms { OnOk result (self.new.terms.items ≡ self.old.terms.items ++ x.term ∷ []) }
        ensures cores { OnOk result (self.new.cores.items ≡ self.old.cores.items ++ x.core ∷ []) }
    {
        self.terms.push(x.term)?;
        self.cores.push(x.core)?;
        Ok(())
    }
}

/// A call of a function.
pub fn call(fun: u32, args: Lists) -> Forms
    ensures term { term result.term ≡ s.call fun (s.terms (map term args.terms.items)) }
    ensures core { core result.core ≡ k.call fun (k.cores (map core args.cores.items)) }
{
    Forms {
        term: Term::Call {
            fun,
            args: args.terms,
        },
        core: Core::Call {
            fun,
            args: args.cores,
        },
    }
}

/// A constructor of a datatype with its arguments.
pub fn make(ty: u32, case: u32, args: Lists) -> Forms
    ensures term { term result.term ≡ s.make ty case (s.terms (map term args.terms.items)) }
    ensures core { core result.core ≡ k.make ty case (k.cores (map core args.cores.items)) }
{
    Forms {
        term: Term::Make {
            ty,
            case,
            args: args.terms,
        },
        core: Core::Make {
            ty,
            case,
            args: args.cores,
        },
    }
}
