//! Checked terms, and those without parts.

ghost use Rattle.std.specs.Prelude.{◌≡◌, IfOk, None, Some, option_map};
ghost use Rattle.spec_ir.specs.Answers.{Agrees, found};
ghost use Rattle.spec_ir.specs.CoreTerms as k;
ghost use Rattle.spec_ir.specs.Environment.{variable_named};
ghost use Rattle.spec_ir.specs.Terms as s;
ghost use Rattle.spec_ir.specs.Views.{core, term};
ghost use Rattle.spec_patterns.specs.Faults as faults;
ghost use Rattle.spec_typing.specs.Terms as spec;

use spec_ir::{Scope, SpecError, Ty, number};
use spec_patterns::{literal_fault, unknown};
use spec_term_forms::{Forms, literal, variable};
use std::alloc::Global;
use syntax_parser::tree::{Name, Num, Span};

/// A checked term with its type.
#[derive(Drop)]
pub struct Typed {
    pub forms: Forms,
    pub ty: Ty,
}

/// A checked term that is a word, with its width, or a map, with the number of its type.
#[derive(Drop)]
pub struct Operand {
    pub forms: Forms,
    pub number: u32,
}

/// A literal.
pub fn a_literal(alloc: Global, v: Num, w: Num, span: Span) -> Result<Typed, SpecError>
    ensures answer { Agrees result (faults.literal_fault v w span) }
    ensures ty { IfOk result (λ r. Ty.Word w.v ≡ r.ty) }
    ensures term { IfOk result (λ r. term r.forms.term ≡ s.word w.v v.v) }
    ensures core { IfOk result (λ r. core r.forms.core ≡ k.word w.v v.v) }
{
    literal_fault(alloc, v, w, span)?;
    let w = w.v as u32;
    Ok(Typed {
        forms: literal(w, v.v),
        ty: Ty::Word(w),
    })
}

/// A variable.
pub fn a_variable(alloc: Global, scope: &Scope, name: &Name) -> Result<Typed, SpecError>
    ensures answer { Agrees result (found (variable_named scope.now name.now.text) (faults.unknown name.now) (λ x. None)) }
    ensures ty { IfOk result (λ r. option_map (λ x. x.ty) (variable_named scope.now name.now.text) ≡ Some r.ty) }
    ensures term { IfOk result (λ r. term r.forms.term ≡ s.var (spec.place_of (variable_named scope.now name.now.text))) }
    ensures core { IfOk result (λ r. core r.forms.core ≡ k.var (spec.place_of (variable_named scope.now name.now.text))) }
{
    match scope.innermost(&name.text) {
        None => Err(unknown(alloc, name)),
        Some(x) => Ok(Typed {
            forms: variable(number(x.place)?),
            ty: x.ty,
        }),
    }
}
