//! Parts of which a type is wanted.

ghost use Rattle.std.specs.Prelude.{◌≡◌, IfOk};
ghost use Rattle.spec_ir.specs.Answers.{Agrees};
ghost use Rattle.spec_ir.specs.Environment as e;
ghost use Rattle.spec_patterns.specs.Faults as faults;
ghost use Rattle.spec_term_forms.specs.OperatorViews.{operator};
ghost use Rattle.spec_typing.specs.Parts.{map_fault, wanted_if, word_fault};
ghost use Rattle.spec_typing.specs.Terms.{operand_fault};
ghost use Rattle.spec_term_steps.specs.Steps.{fine};

use spec_ir::{Environment, SpecError, Ty};
use spec_patterns::type_fault;
use spec_term_forms::{Forms, Operator};
use spec_typing::{Operand, Typed, map_number, word_width};
use std::alloc::Global;
use syntax_parser::tree::Span;

/// A checked term that is a map: the number of its type, and the types of keys and values.
#[derive(Drop)]
pub struct MapPart {
    pub forms: Forms,
    pub map: u32,
    pub key: Ty,
    pub value: Ty,
}

/// A part at `span`, of which a type is wanted.
pub fn typed_part(
    alloc: Global,
    environment: &Environment,
    want: Ty,
    span: Span,
    x: Typed,
) -> Result<Forms, SpecError>
    ensures answer { Agrees result (faults.type_fault environment.now want span x.ty) }
    ensures forms { IfOk result (λ r. r ≡ x.forms) }
{
    match type_fault(alloc, environment, want, span, x.ty) {
        Ok(()) => Ok(x.forms),
        Err(e) => {
            drop(x);
            Err(e)
        }
    }
}

/// A part at `span` that has to be a word.
pub fn word_part(
    alloc: Global,
    environment: &Environment,
    span: Span,
    x: Typed,
) -> Result<Operand, SpecError>
    ensures answer { Agrees result (word_fault environment.now span x.ty) }
    ensures width { IfOk result (λ r. x.ty ≡ Ty.Word r.number) }
    ensures forms { IfOk result (λ r. r.forms ≡ x.forms) }
{
    match word_width(alloc, environment, span, x.ty) {
        Ok(number) => Ok(Operand {
            forms: x.forms,
            number,
        }),
        Err(e) => {
            drop(x);
            Err(e)
        }
    }
}

/// A part at `span` that has to be a map.
pub fn map_part(
    alloc: Global,
    environment: &Environment,
    span: Span,
    x: Typed,
) -> Result<MapPart, SpecError>
    ensures answer { Agrees result (map_fault environment.now span x.ty) }
    ensures map { IfOk result (λ r. x.ty ≡ Ty.Map r.map) }
    ensures key { IfOk result (λ r. e.key_type environment.now r.map ≡ r.key) }
    ensures value { IfOk result (λ r. e.value_type environment.now r.map ≡ r.value) }
    ensures forms { IfOk result (λ r. r.forms ≡ x.forms) }
{
    match map_number(alloc, environment, span, x.ty) {
        Ok(map) => Ok(MapPart {
            forms: x.forms,
            map,
            key: environment.key_type(map),
            value: environment.value_type(map),
        }),
        Err(e) => {
            drop(x);
            Err(e)
        }
    }
}

/// The first operand of an operator has a type that it takes.
fn operand_fault(
    alloc: Global,
    environment: &Environment,
    op: Operator,
    span: Span,
    got: Ty,
) -> Result<(), SpecError>
    ensures { Agrees result (operand_fault environment.now (operator op) (fine span got)) }
{
    match op {
        Operator::Both | Operator::Either => {
            type_fault(alloc, environment, Ty::Bool, span, got)?;
            Ok(())
        }
        _ => {
            let _width = word_width(alloc, environment, span, got)?;
            Ok(())
        }
    }
}

/// The first operand of an operator, at `span`.
pub fn operand_part(
    alloc: Global,
    environment: &Environment,
    op: Operator,
    span: Span,
    x: Typed,
) -> Result<Typed, SpecError>
    ensures answer { Agrees result (operand_fault environment.now (operator op) (fine span x.ty)) }
    ensures same { IfOk result (λ r. r ≡ x) }
{
    match operand_fault(alloc, environment, op, span, x.ty) {
        Ok(()) => Ok(x),
        Err(e) => {
            drop(x);
            Err(e)
        }
    }
}

/// The type of an arm's body is the one that is wanted, where one is.
fn body_fault(
    alloc: Global,
    environment: &Environment,
    want: Option<Ty>,
    span: Span,
    got: Ty,
) -> Result<(), SpecError>
    ensures { Agrees result (wanted_if environment.now want (fine span got)) }
{
    match want {
        Some(want) => {
            type_fault(alloc, environment, want, span, got)?;
            Ok(())
        }
        None => Ok(()),
    }
}

/// The body of an arm, at `span`, of which a type may be wanted.
pub fn body_part(
    alloc: Global,
    environment: &Environment,
    want: Option<Ty>,
    span: Span,
    x: Typed,
) -> Result<Typed, SpecError>
    ensures answer { Agrees result (wanted_if environment.now want (fine span x.ty)) }
    ensures same { IfOk result (λ r. r ≡ x) }
{
    match body_fault(alloc, environment, want, span, x.ty) {
        Ok(()) => Ok(x),
        Err(e) => {
            drop(x);
            Err(e)
        }
    }
}
