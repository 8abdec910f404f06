//! Productions with one or two operands.

ghost use Rattle.std.specs.Prelude.{◌≡◌, IfOk, Some};
ghost use Rattle.spec_ir.specs.Answers.{Agrees};
ghost use Rattle.spec_ir.specs.CoreTerms as k;
ghost use Rattle.spec_ir.specs.Terms as s;
ghost use Rattle.spec_ir.specs.Views.{core, term};
ghost use Rattle.spec_term_forms.specs.Forms as forms;
ghost use Rattle.spec_term_forms.specs.OperatorViews.{operator};
ghost use Rattle.spec_term_forms.specs.Operators as operators;
ghost use Rattle.spec_typing.specs.Terms.{cast_to_fault, prefix_fault};
ghost use Rattle.spec_term_steps.specs.Steps.{fine};

use crate::parts::{typed_part, word_part};
use spec_ir::{Environment, SpecError, Ty};
use spec_term_forms::{Forms, Operator, cast, cast_of, negate, operate, result_type, unary};
use spec_typing::{Typed, cast_fault};
use std::alloc::{AllocError, Global};
use syntax_lexer::Keyword;
use syntax_parser::tree::{Num, PreOp, Span};
use word_operations::UnaryOperation;

/// An operator on two operands of one type, which it takes.
pub fn finish_operation(
    alloc: Global,
    op: Operator,
    x: Typed,
    y: Forms,
) -> Result<Typed, AllocError>
    ensures ty { IfOk result (λ r. forms.operator_type (operator op) (Some x.ty) ≡ Some r.ty) }
    ensures term { IfOk result (λ r. term r.forms.term ≡ forms.operator_term (operator op) (forms.width_of (Some x.ty)) (term x.forms.term) (term y.term)) }
    ensures core { IfOk result (λ r. core r.forms.core ≡ forms.operator_core (operator op) (forms.width_of (Some x.ty)) (core x.forms.core) (core y.core)) }
{
    let ty = x.ty;
    let forms = operate(alloc, op, ty, x.forms, y)?;
    Ok(Typed {
        forms,
        ty: result_type(op, ty),
    })
}

/// A prefix operator on an operand at `span`.
pub fn finish_prefix(
    alloc: Global,
    environment: &Environment,
    op: PreOp,
    span: Span,
    x: Typed,
) -> Result<Typed, SpecError>
    ensures answer { Agrees result (prefix_fault environment.now op (fine span x.ty)) }
    ensures ty { IfOk result (λ r. forms.prefix_type op (Some x.ty) ≡ Some r.ty) }
    ensures term { IfOk result (λ r. term r.forms.term ≡ forms.prefix_term op (forms.width_of (Some x.ty)) (term x.forms.term)) }
    ensures core { IfOk result (λ r. core r.forms.core ≡ forms.prefix_core op (forms.width_of (Some x.ty)) (core x.forms.core)) }
{
    match op {
        PreOp::Bang => {
            let x = typed_part(alloc, environment, Ty::Bool, span, x)?;
            Ok(Typed {
                forms: negate(alloc, x)?,
                ty: Ty::Bool,
            })
        }
        PreOp::Tilde => {
            let x = word_part(alloc, environment, span, x)?;
            Ok(Typed {
                forms: unary(alloc, UnaryOperation::Not, x.number, x.forms)?,
                ty: Ty::Word(x.number),
            })
        }
        PreOp::Minus => {
            let x = word_part(alloc, environment, span, x)?;
            Ok(Typed {
                forms: unary(alloc, UnaryOperation::Neg, x.number, x.forms)?,
                ty: Ty::Word(x.number),
            })
        }
    }
}

/// A cast, which stands at `span`, of an operand at `place`.
#[tactic(auto, unfolding(spec_typing::specs::Terms::cast_to_fault))]
pub fn finish_cast(
    alloc: Global,
    environment: &Environment,
    op: Keyword,
    place: Span,
    x: Typed,
    to: Num,
    span: Span,
) -> Result<Typed, SpecError>
    ensures answer { Agrees result (cast_to_fault environment.now (operators.cast_of op) (fine place x.ty) to span) }
    ensures ty { IfOk result (λ r. Ty.Word to.v ≡ r.ty) }
    ensures term { IfOk result (λ r. term r.forms.term ≡ s.cast (operators.cast_of op) (forms.width_of (Some x.ty)) to.v (term x.forms.term)) }
    ensures core { IfOk result (λ r. core r.forms.core ≡ k.cast (operators.cast_of op) (forms.width_of (Some x.ty)) to.v (core x.forms.core)) }
{
    let x = word_part(alloc, environment, place, x)?;
    let kind = cast_of(op);
    match cast_fault(alloc, kind, x.number, to, span) {
        Ok(()) => {
            let width = to.v as u32;
            Ok(Typed {
                forms: cast(alloc, kind, x.number, width, x.forms)?,
                ty: Ty::Word(width),
            })
        }
        Err(e) => {
            drop(x);
            Err(e)
        }
    }
}
