//! Operations on words, by their kinds.

ghost use Rattle.std.specs.Prelude.{◌≡◌, IfOk};
ghost use Rattle.domain_affine_base.specs.declared.word.Word.TheVariants.{Any};
ghost use Rattle.word_operations.specs.Width.{IsWidth};
ghost use Rattle.domain_affine_base.specs.Operations.{form_op1, form_op2, op1_word, op2_word};
ghost use Rattle.domain_affine_base.specs.Words.{IsOf};

use super::add::add;
use super::mul::mul;
use super::neg::neg;
use super::not::not;
use super::shl::shl;
use super::sub::sub;
use super::word::Word;
use base_trait::dispatch;
use std::alloc::{AllocError as NoMemory, Global};
use support_modular_rows::Form;
use word_operations::{BinaryOperation, UnaryOperation};

/// An operation on one word.
pub(crate) fn of_one(alloc: Global, op: UnaryOperation, w: u32, x: &Word) -> Result<Word, NoMemory>
    requires width { IsWidth w }
    requires word { IsOf w x.now }
    ensures { IfOk result (λ r. r ≡ op1_word op w x.now) }
{
    match x {
        Word::Any => Ok(Word::Any),
        Word::Const(n) => Ok(Word::Const(word_operations::op1(op, w, *n))),
        Word::Form(form) => of_form(alloc, op, form),
    }
}

fn of_form(alloc: Global, op: UnaryOperation, form: &Form) -> Result<Word, NoMemory>
    ensures { IfOk result (λ r. r ≡ form_op1 op form.now) }
{
    dispatch!(op (alloc, form) {
        UnaryOperation::Neg => neg,
        UnaryOperation::Not => not,
    })
}

/// An operation on two words. Two constants give the exact result.
pub(crate) fn of_two(
    alloc: Global,
    op: BinaryOperation,
    w: u32,
    x: &Word,
    y: &Word,
) -> Result<Word, NoMemory>
    requires width { IsWidth w }
    requires left { IsOf w x.now }
    requires right { IsOf w y.now }
    ensures { IfOk result (λ r. r ≡ op2_word op w x.now y.now) }
{
    match (x, y) {
        (Word::Const(m), Word::Const(n)) => Ok(Word::Const(word_operations::op2(op, w, *m, *n))),
        _ => of_forms(alloc, op, w, x, y),
    }
}

/// An operation on two words that are not both constants. But for sums, differences, products and shifts to the left
/// it gives any.
fn of_forms(
    alloc: Global,
    op: BinaryOperation,
    w: u32,
    x: &Word,
    y: &Word,
) -> Result<Word, NoMemory>
    requires left { IsOf w x.now }
    requires right { IsOf w y.now }
    ensures { IfOk result (λ r. r ≡ form_op2 op x.now y.now) }
{
    dispatch!(op (alloc, w, x, y) {
        BinaryOperation::Add => add,
        BinaryOperation::Sub => sub,
        BinaryOperation::Mul => mul,
        BinaryOperation::Shl => shl,
        _ => any,
    })
}

fn any(_alloc: Global, _w: u32, _x: &Word, _y: &Word) -> Result<Word, NoMemory>
    ensures { IfOk result (λ r. r ≡ Any) }
{
    Ok(Word::Any)
}
