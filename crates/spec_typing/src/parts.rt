//! Faults of a part against what is wanted of it.

ghost use Rattle.std.specs.Prelude.{◌≡◌, ◌⊎◌, IfOk, codes};
ghost use Rattle.spec_ir.specs.Answers.{Agrees};
ghost use Rattle.spec_ir.specs.Texts.{type_text};
ghost use Rattle.spec_typing.specs.Parts as part;

use spec_ir::{CastKind, Environment, SpecError, Ty, number_text};
use spec_term_forms::cast_fits;
use std::alloc::Global;
use syntax_lexer::Text;
use syntax_parser::tree::{Num, Span};

/// A word may be cast to a width.
pub fn cast_fault(
    alloc: Global,
    kind: CastKind,
    from: u32,
    to: Num,
    span: Span,
) -> Result<(), SpecError>
    ensures { Agrees result (part.cast_fault kind (Ty.Word from) to span) }
{
    if cast_fits(kind, from, to.v) {
        return Ok(());
    }
    Err(SpecError::BadWidth {
        span,
        shown: number_text(alloc, to.v)?,
    })
}

/// A part isn't of the kind that is wanted.
fn kind_fault(
    alloc: Global,
    environment: &Environment,
    want: &str,
    span: Span,
    got: Ty,
) -> SpecError
    ensures { (result ≡ SpecError.Mismatch span want.now (type_text environment.now got)) ⊎ (result ≡ SpecError.NoMemory) }
{
    match (
        Text::from_str(alloc, want),
        environment.type_text(alloc, got),
    ) {
        (Ok(want), Ok(got)) => SpecError::Mismatch { span, want, got },
        _ => SpecError::NoMemory,
    }
}

/// The width of a part that has to be a word.
pub fn word_width(
    alloc: Global,
    environment: &Environment,
    span: Span,
    got: Ty,
) -> Result<u32, SpecError>
    ensures answer { Agrees result (part.word_fault environment.now span got) }
    ensures width { IfOk result (λ w. got ≡ Ty.Word w) }
{
    match got {
        Ty::Word(w) => Ok(w),
        _ => Err(kind_fault(alloc, environment, "word", span, got)),
    }
}

/// The map type of a part that has to be a map.
pub fn map_number(
    alloc: Global,
    environment: &Environment,
    span: Span,
    got: Ty,
) -> Result<u32, SpecError>
    ensures answer { Agrees result (part.map_fault environment.now span got) }
    ensures map { IfOk result (λ m. got ≡ Ty.Map m) }
{
    match got {
        Ty::Map(m) => Ok(m),
        _ => Err(kind_fault(alloc, environment, "map", span, got)),
    }
}
