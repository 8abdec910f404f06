//! Faults of a name, a count, a literal and a type.

ghost use Rattle.std.specs.Prelude.{◌≡◌, ◌⊎◌};
ghost use Rattle.spec_ir.specs.Answers.{Agrees};
ghost use Rattle.spec_ir.specs.WellFormed.{is_width};
ghost use Rattle.spec_patterns.specs.Faults as spec;

use spec_ir::{Environment, SpecError, Ty, literal_text, same_type};
use std::alloc::Global;
use syntax_parser::tree::{Name, Num, Span};

/// Whether a width is 1 to 64.
pub fn is_width(w: u64) -> bool
    ensures { result ≡ is_width w }
{
    1 <= w && w <= 64
}

/// Whether a number fits a width.
pub fn fits(v: u64, w: u64) -> bool
    ensures { result ≡ spec.fits v w }
{
    is_width(w) && (w == 64 || v < 1 << w)
}

/// Nothing has this name.
pub fn unknown(alloc: Global, name: &Name) -> SpecError
    ensures { (result ≡ spec.unknown name.now) ⊎ (result ≡ SpecError.NoMemory) }
{
    match name.text.copy(alloc) {
        Ok(text) => SpecError::Unknown {
            span: name.span,
            name: text,
        },
        Err(_) => SpecError::NoMemory,
    }
}

/// The count of arguments.
pub fn count_fault(name: &Name, want: usize, got: usize) -> Result<(), SpecError>
    ensures { Agrees result (spec.count_fault name.now want got) }
{
    if want == got {
        return Ok(());
    }
    match (u32::try_from(want), u32::try_from(got)) {
        (Ok(want), Ok(got)) => Err(SpecError::Arity {
            span: name.span,
            want,
            got,
        }),
        _ => Err(SpecError::NoMemory),
    }
}

/// A literal fits its width.
pub fn literal_fault(alloc: Global, v: Num, w: Num, span: Span) -> Result<(), SpecError>
    ensures { Agrees result (spec.literal_fault v w span) }
{
    if fits(v.v, w.v) {
        return Ok(());
    }
    Err(SpecError::BadWidth {
        span,
        shown: literal_text(alloc, v.v, w.v)?,
    })
}

/// A part has the type that is wanted.
pub fn type_fault(
    alloc: Global,
    environment: &Environment,
    want: Ty,
    span: Span,
    got: Ty,
) -> Result<(), SpecError>
    ensures { Agrees result (spec.type_fault environment.now want span got) }
{
    if same_type(want, got) {
        return Ok(());
    }
    Err(SpecError::Mismatch {
        span,
        want: environment.type_text(alloc, want)?,
        got: environment.type_text(alloc, got)?,
    })
}
