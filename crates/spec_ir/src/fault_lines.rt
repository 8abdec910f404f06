//! The lines that say why a specification is refused.

ghost use Rattle.std.specs.Prelude.{◌≡◌, [], IfOk, codes};
ghost use Rattle.std.specs.Fmt.{decimal};
ghost use Rattle.std.specs.String.{string_bytes};
ghost use Rattle.spec_ir.specs.FaultLines.{fault_line, line_at, pair_at};

use crate::spec_error::SpecError;
use std::alloc::{AllocError, Global};
use syntax_lexer::Text;
use syntax_parser::tree::Span;

impl SpecError {
    /// The line that says which fault this is, with a line end: `spec AT CODE`, then what the fault
    /// says further. Want of memory has the empty one.
    pub fn fault_line(&self, alloc: Global) -> Result<String, AllocError>
        ensures { IfOk result (λ text. string_bytes text ≡ fault_line self.now) }
    {
        match self {
            SpecError::Unknown { span, name } => line_at(alloc, *span, "T1 ", name),
            SpecError::Twice { span, name } => line_at(alloc, *span, "T2 ", name),
            SpecError::Mismatch { span, want, got } => {
                pair_at(alloc, *span, "T3 want ", want, " got ", got)
            }
            SpecError::Arity { span, want, got } => arity_line(alloc, *span, *want, *got),
            SpecError::BadWidth { span, shown } => line_at(alloc, *span, "T5 ", shown),
            SpecError::RecursiveType { span, name } => line_at(alloc, *span, "T6 ", name),
            SpecError::BadRecursion { span, function } => line_at(alloc, *span, "T7 ", function),
            SpecError::NotExhaustive { span, example } => line_at(alloc, *span, "T8 ", example),
            SpecError::Useless { span, row } => useless_line(alloc, *span, *row),
            SpecError::BadState { span } => bare_line(alloc, *span, "T10"),
            SpecError::BadInterp { span } => bare_line(alloc, *span, "T11"),
            SpecError::BadPattern { span } => bare_line(alloc, *span, "T12"),
            SpecError::Overlap {
                span,
                first,
                second,
            } => pair_at(alloc, *span, "T13 ", first, " ", second),
            SpecError::TooMany { span, what } => line_at(alloc, *span, "T14 ", what),
            SpecError::NoMemory => Ok(String::new(alloc)),
        }
    }
}

/// The line of a fault that says nothing further.
fn bare_line(alloc: Global, span: Span, fault: &str) -> Result<String, AllocError>
    ensures { IfOk result (λ text. string_bytes text ≡ line_at span.from fault.now []) }
{
    let at = span.from;
    format!(in alloc; "spec {at} {fault}\n")
}

/// The line of a fault that says one thing further.
fn line_at(alloc: Global, span: Span, fault: &str, more: &Text) -> Result<String, AllocError>
    ensures { IfOk result (λ text. string_bytes text ≡ line_at span.from fault.now more.now) }
{
    let (at, more) = (span.from, more.as_str());
    format!(in alloc; "spec {at} {fault}{more}\n")
}

/// The line of a fault that says two things further.
fn pair_at(
    alloc: Global,
    span: Span,
    fault: &str,
    first: &Text,
    between: &str,
    second: &Text,
) -> Result<String, AllocError>
    ensures { IfOk result (λ text. string_bytes text ≡ pair_at span.from fault.now first.now between.now second.now) }
{
    let (at, first, second) = (span.from, first.as_str(), second.as_str());
    format!(in alloc; "spec {at} {fault}{first}{between}{second}\n")
}

/// The line of a wrong count.
fn arity_line(alloc: Global, span: Span, want: u32, got: u32) -> Result<String, AllocError>
    ensures { IfOk result (λ text. string_bytes text ≡ pair_at span.from (codes "T4 want ") (decimal want) (codes " got ") (decimal got)) }
{
    let at = span.from;
    format!(in alloc; "spec {at} T4 want {want} got {got}\n")
}

/// The line of an arm that is never taken.
fn useless_line(alloc: Global, span: Span, row: u32) -> Result<String, AllocError>
    ensures { IfOk result (λ text. string_bytes text ≡ line_at span.from (codes "T9 ") (decimal row)) }
{
    let at = span.from;
    format!(in alloc; "spec {at} T9 {row}\n")
}
