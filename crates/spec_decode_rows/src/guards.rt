//! Guards of a row.

ghost use Rattle.std.specs.Prelude.{◌≡◌, IfOk, map};
ghost use Rattle.std.specs.List.{list_all};
ghost use Rattle.spec_ir.specs.Answers.{Agrees, unless};
ghost use Rattle.spec_decode_rows.specs.Decoded as decoded;
ghost use Rattle.spec_decode_rows.specs.Fits as spec;
ghost use Rattle.spec_decode_rows.specs.Views.{field};

use crate::fields::{RowField, field_named};
use crate::numbers::fits;
use spec_ir::{Arg, Guard, SpecError};
use std::alloc::Global;
use syntax_parser::tree::{GuardArg, GuardDecl, GuardOp, Span};
use word_operations::WordComparison;

/// The guards of a row at a span.
pub fn check_guards(
    alloc: Global,
    fields: &[RowField],
    guards: &[GuardDecl],
    span: Span,
) -> Result<Vec<Guard>, SpecError>
    ensures answer { Agrees result (unless (list_all (spec.guard_fits (map field fields.now)) guards.now) (SpecError.BadPattern span)) }
    ensures guards { IfOk result (λ r. r.items ≡ map (decoded.guard_of (map field fields.now)) guards.now) }
{
    let mut out = Vec::new(alloc);
    for g in guards {
        out.push(check_guard(fields, g, span)?)?;
    }
    Ok(out)
}

/// A guard of a row: a known field, and what it is compared with.
fn check_guard(fields: &[RowField], g: &GuardDecl, span: Span) -> Result<Guard, SpecError>
    ensures answer { Agrees result (unless (spec.guard_fits (map field fields.now) g.now) (SpecError.BadPattern span)) }
    ensures guard { IfOk result (λ r. r ≡ decoded.guard_of (map field fields.now) g.now) }
{
    match field_named(fields, &g.field) {
        None => Err(SpecError::BadPattern { span }),
        Some(f) => {
            let other = check_other(fields, f.width, &g.other, span)?;
            Ok(Guard {
                field: f.number,
                c: guard_comparison(g.op),
                other,
            })
        }
    }
}

/// A number that a width has room for, or a field of this width.
fn check_other(fields: &[RowField], w: u32, other: &GuardArg, span: Span) -> Result<Arg, SpecError>
    ensures answer { Agrees result (unless (spec.other_fits (map field fields.now) w other.now) (SpecError.BadPattern span)) }
    ensures other { IfOk result (λ r. r ≡ decoded.other_of (map field fields.now) w other.now) }
{
    match other {
        GuardArg::Number(n) => {
            if !fits(n.v, w as u64) {
                return Err(SpecError::BadPattern { span });
            }
            Ok(Arg::Word { w, v: n.v })
        }
        GuardArg::Named(name) => match field_named(fields, name) {
            Some(f) if f.width == w => Ok(Arg::Field(f.number)),
            _ => Err(SpecError::BadPattern { span }),
        },
    }
}

/// The comparison of a guard.
fn guard_comparison(op: GuardOp) -> WordComparison
    ensures { result ≡ decoded.guard_comparison op }
{
    match op {
        GuardOp::Eq => WordComparison::Eq,
        GuardOp::Ne => WordComparison::Ne,
        GuardOp::Less => WordComparison::LtU,
    }
}
