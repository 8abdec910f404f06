//! The constructor of a row and its arguments.

ghost use Rattle.std.specs.Prelude.{◌≡◌, IfOk, map};
ghost use Rattle.spec_ir.specs.Answers.{Agrees, unless};
ghost use Rattle.spec_decode_rows.specs.Decoded as decoded;
ghost use Rattle.spec_decode_rows.specs.Fits as spec;
ghost use Rattle.spec_decode_rows.specs.Views.{field};

use crate::fields::{RowField, field_named};
use crate::numbers::{fits, is_word};
use spec_ir::{Arg, SpecError, Ty};
use std::alloc::Global;
use syntax_parser::tree::{ArgDecl, Span};

/// The arguments of a row at a span, for fields of these types.
#[tactic(auto, using(crate::proofs::Steps::row_steps))]
pub fn check_arguments(
    alloc: Global,
    fields: &[RowField],
    args: &[ArgDecl],
    types: &[Ty],
    span: Span,
) -> Result<Vec<Arg>, SpecError>
    ensures answer { Agrees result (unless (spec.args_fit (map field fields.now) args.now types.now) (SpecError.BadPattern span)) }
    ensures args { IfOk result (λ r. r.items ≡ map (decoded.arg_of (map field fields.now)) args.now) }
{
    if args.len() != types.len() {
        return Err(SpecError::BadPattern { span });
    }
    let mut out = Vec::new(alloc);
    for i in 0..args.len() {
        out.push(check_argument(fields, &args[i], types[i], span)?)?;
    }
    Ok(out)
}

/// An argument of a type.
#[tactic(auto, using(crate::proofs::Steps::row_steps))]
fn check_argument(fields: &[RowField], a: &ArgDecl, ty: Ty, span: Span) -> Result<Arg, SpecError>
    ensures answer { Agrees result (unless (spec.arg_fits (map field fields.now) a.now ty) (SpecError.BadPattern span)) }
    ensures arg { IfOk result (λ r. r ≡ decoded.arg_of (map field fields.now) a.now) }
{
    match a {
        ArgDecl::Named(name) => match field_named(fields, name) {
            Some(f) if is_word(ty, f.width as u64) => Ok(Arg::Field(f.number)),
            _ => Err(SpecError::BadPattern { span }),
        },
        ArgDecl::Word { v, w, .. } => match ty {
            Ty::Word(n) if n as u64 == w.v && fits(v.v, w.v) => Ok(Arg::Word { w: n, v: v.v }),
            _ => Err(SpecError::BadPattern { span }),
        },
    }
}
