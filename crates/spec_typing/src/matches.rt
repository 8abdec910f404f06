//! The decision of a match.

ghost use Rattle.std.specs.Prelude.{◌≡◌, All, IfOk, map, true};
ghost use Rattle.spec_match_compiler.specs.Answers.{match_answer};
ghost use Rattle.spec_match_compiler.specs.Answers as answers;
ghost use Rattle.spec_match_compiler.specs.Shapes.{Suits};
ghost use Rattle.spec_match_compiler.specs.Views.{pat, tree};
ghost use Rattle.spec_ir.specs.Answers.{Agrees};
ghost use Rattle.spec_ir.specs.Environment.{shape_of, shapes_of};
ghost use Rattle.spec_ir.specs.WellFormed.{IsWellFormed, is_type};
ghost use Rattle.spec_typing.specs.Parts as parts;

use spec_ir::{Environment, SpecError, Ty, number, shape};
use spec_match_compiler::{Decision, MatchError, Pattern, compile};
use std::alloc::Global;
use syntax_parser::tree::Span;

/// The decision of a match on values of a type, or why it is refused.
pub fn decision(
    alloc: Global,
    environment: &Environment,
    span: Span,
    ty: Ty,
    rows: &[Pattern],
) -> Result<Decision, SpecError>
    requires declared { IsWellFormed environment.now }
    requires ty { is_type environment.now ty ≡ true }
    requires patterns { All (λ p. Suits (shapes_of environment.now) (shape_of ty) (pat p)) rows.now }
    ensures answer { Agrees result (parts.match_fault environment.now span ty (map pat rows.now)) }
    ensures tree { IfOk result (λ d. match_answer (shapes_of environment.now) (shape_of ty) (map pat rows.now) ≡ answers.decision (tree d)) }
{
    let _count = number(rows.len())?;
    match compile(alloc, environment.shapes(), shape(ty), rows) {
        Ok(decision) => Ok(decision),
        Err(MatchError::NotExhaustive { example }) => Err(SpecError::NotExhaustive {
            span,
            example: environment.pattern_text(alloc, ty, &example)?,
        }),
        Err(MatchError::Useless { row }) => Err(SpecError::Useless { span, row }),
        Err(MatchError::NoMemory) => Err(SpecError::NoMemory),
    }
}
