//! Matches whose arms are checked.

ghost use Rattle.std.specs.Prelude.{◌≡◌, [], All, IfOk, None, Some, map, true};
ghost use Rattle.std.specs.List.{zip};
ghost use Rattle.spec_match_compiler.specs.Answers.{match_answer};
ghost use Rattle.spec_match_compiler.specs.Shapes.{Suits};
ghost use Rattle.spec_match_compiler.specs.Views.{pat};
ghost use Rattle.spec_ir.specs.Answers.{Agrees};
ghost use Rattle.spec_ir.specs.CoreTerms as k;
ghost use Rattle.spec_ir.specs.Cores.{tree_of};
ghost use Rattle.spec_ir.specs.Environment.{shape_of, shapes_of};
ghost use Rattle.spec_ir.specs.Terms as s;
ghost use Rattle.spec_ir.specs.Views.{core, term};
ghost use Rattle.spec_ir.specs.WellFormed.{IsWellFormed, is_type};
ghost use Rattle.spec_typing.specs.Parts.{match_fault};

use spec_ir::{Environment, SpecError};
use spec_term_forms::{Branches, choose};
use spec_typing::{Typed, decision};
use std::alloc::Global;
use syntax_parser::tree::Span;

/// A match with its arms, which suit what it is on. Arms without a type are none.
pub fn finish_match(
    alloc: Global,
    environment: &Environment,
    span: Span,
    x: Typed,
    arms: Branches,
) -> Result<Typed, SpecError>
    requires declared { IsWellFormed environment.now }
    requires ty { is_type environment.now x.ty ≡ true }
    requires patterns { All (λ p. Suits (shapes_of environment.now) (shape_of x.ty) (pat p)) arms.patterns.items }
    requires none { arms.ty ≡ None → map pat arms.patterns.items ≡ [] }
    ensures answer { Agrees result (match_fault environment.now span x.ty (map pat arms.patterns.items)) }
    ensures ty { IfOk result (λ r. arms.ty ≡ Some r.ty) }
    ensures term { IfOk result (λ r. term r.forms.term ≡ s.match_on (term x.forms.term)
        (s.arms (zip (map pat arms.patterns.items) (map term arms.terms.items)))) }
    ensures core { IfOk result (λ r. core r.forms.core ≡ k.choose (core x.forms.core)
        (tree_of (match_answer (shapes_of environment.now) (shape_of x.ty) (map pat arms.patterns.items))) (k.cores (map core arms.cores.items))) }
{
    let by = match decision(alloc, environment, span, x.ty, &arms.patterns) {
        Ok(by) => by,
        Err(e) => {
            drop(x);
            return Err(e);
        }
    };
    let Some(ty) = arms.ty else {
        unreachable!();
    };
    let forms = choose(alloc, x.forms, arms, by)?;
    Ok(Typed { forms, ty })
}
