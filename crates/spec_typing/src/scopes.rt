//! Names that enter a scope, with types of the environment.

ghost use Rattle.std.specs.Prelude.{◌≡◌, [], ◌∷◌, ◌++◌, IfOk, OnOk, true};
ghost use Rattle.syntax_parser.specs.View.{pattern as pattern_tree};
ghost use Rattle.spec_match_compiler.specs.Views.{pat};
ghost use Rattle.spec_ir.specs.Answers.{Agrees};
ghost use Rattle.spec_ir.specs.WellFormed.{IsWellFormed, is_scope, is_type};
ghost use Rattle.spec_patterns.specs.Patterns as spec;

use spec_ir::{Environment, Scope, SpecError, Ty};
use spec_match_compiler::Pattern;
use spec_patterns::checked_pattern;
use std::alloc::{AllocError, Global};
use syntax_lexer::Text;
use syntax_parser::tree::Pat;

/// A name enters.
pub fn enter<'a>(
    _environment: &Environment,
    scope: &mut Scope<'a>,
    name: &'a Text,
    ty: Ty,
) -> Result<(), AllocError>
    requires scope { is_scope _environment.now scope.old ≡ true }
    requires ty { is_type _environment.now ty ≡ true }
    ensures scope { OnOk result (scope.new ≡ scope.old ++ (name.now, ty) ∷ []) }
    ensures types { OnOk result (is_scope _environment.now scope.new ≡ true) }
{
    scope.enter(name, ty)?;
    Ok(())
}

/// The typed pattern of an arm, whose variables enter, or its first fault.
pub fn enter_pattern<'a>(
    alloc: Global,
    environment: &Environment,
    scope: &mut Scope<'a>,
    ty: Ty,
    p: &'a Pat,
) -> Result<Pattern, SpecError>
    requires declared { IsWellFormed environment.now }
    requires scope { is_scope environment.now scope.old ≡ true }
    requires ty { is_type environment.now ty ≡ true }
    ensures answer { Agrees result (spec.pattern_fault environment.now ty (pattern_tree p.now)) }
    ensures pattern { IfOk result (λ r. pat r ≡ spec.pattern_of environment.now scope.old ty (pattern_tree p.now)) }
    ensures scope { OnOk result (scope.new ≡ scope.old ++ spec.variables environment.now ty (pattern_tree p.now)) }
    ensures types { OnOk result (is_scope environment.now scope.new ≡ true) }
{
    let pattern = checked_pattern(alloc, environment, scope, ty, p)?;
    Ok(pattern)
}
