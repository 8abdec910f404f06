//! Bodies of functions.

ghost use Rattle.std.specs.Prelude.{◌≡◌, IfOk, OnOk, true};
ghost use Rattle.syntax_parser.specs.View.{term as expr};
ghost use Rattle.spec_ir.specs.Answers.{Agrees};
ghost use Rattle.spec_ir.specs.Views.{core, term};
ghost use Rattle.spec_ir.specs.WellFormed.{IsWellFormed, is_scope};
ghost use Rattle.spec_typing.specs.Cores.{core_in};
ghost use Rattle.spec_typing.specs.Parts.{wanted};
ghost use Rattle.spec_typing.specs.Terms.{part, term_of};

use crate::terms::check_of_type;
use spec_ir::{Environment, Scope, SpecError, Ty};
use spec_term_forms::Forms;
use std::alloc::Global;
use syntax_parser::tree::Expr;

/// The body of a function, in both forms, or its first fault. The parameters are in scope, and the
/// body has to have the type of the result.
pub fn check_body_term<'a>(
    alloc: Global,
    environment: &Environment,
    scope: &mut Scope<'a>,
    body: &'a Expr,
    want: Ty,
) -> Result<Forms, SpecError>
    requires declared { IsWellFormed environment.now }
    requires scope { is_scope environment.now scope.old ≡ true }
    ensures answer { Agrees result (wanted environment.now want (part environment.now scope.old (expr body.now))) }
    ensures term { IfOk result (λ r. term r.term ≡ term_of environment.now scope.old (expr body.now)) }
    ensures core { IfOk result (λ r. core r.core ≡ core_in environment.now scope.old (expr body.now)) }
    ensures scope { OnOk result (scope.new ≡ scope.old) }
{
    check_of_type(alloc, environment, scope, body, want)
}
