//! Bodies of functions.

ghost use Rattle.std.specs.Prelude.{◌≡◌, IfOk, length, map, true};
ghost use Rattle.std.specs.List.{list_all};
ghost use Rattle.syntax_parser.specs.View.{function, item};
ghost use Rattle.spec_ir.specs.Answers.{Agrees};
ghost use Rattle.spec_ir.specs.Views.{signature_of};
ghost use Rattle.spec_ir.specs.WellFormed.{IsWellFormed, is_signature};
ghost use Rattle.spec_checker.specs.Functions as spec;
ghost use Rattle.spec_checker.specs.Views.{form};

use spec_ir::{Environment, Scope, Signature, SpecError, Ty};
use spec_term_forms::Forms;
use spec_terms::check_body_term;
use std::alloc::{AllocError, Global};
use syntax_parser::tree::{FieldDecl, FunDecl, Item};

/// The functions of items, in their order.
pub fn functions_of(alloc: Global, items: &[Item]) -> Result<Vec<&FunDecl>, AllocError>
    ensures functions { IfOk result (λ r. map (λ f. function f.now) r.items ≡ spec.functions (map item items.now)) }
    ensures count { IfOk result (λ r. length r.items ≡ length (spec.functions (map item items.now))) }
{
    let mut out = Vec::new(alloc);
    for item in items {
        if let Item::Fun(f) = item {
            out.push(f)?;
        }
    }
    Ok(out)
}

/// The typed term and the core term of each function of these signatures, or the first fault.
pub fn check_bodies(
    alloc: Global,
    environment: &Environment,
    functions: &[&FunDecl],
    signatures: &[Signature],
) -> Result<Vec<Forms>, SpecError>
    requires well_formed { IsWellFormed environment.now }
    requires signatures { list_all (is_signature environment.now) (map signature_of signatures.now) ≡ true }
    requires count { length functions.now ≡ length signatures.now }
    ensures answer { Agrees result (spec.bodies_fault environment.now (map (λ f. function f.now) functions.now) (map signature_of signatures.now)) }
    ensures forms { IfOk result (λ r. map form r.items ≡ spec.forms_of environment.now (map (λ f. function f.now) functions.now)
        (map signature_of signatures.now)) }
    ensures count { IfOk result (λ r. length r.items ≡ length functions.now) }
{
    let mut out = Vec::new(alloc);
    for i in 0..functions.len() {
        out.push(check_body(alloc, environment, functions[i], &signatures[i])?)?;
    }
    Ok(out)
}

/// The typed term and the core term of a function of a signature.
fn check_body(
    alloc: Global,
    environment: &Environment,
    f: &FunDecl,
    s: &Signature,
) -> Result<Forms, SpecError>
    requires well_formed { IsWellFormed environment.now }
    requires signature { is_signature environment.now (signature_of s.now) ≡ true }
    ensures answer { Agrees result (spec.body_fault environment.now (function f.now) (signature_of s.now)) }
    ensures form { IfOk result (λ r. form r ≡ spec.form_of environment.now (function f.now) (signature_of s.now)) }
{
    let mut scope = parameters(alloc, &f.params, &s.params)?;
    check_body_term(alloc, environment, &mut scope, &f.body, s.result)
}

/// Parameters with their types, as names in scope.
#[tactic(auto, using(crate::proofs::Making::making))]
fn parameters<'a>(
    alloc: Global,
    params: &'a [FieldDecl],
    types: &[Ty],
) -> Result<Scope<'a>, AllocError>
    ensures { IfOk result (λ r. r ≡ spec.parameters params.now types.now) }
{
    let mut scope = Scope::new(alloc);
    for i in 0..params.len().min(types.len()) {
        scope.enter(&params[i].name.text, types[i])?;
    }
    Ok(scope)
}
