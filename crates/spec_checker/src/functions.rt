//! Functions, with their groups.

ghost use Rattle.std.specs.Prelude.{◌≡◌, ◌⊎◌, IfErr, IfOk, None, OnOk, length, map, true};
ghost use Rattle.syntax_parser.specs.View.{function, item};
ghost use Rattle.spec_ir.specs.Views.{fun_of, signature_of, term};
ghost use Rattle.spec_ir.specs.WellFormed.{IsWellFormed};
ghost use Rattle.spec_calls.specs.Groups.{AreGroups};
ghost use Rattle.spec_calls.specs.Recursion.{IsRecursionFault, NoRecursionFault};
ghost use Rattle.spec_checker.specs.Check.{AreFuns, functions_pass};
ghost use Rattle.spec_checker.specs.Functions as spec;
ghost use Rattle.spec_checker.specs.Views.{form};
ghost use Rattle.spec_checker.specs.Steps.{made, made_of};

use crate::bodies::{check_bodies, functions_of};
use spec_calls::{Group, groups};
use spec_ir::{Environment, Fun, Signature, SpecError, Term};
use spec_term_forms::Forms;
use std::alloc::{AllocError, Global};
use syntax_parser::tree::{FunDecl, Item, Name};

/// The functions of items, or the first fault of a body, or else of recursion.
pub fn check_functions(
    alloc: Global,
    environment: &Environment,
    items: &[Item],
    signatures: &[Signature],
) -> Result<Vec<Fun>, SpecError>
    requires well_formed { IsWellFormed environment.now }
    requires signatures { map signature_of signatures.now ≡ environment.now.funs }
    requires count { length (spec.functions (map item items.now)) ≡ length signatures.now }
    ensures accepted { OnOk result (functions_pass environment.now (map item items.now)).none }
    ensures funs { IfOk result (λ r. AreFuns environment.now (map item items.now) (map fun_of r.items)) }
    ensures fault { IfErr result (λ e. (functions_pass environment.now (map item items.now)).fault e ⊎ (e ≡ SpecError.NoMemory)) }
{
    let functions = functions_of(alloc, items)?;
    let forms = check_bodies(alloc, environment, &functions, signatures)?;
    let groups = groups_of(alloc, &functions, &forms)?;
    Ok(checked_functions(alloc, signatures, forms, &groups)?)
}

/// The group of each function.
fn groups_of(
    alloc: Global,
    functions: &[&FunDecl],
    forms: &[Forms],
) -> Result<Vec<Group>, SpecError>
    requires { length functions.now ≡ length forms.now }
    ensures recursion { OnOk result (NoRecursionFault (spec.terms_in (map form forms.now))) }
    ensures groups { IfOk result (λ r. AreGroups (spec.terms_in (map form forms.now)) r.items) }
    ensures fault { IfErr result (λ e. IsRecursionFault (map (λ f. f.name) (map (λ f. function f.now) functions.now))
        (spec.terms_in (map form forms.now)) e ⊎ (e ≡ SpecError.NoMemory)) }
{
    let names = names_of(alloc, functions)?;
    let terms = terms_of(alloc, forms)?;
    groups(alloc, &names, &terms)
}

/// The names of functions.
fn names_of<'a>(alloc: Global, functions: &[&'a FunDecl]) -> Result<Vec<&'a Name>, AllocError>
    ensures count { IfOk result (λ r. length r.items ≡ length functions.now) }
    ensures names { IfOk result (λ r. map (λ n. n.now) r.items ≡ map (λ f. f.name) (map (λ f. function f.now) functions.now)) }
{
    let mut out = Vec::new(alloc);
    for f in functions {
        out.push(&f.name)?;
    }
    Ok(out)
}

/// The typed terms of functions.
fn terms_of<'a>(alloc: Global, forms: &'a [Forms]) -> Result<Vec<&'a Term>, AllocError>
    ensures count { IfOk result (λ r. length r.items ≡ length forms.now) }
    ensures terms { IfOk result (λ r. map (λ t. term t.now) r.items ≡ spec.terms_in (map form forms.now)) }
{
    let mut out = Vec::new(alloc);
    for b in forms {
        out.push(&b.term)?;
    }
    Ok(out)
}

/// Functions by their signatures, forms and groups.
fn checked_functions(
    alloc: Global,
    signatures: &[Signature],
    forms: Vec<Forms>,
    groups: &[Group],
) -> Result<Vec<Fun>, AllocError>
    requires { length groups.now ≡ length signatures.now }
    ensures { IfOk result (λ r. map fun_of r.items ≡ made (map signature_of signatures.now) (map form forms.items) groups.now) }
{
    let mut out = Vec::new(alloc);
    let mut left = forms.into_iter();
    for (i, g) in groups.iter().enumerate() {
        match left.next() {
            Some(forms) => out.push(checked_function(alloc, &signatures[i], forms, *g)?)?,
            None => return Ok(out),
        }
    }
    Ok(out)
}

/// A function by its signature, forms and group.
fn checked_function(alloc: Global, s: &Signature, forms: Forms, g: Group) -> Result<Fun, AllocError>
    ensures { IfOk result (λ r. fun_of r ≡ made_of (signature_of s.now) (form forms) g) }
{
    Ok(Fun {
        name: s.name.copy(alloc)?,
        params: Vec::from_slice(alloc, &s.params)?,
        result: s.result,
        body: forms.term,
        core: forms.core,
        group: g.number,
        loops: g.loops,
    })
}
