//! Patterns.

ghost use Rattle.std.specs.Prelude.{◌≡◌, [], ◌∷◌, ◌++◌, IfErr, IfOk, OnOk, length, map};
ghost use Rattle.syntax_parser.specs.Tree.{patterns as pattern_trees};
ghost use Rattle.syntax_parser.specs.View.{pattern as pattern_tree};
ghost use Rattle.spec_match_compiler.specs.Patterns as m;
ghost use Rattle.spec_match_compiler.specs.Patterns.{pats};
ghost use Rattle.spec_match_compiler.specs.Views.{pat};
ghost use Rattle.spec_ir.specs.Answers.{Agrees};
ghost use Rattle.spec_ir.specs.Environment.{constructor_named};
ghost use Rattle.spec_patterns.specs.Patterns as spec;

use crate::faults::{count_fault, literal_fault, type_fault, unknown};
use spec_ir::{Environment, Scope, SpecError, Ty, field_types, number};
use spec_match_compiler::Pattern;
use std::alloc::Global;
use syntax_parser::tree::{Name, Pat, Span};

/// The typed pattern of a pattern where values have a type, or its first fault. Its variables enter
/// the scope.
#[cycle(pattern)]
pub fn checked_pattern<'a>(
    alloc: Global,
    environment: &Environment,
    scope: &mut Scope<'a>,
    ty: Ty,
    p: &'a Pat,
) -> Result<Pattern, SpecError>
    ensures answer { Agrees result (spec.pattern_fault environment.now ty (pattern_tree p.now)) }
    ensures pattern { IfOk result (λ r. pat r ≡ spec.pattern_of environment.now scope.old ty (pattern_tree p.now)) }
    ensures scope { OnOk result (scope.new ≡ scope.old ++ spec.variables environment.now ty (pattern_tree p.now)) }
{
    match p {
        Pat::Any { span: _span } => Ok(Pattern::Any),
        Pat::Var(name) => Ok(Pattern::Bind(enter_variable(scope, name, ty)?)),
        Pat::Word { v, w, span } => {
            literal_fault(alloc, *v, *w, *span)?;
            type_fault(alloc, environment, ty, *span, Ty::Word(w.v as u32))?;
            Ok(Pattern::Word(v.v))
        }
        Pat::Flag { v, span } => {
            type_fault(alloc, environment, ty, *span, Ty::Bool)?;
            Ok(Pattern::Flag(*v))
        }
        Pat::Make { name, parts, span } => {
            made_pattern(alloc, environment, scope, ty, name, parts, *span)
        }
    }
}

/// The place of a variable that enters the scope.
fn enter_variable<'a>(scope: &mut Scope<'a>, name: &'a Name, ty: Ty) -> Result<u32, SpecError>
    ensures memory { IfErr result (λ e. e ≡ SpecError.NoMemory) }
    ensures place { IfOk result (λ n. n ≡ length scope.old) }
    ensures scope { OnOk result (scope.new ≡ scope.old ++ (name.now.text, ty) ∷ []) }
{
    let place = number(scope.depth())?;
    scope.enter(&name.text, ty)?;
    Ok(place)
}

/// A constructor with patterns.
#[cycle(pattern)]
#[tactic(auto, unfolding(crate::specs::Patterns::make_fault), using(crate::proofs::Lists::patterns_len_map))]
fn made_pattern<'a>(
    alloc: Global,
    environment: &Environment,
    scope: &mut Scope<'a>,
    ty: Ty,
    name: &'a Name,
    parts: &'a [Pat],
    span: Span,
) -> Result<Pattern, SpecError>
    ensures answer { Agrees result (spec.make_fault environment.now ty name.now (spec.patterns_len (pattern_trees (map pattern_tree parts.now)))
        (spec.part_faults environment.now (spec.fields_of (constructor_named environment.now name.now.text))
        (pattern_trees (map pattern_tree parts.now))) span) }
    ensures pattern { IfOk result (λ r. pat r ≡ m.case_is (spec.case_number (constructor_named environment.now name.now.text))
        (spec.parts_of environment.now scope.old (spec.fields_of (constructor_named environment.now name.now.text))
        (pattern_trees (map pattern_tree parts.now)))) }
    ensures scope { OnOk result (scope.new ≡ scope.old ++ spec.part_variables environment.now
        (spec.fields_of (constructor_named environment.now name.now.text)) (pattern_trees (map pattern_tree parts.now))) }
{
    let Some(c) = environment.constructor(&name.text) else {
        return Err(unknown(alloc, name));
    };
    let fields = field_types(alloc, c.fields)?;
    count_fault(name, fields.len(), parts.len())?;
    let parts = checked_parts(alloc, environment, scope, &fields, parts)?;
    let case = number(c.case)?;
    type_fault(alloc, environment, ty, span, Ty::Data(number(c.ty)?))?;
    Ok(Pattern::Case { case, parts })
}

/// The typed patterns of parts, by the types of the fields.
#[cycle(pattern)]
fn checked_parts<'a>(
    alloc: Global,
    environment: &Environment,
    scope: &mut Scope<'a>,
    types: &[Ty],
    parts: &'a [Pat],
) -> Result<Vec<Pattern>, SpecError>
    requires count { length types.now ≡ length parts.now }
    ensures answer { Agrees result (spec.part_faults environment.now types.now (pattern_trees (map pattern_tree parts.now))) }
    ensures patterns { IfOk result (λ r. pats (map pat r.items) ≡ spec.parts_of environment.now scope.old types.now
        (pattern_trees (map pattern_tree parts.now))) }
    ensures scope { OnOk result (scope.new ≡ scope.old ++ spec.part_variables environment.now types.now (pattern_trees (map pattern_tree parts.now))) }
{
    let mut out = Vec::new(alloc);
    for i in 0..types.len().min(parts.len()) {
        let part = checked_pattern(alloc, environment, scope, types[i], &parts[i])?;
        out.push(part)?;
    }
    Ok(out)
}
