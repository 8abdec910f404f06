//! Terms.
//!
//! Where a checked part is at hand when a later one has a fault, it is let go by `drop`: the proof then
//! goes by the drop of its type, and not again by all its cases.

ghost use Rattle.std.specs.Prelude.{◌≡◌, ◌++◌, IfOk, None, OnOk, Some, length, map, option_map, true};
ghost use Rattle.std.specs.List.{zip};
ghost use Rattle.syntax_parser.specs.Tree.{arms as arm_trees, terms as exprs};
ghost use Rattle.syntax_parser.specs.View.{arm as arm_tree, term as expr};
ghost use Rattle.spec_match_compiler.specs.Answers.{match_answer};
ghost use Rattle.spec_match_compiler.specs.Views.{pat};
ghost use Rattle.spec_ir.specs.Answers.{Agrees, ◌then◌};
ghost use Rattle.spec_ir.specs.CoreTerms as k;
ghost use Rattle.spec_ir.specs.Cores.{tree_of};
ghost use Rattle.spec_ir.specs.Environment.{constructor_named, function_named, shape_of, shapes_of, value_type};
ghost use Rattle.spec_ir.specs.Terms as s;
ghost use Rattle.spec_ir.specs.Views.{core, term};
ghost use Rattle.spec_ir.specs.WellFormed.{IsWellFormed, is_scope, is_type};
ghost use Rattle.spec_patterns.specs.Patterns as pattern;
ghost use Rattle.spec_typing.specs.Cores as cores;
ghost use Rattle.spec_term_forms.specs.Forms as forms;
ghost use Rattle.spec_term_forms.specs.Operators as operators;
ghost use Rattle.spec_term_forms.specs.OperatorViews.{operator};
ghost use Rattle.spec_typing.specs.Parts as parts;
ghost use Rattle.spec_typing.specs.Terms as spec;

use spec_ir::{Environment, Scope, SpecError, Ty};
use spec_term_forms::{
    Branch, Branches, Forms, Lists, Operator, call, flag, get, if_else, keyword_operator, let_in,
    make, operator_of, put,
};
use spec_term_steps::{
    body_part, callee_of, count_of, finish_cast, finish_match, finish_operation, finish_prefix,
    maker_of, map_part, operand_part, typed_part,
};
use spec_typing::{Typed, a_literal, a_variable, enter, enter_pattern};
use std::alloc::Global;
use syntax_grammar::span_of;
use syntax_lexer::Keyword;
use syntax_parser::tree::{Arm, Expr, Name, Num, PreOp, Span};

/// The checked term of a term, or its first fault.
#[cycle(check_term)]
pub fn check_term<'a>(
    alloc: Global,
    environment: &Environment,
    scope: &mut Scope<'a>,
    e: &'a Expr,
) -> Result<Typed, SpecError>
    requires declared { IsWellFormed environment.now }
    requires scope { is_scope environment.now scope.old ≡ true }
    ensures answer { Agrees result (spec.fault_in environment.now scope.old (expr e.now)) }
    ensures ty { IfOk result (λ r. spec.type_of environment.now scope.old (expr e.now) ≡ Some r.ty) }
    ensures term { IfOk result (λ r. term r.forms.term ≡ spec.term_of environment.now scope.old (expr e.now)) }
    ensures core { IfOk result (λ r. core r.forms.core ≡ cores.core_in environment.now scope.old (expr e.now)) }
    ensures scope { OnOk result (scope.new ≡ scope.old) }
{
    match e {
        Expr::Word { v, w, span } => a_literal(alloc, *v, *w, *span),
        Expr::Flag { v, span: _span } => Ok(Typed {
            forms: flag(*v),
            ty: Ty::Bool,
        }),
        Expr::Var(name) => a_variable(alloc, scope, name),
        Expr::Paren { x, span: _span } => check_term(alloc, environment, scope, x),
        Expr::Let {
            name,
            x,
            then,
            span: _span,
        } => check_let(alloc, environment, scope, name, x, then),
        Expr::If {
            c,
            yes,
            no,
            span: _span,
        } => check_conditional(alloc, environment, scope, c, yes, no),
        Expr::Binary {
            op,
            x,
            y,
            span: _span,
        } => check_operands(alloc, environment, scope, operator_of(*op), x, y),
        Expr::Op {
            op,
            x,
            y,
            span: _span,
        } => check_operands(alloc, environment, scope, keyword_operator(*op), x, y),
        Expr::Prefix { op, x, span: _span } => check_prefix(alloc, environment, scope, *op, x),
        Expr::Cast { op, x, to, span } => check_cast(alloc, environment, scope, *op, x, *to, *span),
        Expr::Get {
            x,
            key,
            span: _span,
        } => check_get(alloc, environment, scope, x, key),
        Expr::Put {
            x,
            key,
            v,
            span: _span,
        } => check_put(alloc, environment, scope, x, key, v),
        Expr::Call {
            name,
            args,
            span: _span,
        } => check_call(alloc, environment, scope, name, args),
        Expr::Make {
            name,
            args,
            span: _span,
        } => check_constructor(alloc, environment, scope, name, args),
        Expr::Match { x, arms, span } => check_match(alloc, environment, scope, x, arms, *span),
    }
}

/// A part of which a type is wanted.
#[cycle(check_term)]
pub fn check_of_type<'a>(
    alloc: Global,
    environment: &Environment,
    scope: &mut Scope<'a>,
    e: &'a Expr,
    want: Ty,
) -> Result<Forms, SpecError>
    requires declared { IsWellFormed environment.now }
    requires scope { is_scope environment.now scope.old ≡ true }
    ensures answer { Agrees result (parts.wanted environment.now want (spec.part environment.now scope.old (expr e.now))) }
    ensures term { IfOk result (λ r. term r.term ≡ spec.term_of environment.now scope.old (expr e.now)) }
    ensures core { IfOk result (λ r. core r.core ≡ cores.core_in environment.now scope.old (expr e.now)) }
    ensures scope { OnOk result (scope.new ≡ scope.old) }
{
    let x = check_term(alloc, environment, scope, e)?;
    typed_part(alloc, environment, want, span_of(e), x)
}

/// A name for a term in another.
#[cycle(check_term)]
fn check_let<'a>(
    alloc: Global,
    environment: &Environment,
    scope: &mut Scope<'a>,
    name: &'a Name,
    x: &'a Expr,
    body: &'a Expr,
) -> Result<Typed, SpecError>
    requires declared { IsWellFormed environment.now }
    requires scope { is_scope environment.now scope.old ≡ true }
    ensures answer { Agrees result (spec.fault_in environment.now scope.old (expr x.now) then spec.fault_in environment.now
        (spec.enter scope.old name.now.text (spec.type_of environment.now scope.old (expr x.now))) (expr body.now)) }
    ensures ty { IfOk result (λ r. spec.type_of environment.now (spec.enter scope.old name.now.text
        (spec.type_of environment.now scope.old (expr x.now))) (expr body.now) ≡ Some r.ty) }
    ensures term { IfOk result (λ r. term r.forms.term ≡ s.let_in (spec.term_of environment.now scope.old (expr x.now))
        (spec.term_of environment.now (spec.enter scope.old name.now.text (spec.type_of environment.now scope.old (expr x.now))) (expr body.now))) }
    ensures core { IfOk result (λ r. core r.forms.core ≡ k.let_in (cores.core_in environment.now scope.old (expr x.now))
        (cores.core_in environment.now (spec.enter scope.old name.now.text (spec.type_of environment.now scope.old (expr x.now))) (expr body.now))) }
    ensures scope { OnOk result (scope.new ≡ scope.old) }
{
    let depth = scope.depth();
    let x = check_term(alloc, environment, scope, x)?;
    let Ok(()) = enter(environment, scope, &name.text, x.ty) else {
        drop(x);
        return Err(SpecError::NoMemory);
    };
    let body = match check_term(alloc, environment, scope, body) {
        Ok(body) => body,
        Err(e) => {
            drop(x);
            return Err(e);
        }
    };
    scope.leave(depth);
    let forms = let_in(alloc, x.forms, body.forms)?;
    Ok(Typed { forms, ty: body.ty })
}

/// A choice by a condition.
#[cycle(check_term)]
fn check_conditional<'a>(
    alloc: Global,
    environment: &Environment,
    scope: &mut Scope<'a>,
    c: &'a Expr,
    yes: &'a Expr,
    no: &'a Expr,
) -> Result<Typed, SpecError>
    requires declared { IsWellFormed environment.now }
    requires scope { is_scope environment.now scope.old ≡ true }
    ensures answer { Agrees result (spec.if_fault environment.now (spec.part environment.now scope.old (expr c.now))
        (spec.part environment.now scope.old (expr yes.now)) (spec.part environment.now scope.old (expr no.now))) }
    ensures ty { IfOk result (λ r. spec.type_of environment.now scope.old (expr yes.now) ≡ Some r.ty) }
    ensures term { IfOk result (λ r. term r.forms.term ≡ s.if_else (spec.term_of environment.now scope.old (expr c.now))
        (spec.term_of environment.now scope.old (expr yes.now)) (spec.term_of environment.now scope.old (expr no.now))) }
    ensures core { IfOk result (λ r. core r.forms.core ≡ k.if_else (cores.core_in environment.now scope.old (expr c.now))
        (cores.core_in environment.now scope.old (expr yes.now)) (cores.core_in environment.now scope.old (expr no.now))) }
    ensures scope { OnOk result (scope.new ≡ scope.old) }
{
    let c = check_of_type(alloc, environment, scope, c, Ty::Bool)?;
    let yes = match check_term(alloc, environment, scope, yes) {
        Ok(yes) => yes,
        Err(e) => {
            drop(c);
            return Err(e);
        }
    };
    let ty = yes.ty;
    let no = match check_of_type(alloc, environment, scope, no, ty) {
        Ok(no) => no,
        Err(e) => {
            drop(c);
            drop(yes);
            return Err(e);
        }
    };
    let forms = if_else(alloc, c, yes.forms, no)?;
    Ok(Typed { forms, ty })
}

/// An operator on two operands.
#[cycle(check_term)]
fn check_operands<'a>(
    alloc: Global,
    environment: &Environment,
    scope: &mut Scope<'a>,
    op: Operator,
    x: &'a Expr,
    y: &'a Expr,
) -> Result<Typed, SpecError>
    requires declared { IsWellFormed environment.now }
    requires scope { is_scope environment.now scope.old ≡ true }
    ensures answer { Agrees result (spec.operands_fault environment.now (operator op) (spec.part environment.now scope.old (expr x.now))
        (spec.part environment.now scope.old (expr y.now))) }
    ensures ty { IfOk result (λ r. forms.operator_type (operator op) (spec.type_of environment.now scope.old (expr x.now)) ≡ Some r.ty) }
    ensures term { IfOk result (λ r. term r.forms.term ≡ forms.operator_term (operator op)
        (forms.width_of (spec.type_of environment.now scope.old (expr x.now))) (spec.term_of environment.now scope.old (expr x.now))
        (spec.term_of environment.now scope.old (expr y.now))) }
    ensures core { IfOk result (λ r. core r.forms.core ≡ forms.operator_core (operator op)
        (forms.width_of (spec.type_of environment.now scope.old (expr x.now))) (cores.core_in environment.now scope.old (expr x.now))
        (cores.core_in environment.now scope.old (expr y.now))) }
    ensures scope { OnOk result (scope.new ≡ scope.old) }
{
    let span = span_of(x);
    let x = check_term(alloc, environment, scope, x)?;
    let x = operand_part(alloc, environment, op, span, x)?;
    let y = match check_of_type(alloc, environment, scope, y, x.ty) {
        Ok(y) => y,
        Err(e) => {
            drop(x);
            return Err(e);
        }
    };
    Ok(finish_operation(alloc, op, x, y)?)
}

/// A prefix operator on an operand.
#[cycle(check_term)]
fn check_prefix<'a>(
    alloc: Global,
    environment: &Environment,
    scope: &mut Scope<'a>,
    op: PreOp,
    x: &'a Expr,
) -> Result<Typed, SpecError>
    requires declared { IsWellFormed environment.now }
    requires scope { is_scope environment.now scope.old ≡ true }
    ensures answer { Agrees result (spec.prefix_fault environment.now op (spec.part environment.now scope.old (expr x.now))) }
    ensures ty { IfOk result (λ r. forms.prefix_type op (spec.type_of environment.now scope.old (expr x.now)) ≡ Some r.ty) }
    ensures term { IfOk result (λ r. term r.forms.term ≡ forms.prefix_term op (forms.width_of (spec.type_of environment.now scope.old (expr x.now)))
        (spec.term_of environment.now scope.old (expr x.now))) }
    ensures core { IfOk result (λ r. core r.forms.core ≡ forms.prefix_core op (forms.width_of (spec.type_of environment.now scope.old (expr x.now)))
        (cores.core_in environment.now scope.old (expr x.now))) }
    ensures scope { OnOk result (scope.new ≡ scope.old) }
{
    let span = span_of(x);
    let x = check_term(alloc, environment, scope, x)?;
    finish_prefix(alloc, environment, op, span, x)
}

/// A cast.
#[cycle(check_term)]
#[tactic(auto, unfolding(spec_typing::specs::Terms::cast_to_fault))]
fn check_cast<'a>(
    alloc: Global,
    environment: &Environment,
    scope: &mut Scope<'a>,
    op: Keyword,
    x: &'a Expr,
    to: Num,
    span: Span,
) -> Result<Typed, SpecError>
    requires declared { IsWellFormed environment.now }
    requires scope { is_scope environment.now scope.old ≡ true }
    ensures answer { Agrees result (spec.cast_to_fault environment.now (operators.cast_of op) (spec.part environment.now scope.old (expr x.now)) to span) }
    ensures ty { IfOk result (λ r. Ty.Word to.v ≡ r.ty) }
    ensures term { IfOk result (λ r. term r.forms.term ≡ s.cast (operators.cast_of op)
        (forms.width_of (spec.type_of environment.now scope.old (expr x.now))) to.v (spec.term_of environment.now scope.old (expr x.now))) }
    ensures core { IfOk result (λ r. core r.forms.core ≡ k.cast (operators.cast_of op)
        (forms.width_of (spec.type_of environment.now scope.old (expr x.now))) to.v (cores.core_in environment.now scope.old (expr x.now))) }
    ensures scope { OnOk result (scope.new ≡ scope.old) }
{
    let place = span_of(x);
    let x = check_term(alloc, environment, scope, x)?;
    finish_cast(alloc, environment, op, place, x, to, span)
}

/// An access to a map.
#[cycle(check_term)]
fn check_get<'a>(
    alloc: Global,
    environment: &Environment,
    scope: &mut Scope<'a>,
    x: &'a Expr,
    key: &'a Expr,
) -> Result<Typed, SpecError>
    requires declared { IsWellFormed environment.now }
    requires scope { is_scope environment.now scope.old ≡ true }
    ensures answer { Agrees result (spec.get_fault environment.now (spec.part environment.now scope.old (expr x.now))
        (spec.part environment.now scope.old (expr key.now))) }
    ensures ty { IfOk result (λ r. value_type environment.now (spec.map_of (spec.type_of environment.now scope.old (expr x.now))) ≡ r.ty) }
    ensures term { IfOk result (λ r. term r.forms.term ≡ s.get (spec.map_of (spec.type_of environment.now scope.old (expr x.now)))
        (spec.term_of environment.now scope.old (expr x.now)) (spec.term_of environment.now scope.old (expr key.now))) }
    ensures core { IfOk result (λ r. core r.forms.core ≡ k.get (spec.map_of (spec.type_of environment.now scope.old (expr x.now)))
        (cores.core_in environment.now scope.old (expr x.now)) (cores.core_in environment.now scope.old (expr key.now))) }
    ensures scope { OnOk result (scope.new ≡ scope.old) }
{
    let span = span_of(x);
    let x = check_term(alloc, environment, scope, x)?;
    let x = map_part(alloc, environment, span, x)?;
    let key = match check_of_type(alloc, environment, scope, key, x.key) {
        Ok(key) => key,
        Err(e) => {
            drop(x);
            return Err(e);
        }
    };
    let ty = x.value;
    let forms = get(alloc, x.map, x.forms, key)?;
    Ok(Typed { forms, ty })
}

/// An update of a map.
#[cycle(check_term)]
fn check_put<'a>(
    alloc: Global,
    environment: &Environment,
    scope: &mut Scope<'a>,
    x: &'a Expr,
    key: &'a Expr,
    v: &'a Expr,
) -> Result<Typed, SpecError>
    requires declared { IsWellFormed environment.now }
    requires scope { is_scope environment.now scope.old ≡ true }
    ensures answer { Agrees result (spec.put_fault environment.now (spec.part environment.now scope.old (expr x.now))
        (spec.part environment.now scope.old (expr key.now)) (spec.part environment.now scope.old (expr v.now))) }
    ensures ty { IfOk result (λ r. spec.type_of environment.now scope.old (expr x.now) ≡ Some r.ty) }
    ensures term { IfOk result (λ r. term r.forms.term ≡ s.put (spec.map_of (spec.type_of environment.now scope.old (expr x.now)))
        (spec.term_of environment.now scope.old (expr x.now)) (spec.term_of environment.now scope.old (expr key.now))
        (spec.term_of environment.now scope.old (expr v.now))) }
    ensures core { IfOk result (λ r. core r.forms.core ≡ k.put (spec.map_of (spec.type_of environment.now scope.old (expr x.now)))
        (cores.core_in environment.now scope.old (expr x.now)) (cores.core_in environment.now scope.old (expr key.now))
        (cores.core_in environment.now scope.old (expr v.now))) }
    ensures scope { OnOk result (scope.new ≡ scope.old) }
{
    let span = span_of(x);
    let x = check_term(alloc, environment, scope, x)?;
    let x = map_part(alloc, environment, span, x)?;
    let key = match check_of_type(alloc, environment, scope, key, x.key) {
        Ok(key) => key,
        Err(e) => {
            drop(x);
            return Err(e);
        }
    };
    let v = match check_of_type(alloc, environment, scope, v, x.value) {
        Ok(v) => v,
        Err(e) => {
            drop(x);
            drop(key);
            return Err(e);
        }
    };
    let ty = Ty::Map(x.map);
    let forms = put(alloc, x.map, x.forms, key, v)?;
    Ok(Typed { forms, ty })
}

/// A call of a function.
#[cycle(check_term)]
fn check_call<'a>(
    alloc: Global,
    environment: &Environment,
    scope: &mut Scope<'a>,
    name: &'a Name,
    args: &'a [Expr],
) -> Result<Typed, SpecError>
    requires declared { IsWellFormed environment.now }
    requires scope { is_scope environment.now scope.old ≡ true }
    ensures answer { Agrees result (spec.callee_fault environment.now name.now (spec.terms_len (exprs (map expr args.now))) then spec.argument_faults
        environment.now scope.old (spec.params_of (function_named environment.now name.now.text)) (exprs (map expr args.now))) }
    ensures ty { IfOk result (λ r. option_map (λ f. f.signature.result_type) (function_named environment.now name.now.text) ≡ Some r.ty) }
    ensures term { IfOk result (λ r. term r.forms.term ≡ s.call (spec.number_of (function_named environment.now name.now.text))
        (spec.terms_of environment.now scope.old (exprs (map expr args.now)))) }
    ensures core { IfOk result (λ r. core r.forms.core ≡ k.call (spec.number_of (function_named environment.now name.now.text))
        (cores.cores_in environment.now scope.old (exprs (map expr args.now)))) }
    ensures scope { OnOk result (scope.new ≡ scope.old) }
{
    let f = callee_of(alloc, environment, name, count_of(args))?;
    let args = check_arguments(alloc, environment, scope, f.params, args)?;
    Ok(Typed {
        forms: call(f.fun, args),
        ty: f.result,
    })
}

/// A constructor with its arguments.
#[cycle(check_term)]
fn check_constructor<'a>(
    alloc: Global,
    environment: &Environment,
    scope: &mut Scope<'a>,
    name: &'a Name,
    args: &'a [Expr],
) -> Result<Typed, SpecError>
    requires declared { IsWellFormed environment.now }
    requires scope { is_scope environment.now scope.old ≡ true }
    ensures answer { Agrees result (spec.maker_fault environment.now name.now (spec.terms_len (exprs (map expr args.now))) then spec.argument_faults
        environment.now scope.old (pattern.fields_of (constructor_named environment.now name.now.text)) (exprs (map expr args.now))) }
    ensures ty { IfOk result (λ r. option_map (λ c. Ty.Data c.ty) (constructor_named environment.now name.now.text) ≡ Some r.ty) }
    ensures term { IfOk result (λ r. term r.forms.term ≡ s.make (spec.datatype_of (constructor_named environment.now name.now.text))
        (pattern.case_number (constructor_named environment.now name.now.text)) (spec.terms_of environment.now scope.old (exprs (map expr args.now)))) }
    ensures core { IfOk result (λ r. core r.forms.core ≡ k.make (spec.datatype_of (constructor_named environment.now name.now.text))
        (pattern.case_number (constructor_named environment.now name.now.text)) (cores.cores_in environment.now scope.old (exprs (map expr args.now)))) }
    ensures scope { OnOk result (scope.new ≡ scope.old) }
{
    let c = maker_of(alloc, environment, name, count_of(args))?;
    let args = check_arguments(alloc, environment, scope, &c.fields, args)?;
    Ok(Typed {
        forms: make(c.ty, c.case, args),
        ty: Ty::Data(c.ty),
    })
}

/// Arguments, by the types of the parameters or fields.
#[cycle(check_term)]
fn check_arguments<'a>(
    alloc: Global,
    environment: &Environment,
    scope: &mut Scope<'a>,
    types: &[Ty],
    args: &'a [Expr],
) -> Result<Lists, SpecError>
    requires declared { IsWellFormed environment.now }
    requires scope { is_scope environment.now scope.old ≡ true }
    requires count { length types.now ≡ length args.now }
    ensures answer { Agrees result (spec.argument_faults environment.now scope.old types.now (exprs (map expr args.now))) }
    ensures term { IfOk result (λ r. s.terms (map term r.terms.items) ≡ spec.terms_of environment.now scope.old (exprs (map expr args.now))) }
    ensures core { IfOk result (λ r. k.cores (map core r.cores.items) ≡ cores.cores_in environment.now scope.old (exprs (map expr args.now))) }
    ensures scope { OnOk result (scope.new ≡ scope.old) }
{
    let mut out = Lists::new(alloc);
    for i in 0..types.len().min(args.len()) {
        let arg = check_of_type(alloc, environment, scope, &args[i], types[i])?;
        out.push(arg)?;
    }
    Ok(out)
}

/// A match.
#[cycle(check_term)]
fn check_match<'a>(
    alloc: Global,
    environment: &Environment,
    scope: &mut Scope<'a>,
    x: &'a Expr,
    arms: &'a [Arm],
    span: Span,
) -> Result<Typed, SpecError>
    requires declared { IsWellFormed environment.now }
    requires scope { is_scope environment.now scope.old ≡ true }
    ensures answer { Agrees result (spec.matched_fault environment.now scope.old (spec.part environment.now scope.old (expr x.now))
        (arm_trees (map arm_tree arms.now)) span) }
    ensures ty { IfOk result (λ r. spec.arms_type environment.now scope.old (spec.type_or (spec.type_of environment.now scope.old (expr x.now)))
        (arm_trees (map arm_tree arms.now)) ≡ Some r.ty) }
    ensures term { IfOk result (λ r. term r.forms.term ≡ s.match_on (spec.term_of environment.now scope.old (expr x.now))
        (spec.arms_of environment.now scope.old (spec.type_or (spec.type_of environment.now scope.old (expr x.now))) (arm_trees (map arm_tree arms.now)))) }
    ensures core { IfOk result (λ r. core r.forms.core ≡ k.choose (cores.core_in environment.now scope.old (expr x.now))
        (tree_of (match_answer (shapes_of environment.now) (shape_of (spec.type_or (spec.type_of environment.now scope.old (expr x.now))))
        (spec.rows_of environment.now scope.old (spec.type_or (spec.type_of environment.now scope.old (expr x.now))) (arm_trees (map arm_tree arms.now)))))
        (cores.arm_cores environment.now scope.old (spec.type_or (spec.type_of environment.now scope.old (expr x.now))) (arm_trees (map arm_tree arms.now)))) }
    ensures scope { OnOk result (scope.new ≡ scope.old) }
{
    let x = check_term(alloc, environment, scope, x)?;
    let arms = match check_arms(alloc, environment, scope, x.ty, arms) {
        Ok(arms) => arms,
        Err(e) => {
            drop(x);
            return Err(e);
        }
    };
    finish_match(alloc, environment, span, x, arms)
}

/// The arms of a match on values of a type.
#[cycle(check_term)]
fn check_arms<'a>(
    alloc: Global,
    environment: &Environment,
    scope: &mut Scope<'a>,
    from: Ty,
    arms: &'a [Arm],
) -> Result<Branches, SpecError>
    requires declared { IsWellFormed environment.now }
    requires scope { is_scope environment.now scope.old ≡ true }
    requires from { is_type environment.now from ≡ true }
    ensures answer { Agrees result (spec.arms_fault environment.now scope.old from None (arm_trees (map arm_tree arms.now))) }
    ensures ty { IfOk result (λ r. r.ty ≡ spec.arms_type environment.now scope.old from (arm_trees (map arm_tree arms.now))) }
    ensures patterns { IfOk result (λ r. map pat r.patterns.items ≡ spec.rows_of environment.now scope.old from (arm_trees (map arm_tree arms.now))) }
    ensures term { IfOk result (λ r. s.arms (zip (map pat r.patterns.items) (map term r.terms.items))
        ≡ spec.arms_of environment.now scope.old from (arm_trees (map arm_tree arms.now))) }
    ensures core { IfOk result (λ r. k.cores (map core r.cores.items) ≡ cores.arm_cores environment.now scope.old from (arm_trees (map arm_tree arms.now))) }
    ensures scope { OnOk result (scope.new ≡ scope.old) }
{
    let mut out = Branches::new(alloc);
    for i in 0..arms.len() {
        let arm = check_arm(alloc, environment, scope, from, out.ty, &arms[i])?;
        out.push(arm)?;
    }
    Ok(out)
}

/// An arm of a match on values of a type, with a body of the type that is wanted, where one is.
#[cycle(check_term)]
fn check_arm<'a>(
    alloc: Global,
    environment: &Environment,
    scope: &mut Scope<'a>,
    from: Ty,
    want: Option<Ty>,
    arm: &'a Arm,
) -> Result<Branch, SpecError>
    requires declared { IsWellFormed environment.now }
    requires scope { is_scope environment.now scope.old ≡ true }
    requires from { is_type environment.now from ≡ true }
    ensures answer { Agrees result (spec.arm_fault environment.now scope.old from want (arm_tree arm.now).pat (arm_tree arm.now).body) }
    ensures ty { IfOk result (λ r. spec.type_of environment.now (scope.old ++ pattern.variables environment.now from (arm_tree arm.now).pat)
        (arm_tree arm.now).body ≡ Some r.ty) }
    ensures pattern { IfOk result (λ r. pat r.pattern ≡ pattern.pattern_of environment.now scope.old from (arm_tree arm.now).pat) }
    ensures term { IfOk result (λ r. term r.body.term ≡ spec.term_of environment.now
        (scope.old ++ pattern.variables environment.now from (arm_tree arm.now).pat) (arm_tree arm.now).body) }
    ensures core { IfOk result (λ r. core r.body.core ≡ cores.core_in environment.now
        (scope.old ++ pattern.variables environment.now from (arm_tree arm.now).pat) (arm_tree arm.now).body) }
    ensures scope { OnOk result (scope.new ≡ scope.old) }
{
    let depth = scope.depth();
    let pattern = enter_pattern(alloc, environment, scope, from, &arm.pat)?;
    let body = check_term(alloc, environment, scope, &arm.body)?;
    let body = body_part(alloc, environment, want, span_of(&arm.body), body)?;
    scope.leave(depth);
    Ok(Branch {
        pattern,
        body: body.forms,
        ty: body.ty,
    })
}
