//! Variables of patterns.

ghost use Rattle.std.specs.Prelude.{◌≡◌, [], ◌++◌, OnOk, map};
ghost use Rattle.syntax_parser.specs.Tree.{arms as arm_trees, patterns as pattern_trees, terms as exprs};
ghost use Rattle.syntax_parser.specs.View.{arm as arm_tree, pattern as pattern_tree, term as expr};
ghost use Rattle.spec_ir.specs.Answers.{Agrees};
ghost use Rattle.spec_names.specs.Names as spec;

use crate::names::twice_among;
use spec_ir::SpecError;
use std::alloc::{AllocError, Global};
use syntax_parser::tree::{Arm, Expr, Name, Pat};

/// Puts the variables of a pattern behind others.
#[cycle(variables)]
pub fn variables<'a>(p: &'a Pat, out: &mut Vec<&'a Name>) -> Result<(), AllocError>
    ensures { OnOk result (map (λ n. n.now) out.new.items ≡ map (λ n. n.now) out.old.items ++ spec.variables (pattern_tree p.now)) }
{
    match p {
        Pat::Var(name) => {
            out.push(name)?;
            Ok(())
        }
        Pat::Make {
            name: _name,
            parts,
            span: _span,
        } => all_variables(parts, out),
        _ => Ok(()),
    }
}

/// Puts the variables of patterns behind others.
#[cycle(variables)]
fn all_variables<'a>(parts: &'a [Pat], out: &mut Vec<&'a Name>) -> Result<(), AllocError>
    ensures { OnOk result (map (λ n. n.now) out.new.items ≡ map (λ n. n.now) out.old.items ++ spec.all_variables (pattern_trees (map pattern_tree parts.now))) }
{
    for p in parts {
        variables(p, out)?;
    }
    Ok(())
}

/// A variable stands twice in a pattern.
fn check_pattern(alloc: Global, p: &Pat) -> Result<(), SpecError>
    ensures { Agrees result (spec.twice_among [] (spec.variables (pattern_tree p.now))) }
{
    let mut names = Vec::new(alloc);
    variables(p, &mut names)?;
    twice_among(alloc, names.as_slice())
}

/// A pattern of a term has a variable twice.
#[cycle(patterns)]
pub fn check_patterns(alloc: Global, e: &Expr) -> Result<(), SpecError>
    ensures { Agrees result (spec.patterns_fault (expr e.now)) }
{
    match e {
        Expr::Let {
            name: _name,
            x,
            then,
            span: _span,
        } => {
            check_patterns(alloc, x)?;
            check_patterns(alloc, then)
        }
        Expr::If {
            c,
            yes,
            no,
            span: _span,
        } => {
            check_patterns(alloc, c)?;
            check_patterns(alloc, yes)?;
            check_patterns(alloc, no)
        }
        Expr::Binary {
            op: _op,
            x,
            y,
            span: _span,
        } => {
            check_patterns(alloc, x)?;
            check_patterns(alloc, y)
        }
        Expr::Prefix {
            op: _op,
            x,
            span: _span,
        } => check_patterns(alloc, x),
        Expr::Get {
            x,
            key,
            span: _span,
        } => {
            check_patterns(alloc, x)?;
            check_patterns(alloc, key)
        }
        Expr::Put {
            x,
            key,
            v,
            span: _span,
        } => {
            check_patterns(alloc, x)?;
            check_patterns(alloc, key)?;
            check_patterns(alloc, v)
        }
        Expr::Call {
            name: _name,
            args,
            span: _span,
        } => check_all(alloc, args),
        Expr::Make {
            name: _name,
            args,
            span: _span,
        } => check_all(alloc, args),
        Expr::Op {
            op: _op,
            x,
            y,
            span: _span,
        } => {
            check_patterns(alloc, x)?;
            check_patterns(alloc, y)
        }
        Expr::Cast {
            op: _op,
            x,
            to: _to,
            span: _span,
        } => check_patterns(alloc, x),
        Expr::Match {
            x,
            arms,
            span: _span,
        } => {
            check_patterns(alloc, x)?;
            check_arms(alloc, arms)
        }
        Expr::Paren { x, span: _span } => check_patterns(alloc, x),
        Expr::Word {
            v: _v,
            w: _w,
            span: _span,
        } => Ok(()),
        Expr::Flag { v: _v, span: _span } => Ok(()),
        Expr::Var(_name) => Ok(()),
    }
}

/// The same in terms.
#[cycle(patterns)]
fn check_all(alloc: Global, ts: &[Expr]) -> Result<(), SpecError>
    ensures { Agrees result (spec.all_patterns_fault (exprs (map expr ts.now))) }
{
    for t in ts {
        check_patterns(alloc, t)?;
    }
    Ok(())
}

/// The same in arms.
#[cycle(patterns)]
fn check_arms(alloc: Global, arms: &[Arm]) -> Result<(), SpecError>
    ensures { Agrees result (spec.arm_patterns_fault (arm_trees (map arm_tree arms.now))) }
{
    for a in arms {
        check_pattern(alloc, &a.pat)?;
        check_patterns(alloc, &a.body)?;
    }
    Ok(())
}
