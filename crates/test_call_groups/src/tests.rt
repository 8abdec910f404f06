//! Groups and faults of functions, worked out by hand from the rule.

use spec_calls::groups;
use spec_ir::{SpecError, Term};
use spec_match_compiler::Pattern;
use std::alloc::{AllocError, Global};
use std::test::Fail;
use syntax_lexer::Text;
use syntax_parser::tree::{Name, Span};

/// A call of function `fun` on variable 0.
fn call(alloc: Global, fun: u32) -> Result<Term, AllocError> {
    call_on(alloc, fun, Term::Var(0))
}

fn call_on(alloc: Global, fun: u32, arg: Term) -> Result<Term, AllocError> {
    Ok(Term::Call {
        fun,
        args: vec![in alloc; arg]?,
    })
}

fn choice(alloc: Global, c: Term, yes: Term, no: Term) -> Result<Term, AllocError> {
    Ok(Term::If {
        c: Box::new(alloc, c)?,
        yes: Box::new(alloc, yes)?,
        no: Box::new(alloc, no)?,
    })
}

fn bound(alloc: Global, x: Term, then: Term) -> Result<Term, AllocError> {
    Ok(Term::Let {
        x: Box::new(alloc, x)?,
        then: Box::new(alloc, then)?,
    })
}

/// A match of a truth value with two arms.
fn matched(alloc: Global, x: Term, yes: Term, no: Term) -> Result<Term, AllocError> {
    Ok(Term::Match {
        x: Box::new(alloc, x)?,
        arms: vec![in alloc; (Pattern::Flag(true), yes), (Pattern::Any, no)]?,
    })
}

/// A constructor of one field.
fn made(alloc: Global, field: Term) -> Result<Term, AllocError> {
    Ok(Term::Make {
        ty: 0,
        case: 0,
        args: vec![in alloc; field]?,
    })
}

/// Names `f`, the nth of which stands at byte 10·n.
fn names(alloc: Global, count: usize) -> Result<Vec<Name>, AllocError> {
    let mut names = Vec::new(alloc);
    let mut from = 0u32;
    for _n in 0..count {
        names.push(Name {
            text: Text::from_str(alloc, "f")?,
            span: Span {
                from,
                to: from.wrapping_add(1),
            },
        })?;
        from = from.wrapping_add(10);
    }
    Ok(names)
}

/// The groups of functions, as `0+ 0+ 2` with a plus where a group loops, or `T7 f BYTE`.
fn answer(alloc: Global, bodies: &[Term]) -> Result<String, AllocError> {
    let names = names(alloc, bodies.len())?;
    let mut name_refs = Vec::new(alloc);
    for name in &names {
        name_refs.push(name)?;
    }
    let mut body_refs = Vec::new(alloc);
    for body in bodies {
        body_refs.push(body)?;
    }
    if name_refs.len() != body_refs.len() {
        return String::from_str(alloc, "no functions");
    }
    match groups(alloc, &name_refs, &body_refs) {
        Ok(groups) => {
            let mut out = String::new(alloc);
            for group in &groups {
                let number = group.number;
                let mark = if group.loops { "+" } else { "" };
                let text = format!(in alloc; "{number}{mark} ")?;
                out.push_str(text.as_str())?;
            }
            Ok(out)
        }
        Err(SpecError::BadRecursion { span, function }) => {
            let from = span.from;
            let name = function.as_str();
            format!(in alloc; "T7 {name} {from}")
        }
        Err(_) => Err(AllocError),
    }
}

/// Calls within a group in tail position, and calls of other groups anywhere.
#[test]
fn groups_are_told(rt: HostRuntime) -> Result<(), Fail> {
    let a = rt.alloc();
    let flag = || Term::Flag(true);
    let table = [
        // no function, and one that calls none
        (Vec::new(a), ""),
        (vec![in a; flag()]?, "0 "),
        // a self call, in a branch, a let, an arm
        (vec![in a; call(a, 0)?]?, "0+ "),
        (vec![in a; choice(a, flag(), flag(), call(a, 0)?)?]?, "0+ "),
        (vec![in a; bound(a, flag(), call(a, 0)?)?]?, "0+ "),
        (vec![in a; matched(a, flag(), flag(), call(a, 0)?)?]?, "0+ "),
        // two functions that call each other, and one that calls both of them inside
        (
            vec![in a;
                choice(a, flag(), flag(), call(a, 1)?)?,
                call(a, 0)?,
                call_on(a, 0, call(a, 1)?)?,
            ]?,
            "0+ 0+ 2 ",
        ),
        // a group of functions 1 and 3, called by 0, which calls 2
        (
            vec![in a;
                made(a, call(a, 1)?)?,
                call(a, 3)?,
                flag(),
                bound(a, call(a, 2)?, call(a, 1)?)?,
            ]?,
            "0 1+ 2 1+ ",
        ),
        // a chain of calls
        (
            vec![in a; made(a, call(a, 1)?)?, made(a, call(a, 2)?)?, flag()]?,
            "0 1 2 ",
        ),
    ];
    for (bodies, want) in &table {
        assert_eq!(rt; answer(a, bodies)?.as_str(), *want);
    }
    Ok(())
}

/// A call of its own group outside tail position, at the first function that has one.
#[test]
fn inner_calls_are_bad(rt: HostRuntime) -> Result<(), Fail> {
    let a = rt.alloc();
    let flag = || Term::Flag(true);
    let table = [
        // a self call in an argument, a condition, what is bound, what is matched, a field
        (vec![in a; call_on(a, 0, call(a, 0)?)?]?, "T7 f 0"),
        (
            vec![in a; choice(a, call(a, 0)?, flag(), flag())?]?,
            "T7 f 0",
        ),
        (vec![in a; bound(a, call(a, 0)?, flag())?]?, "T7 f 0"),
        (
            vec![in a; matched(a, call(a, 0)?, flag(), flag())?]?,
            "T7 f 0",
        ),
        (vec![in a; made(a, call(a, 0)?)?]?, "T7 f 0"),
        // the second of two that call each other has its call inside; one that calls them has none
        (
            vec![in a; call(a, 1)?, made(a, call(a, 0)?)?, made(a, call(a, 0)?)?]?,
            "T7 f 10",
        ),
        // both do
        (
            vec![in a; made(a, call(a, 1)?)?, made(a, call(a, 0)?)?]?,
            "T7 f 0",
        ),
        // a cycle of three, of which the last calls inside
        (
            vec![in a; call(a, 1)?, call(a, 2)?, made(a, call(a, 0)?)?]?,
            "T7 f 20",
        ),
    ];
    for (bodies, want) in &table {
        assert_eq!(rt; answer(a, bodies)?.as_str(), *want);
    }
    Ok(())
}

/// A chain of 1,024 functions, each of which calls the next and the last.
#[test]
fn many_functions(rt: HostRuntime) -> Result<(), Fail> {
    let a = rt.alloc();
    let mut bodies = Vec::new(a);
    for n in 0..1023u32 {
        bodies.push(bound(a, call(a, n.wrapping_add(1))?, call(a, 1023)?)?)?;
    }
    bodies.push(Term::Flag(true))?;
    let found = answer(a, &bodies)?;
    assert!(rt; found.as_str().starts_with("0 1 2 3 "));
    assert!(rt; found.as_str().ends_with(" 1022 1023 "));
    Ok(())
}
