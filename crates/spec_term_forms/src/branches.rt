//! Arms of a match.

ghost use Rattle.std.specs.Prelude.{◌≡◌, [], ◌∷◌, ◌++◌, IfOk, None, OnOk, Some, map};
ghost use Rattle.std.specs.List.{zip};
ghost use Rattle.spec_match_compiler.specs.Views.{pat, tree};
ghost use Rattle.spec_ir.specs.CoreTerms as k;
ghost use Rattle.spec_ir.specs.Environment.{or_else};
ghost use Rattle.spec_ir.specs.Terms as s;
ghost use Rattle.spec_ir.specs.Views.{core, term};

use crate::forms::{Boxes, Forms, boxed_forms};
use spec_ir::{Core, Term, Ty};
use spec_match_compiler::{Decision, Pattern};
use std::alloc::{AllocError, Global};

/// A checked arm: its pattern, its body in both forms and the type of the body.
#[derive(Drop)]
pub struct Branch {
    pub pattern: Pattern,
    pub body: Forms,
    pub ty: Ty,
}

/// Checked arms, in their order. `ty` is the type that the first one fixes.
#[derive(Drop)]
pub struct Branches {
    pub patterns: Vec<Pattern>,
    pub terms: Vec<Term>,
    pub cores: Vec<Core>,
    pub ty: Option<Ty>,
}

impl Branches {
    /// No arms.
    pub fn new(alloc: Global) -> Branches
        ensures patterns { result.patterns.items ≡ [] }
        ensures terms { result.terms.items ≡ [] }
        ensures cores { result.cores.items ≡ [] }
        ensures ty { result.ty ≡ None }
    {
        Branches {
            patterns: Vec::new(alloc),
            terms: Vec::new(alloc),
            cores: Vec::new(alloc),
            ty: None,
        }
    }

    /// One more arm, at the end.
    pub fn push(&mut self, arm: Branch) -> Result<(), AllocError>
        ensures patterns { OnOk result (self.new.patterns.items ≡ self.old.patterns.items ++ arm.pattern ∷ []) }
        ensures terms { OnOk result (self.new.terms.items ≡ self.old.terms.items ++ arm.body.term ∷ []) }
        ensures cores { OnOk result (self.new.cores.items ≡ self.old.cores.items ++ arm.body.core ∷ []) }
        ensures ty { OnOk result (self.new.ty ≡ or_else self.old.ty (Some arm.ty)) }
    {
        let Branch { pattern, body, ty } = arm;
        self.patterns.push(pattern)?;
        self.terms.push(body.term)?;
        self.cores.push(body.core)?;
        self.ty = first(self.ty, ty);
        Ok(())
    }
}

/// The type that is there, or else the other.
fn first(fixed: Option<Ty>, ty: Ty) -> Option<Ty>
    ensures { result ≡ or_else fixed (Some ty) }
{
    match fixed {
        Some(want) => Some(want),
        None => Some(ty),
    }
}

/// A match with its arms, and the decision for their patterns.
pub fn choose(alloc: Global, x: Forms, arms: Branches, by: Decision) -> Result<Forms, AllocError>
    ensures term { IfOk result (λ r. term r.term ≡ s.match_on (term x.term) (s.arms (zip (map pat arms.patterns.items) (map term arms.terms.items)))) }
    ensures core { IfOk result (λ r. core r.core ≡ k.choose (core x.core) (tree by) (k.cores (map core arms.cores.items))) }
{
    let x = boxed_forms(alloc, x)?;
    let rows = pair_arms(alloc, arms.patterns, arms.terms)?;
    Ok(match_term(x, rows, arms.cores, by))
}

/// A match whose parts are made.
#[tactic(auto, using(crate::proofs::Views::match_view))]
fn match_term(x: Boxes, arms: Vec<(Pattern, Term)>, cores: Vec<Core>, by: Decision) -> Forms
    ensures term { term result.term ≡ s.match_on (term x.term.value) (s.arms (map (λ a. (pat a.0, term a.1)) arms.items)) }
    ensures core { core result.core ≡ k.choose (core x.core.value) (tree by) (k.cores (map core cores.items)) }
{
    Forms {
        term: Term::Match { x: x.term, arms },
        core: Core::Choose {
            x: x.core,
            by,
            arms: cores,
        },
    }
}

/// Each pattern with its body.
fn pair_arms(
    alloc: Global,
    patterns: Vec<Pattern>,
    bodies: Vec<Term>,
) -> Result<Vec<(Pattern, Term)>, AllocError>
    ensures { IfOk result (λ r. map (λ a. (pat a.0, term a.1)) r.items ≡ zip (map pat patterns.items) (map term bodies.items)) }
{
    let mut arms = Vec::new(alloc);
    let mut bodies = bodies.into_iter();
    for pattern in patterns {
        if let Some(body) = bodies.next() {
            arms.push((pattern, body))?;
        }
    }
    Ok(arms)
}
