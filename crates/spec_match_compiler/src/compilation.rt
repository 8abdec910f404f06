//! The compilation of a match.

ghost use Rattle.std.specs.Prelude.{◌≡◌, ℕ, ◌<◌, ◌≤◌, ◌^◌, [], ◌∷◌, map, length, All, IfOk, IfErr, OnOk, MatchResult};
ghost use Rattle.spec_match_compiler.specs.Shapes.{AreTypes, IsShape, Suits};
ghost use Rattle.spec_match_compiler.specs.Compiled.{IsTreeOf, PicksTheFirst, IsExhaustive, IsOfUse, IsRefusal, Answers};
ghost use Rattle.spec_match_compiler.specs.Answers.{match_answer};
ghost use Rattle.spec_match_compiler.specs.Meets.{bindings};
ghost use Rattle.spec_match_compiler.specs.Decisions.{row, trees};
ghost use Rattle.spec_match_compiler.specs.Knowledge.{put};
ghost use Rattle.spec_match_compiler.specs.Steps.{AsksFirst, AsksFor, AsksWord, MayShow, IsStep};
ghost use Rattle.spec_match_compiler.specs.Limits.{CanAll, InLimits, PatInLimits, RowsInLimits, TypesInLimits};
ghost use Rattle.spec_match_compiler.specs.Rule.{still, IsTree, AreTrees};
ghost use Rattle.spec_match_compiler.specs.Refusals.{FailsWith};
ghost use Rattle.spec_match_compiler.specs.Views.{types, pat, tree, knowledge, candidate, test};

use crate::bindings::bindings;
use crate::candidate::{Candidate, candidates, other_candidates, remaining_candidates};
use crate::decision::{Decision, Path};
use crate::example::example;
use crate::first_test::first_test;
use crate::knowledge::{Knowledge, PendingTest, Test};
use crate::match_error::MatchError;
use crate::names::first_unnamed;
use crate::outcomes::outcomes;
use crate::pattern::Pattern;
use crate::put::put_knowledge;
use crate::shape::{Shape, Sig};
use crate::step::{Question, RowStep, ask_first};
use std::alloc::{AllocError, Global};

/// The decision tree of a match, or why it is refused.
///
/// `sig` has the types that `shape` may name, and `rows` the patterns, of which the first that a
/// value meets is to be chosen. The tree and the example of a value that meets no row are those of
/// the rule at the head of this crate.
pub fn compile(
    alloc: Global,
    sig: &Sig,
    shape: Shape,
    rows: &[Pattern],
) -> Result<Decision, MatchError>
    requires count { length rows.now < 2 ^ 32 }
    requires types { AreTypes (types sig.now) }
    requires shape { IsShape (types sig.now) shape }
    requires patterns { All (λ p. Suits (types sig.now) shape (pat p)) rows.now }
    ensures tree { IfOk result (λ d. IsTreeOf (types sig.now) shape (map pat rows.now) (tree d)) }
    ensures first_match { IfOk result (λ d. PicksTheFirst (types sig.now) shape (map pat rows.now) (tree d)) }
    ensures exhaustive { OnOk result (IsExhaustive (types sig.now) shape (map pat rows.now)) }
    ensures of_use { OnOk result ((r : ℕ) → r < length rows.now → IsOfUse (types sig.now) shape (map pat rows.now) r) }
    ensures refusal { IfErr result (IsRefusal (types sig.now) shape (map pat rows.now)) }
    ensures answer { Answers result (match_answer (types sig.now) shape (map pat rows.now)) }
{
    let left = candidates(alloc, rows)?;
    let decision = decide(alloc, sig, left, Knowledge::Unknown(shape))?;
    match first_unnamed(alloc, &decision, rows.len() as u32)? {
        Some(row) => Err(MatchError::Useless { row }),
        None => Ok(decision),
    }
}

/// The tree of the rule for the rows that are left, by what is known.
#[cycle(decide)]
fn decide(
    alloc: Global,
    sig: &Sig,
    left: Vec<Candidate>,
    known: Knowledge,
) -> Result<Decision, MatchError>
    requires sig { TypesInLimits (types sig.now) }
    requires rows { RowsInLimits (map candidate left.items) }
    requires known { InLimits (knowledge known) }
    requires can { CanAll (map candidate left.items) (knowledge known) }
    ensures { MatchResult result
        (λ d. IsTree (types sig.now) (map candidate left.entry.items) (knowledge known) (tree d))
        (FailsWith (types sig.now) (map candidate left.entry.items) (knowledge known)) }
{
    let mut rows = left;
    let mut now = known;
    let mut questions = Vec::new(alloc);
    loop {
        match first_step(alloc, sig, rows.as_slice(), &now)? {
            RowStep::Settled(last) => return Ok(ask_first(alloc, questions, last)?),
            RowStep::Asked {
                question,
                left,
                known,
            } => {
                questions.push(question)?;
                rows = left;
                now = known;
            }
        }
    }
}

/// What the first row that is left leads to.
#[cycle(decide)]
fn first_step<'a>(
    alloc: Global,
    sig: &Sig,
    left: &[Candidate<'a>],
    known: &Knowledge,
) -> Result<RowStep<'a>, MatchError>
    requires sig { TypesInLimits (types sig.now) }
    requires rows { RowsInLimits (map candidate left.now) }
    requires known { InLimits (knowledge known.now) }
    requires can { CanAll (map candidate left.now) (knowledge known.now) }
    ensures { MatchResult result
        (IsStep (types sig.now) (map candidate left.now) (knowledge known.now))
        (FailsWith (types sig.now) (map candidate left.now) (knowledge known.now)) }
{
    let Some(first) = left.first() else {
        return Err(MatchError::NotExhaustive {
            example: example(alloc, known)?,
        });
    };
    let Some(
        PendingTest {
            at: found,
            test: asked,
        },
    ) = first_test(alloc, first.pattern, known)?
    else {
        return Ok(RowStep::Settled(leaf_of_row(alloc, *first)?));
    };
    let steps = Vec::from_slice(alloc, found.as_slice())?;
    step_by(alloc, sig, left, known, Path { steps }, asked)
}

/// What a test leads to that the first row asks for first.
#[cycle(decide)]
fn step_by<'a>(
    alloc: Global,
    sig: &Sig,
    left: &[Candidate<'a>],
    known: &Knowledge,
    at: Path,
    asked: Test,
) -> Result<RowStep<'a>, MatchError>
    requires sig { TypesInLimits (types sig.now) }
    requires rows { RowsInLimits (map candidate left.now) }
    requires known { InLimits (knowledge known.now) }
    requires can { CanAll (map candidate left.now) (knowledge known.now) }
    requires asks { AsksFirst (map candidate left.now) (knowledge known.now) at.steps.items (test asked) }
    ensures { MatchResult result
        (IsStep (types sig.now) (map candidate left.now) (knowledge known.now))
        (FailsWith (types sig.now) (map candidate left.now) (knowledge known.now)) }
{
    let outcomes = outcomes(alloc, sig, &asked)?;
    match asked {
        Test::Word {
            width: _width,
            tested: _tested,
            value,
        } => step_by_word(alloc, sig, left, known, at, value, &outcomes),
        Test::Flag => {
            let arms = arms(alloc, sig, left, known, at.steps.as_slice(), &outcomes)?;
            let (yes, no) = test_node(alloc, arms)?;
            Ok(RowStep::Settled(Decision::OnFlag { at, yes, no }))
        }
        Test::Case(_t) => {
            let arms = arms(alloc, sig, left, known, at.steps.as_slice(), &outcomes)?;
            Ok(RowStep::Settled(Decision::OnCase { at, arms }))
        }
    }
}

/// What the test of a word leads to: its answer yes is worked off, and no is left.
#[cycle(decide)]
fn step_by_word<'a>(
    alloc: Global,
    sig: &Sig,
    left: &[Candidate<'a>],
    known: &Knowledge,
    at: Path,
    value: u64,
    outcomes: &[Knowledge],
) -> Result<RowStep<'a>, MatchError>
    requires sig { TypesInLimits (types sig.now) }
    requires rows { RowsInLimits (map candidate left.now) }
    requires known { InLimits (knowledge known.now) }
    requires can { CanAll (map candidate left.now) (knowledge known.now) }
    requires asks { AsksWord (types sig.now) (map candidate left.now) (knowledge known.now) at.steps.items value (map knowledge outcomes.now) }
    ensures { MatchResult result
        (IsStep (types sig.now) (map candidate left.now) (knowledge known.now))
        (FailsWith (types sig.now) (map candidate left.now) (knowledge known.now)) }
{
    let yes = after(alloc, sig, left, known, at.steps.as_slice(), &outcomes[0])?;
    let next = put_knowledge(alloc, known, at.steps.as_slice(), &outcomes[1])?;
    let still_left = other_candidates(alloc, left, known, at.steps.as_slice(), value)?;
    Ok(RowStep::Asked {
        question: Question { at, value, yes },
        left: still_left,
        known: next,
    })
}

/// What follows each of the answers of a test.
#[cycle(decide)]
fn arms(
    alloc: Global,
    sig: &Sig,
    left: &[Candidate],
    known: &Knowledge,
    at: &[(u32, u32)],
    outcomes: &[Knowledge],
) -> Result<Vec<Decision>, MatchError>
    requires sig { TypesInLimits (types sig.now) }
    requires rows { RowsInLimits (map candidate left.now) }
    requires known { InLimits (knowledge known.now) }
    requires can { CanAll (map candidate left.now) (knowledge known.now) }
    requires asks { AsksFor (types sig.now) (map candidate left.now) (knowledge known.now) at.now (map knowledge outcomes.now) }
    ensures { MatchResult result
        (λ ds. AreTrees (types sig.now) (map candidate left.now) (knowledge known.now) at.now (map knowledge outcomes.now) (trees (map tree ds.items)))
        (FailsWith (types sig.now) (map candidate left.now) (knowledge known.now)) }
{
    let mut arms = Vec::new(alloc);
    for there in outcomes {
        arms.push(after(alloc, sig, left, known, at, there)?)?;
    }
    Ok(arms)
}

/// What follows where a test shows `there`.
#[cycle(decide)]
fn after(
    alloc: Global,
    sig: &Sig,
    left: &[Candidate],
    known: &Knowledge,
    at: &[(u32, u32)],
    there: &Knowledge,
) -> Result<Decision, MatchError>
    requires sig { TypesInLimits (types sig.now) }
    requires rows { RowsInLimits (map candidate left.now) }
    requires known { InLimits (knowledge known.now) }
    requires can { CanAll (map candidate left.now) (knowledge known.now) }
    requires there { MayShow (types sig.now) (map candidate left.now) (knowledge known.now) at.now (knowledge there.now) }
    ensures { let next = put (knowledge known.now) at.now (knowledge there.now) in MatchResult result
        (λ d. IsTree (types sig.now) (still (map candidate left.now) next) next (tree d))
        (FailsWith (types sig.now) (still (map candidate left.now) next) next) }
{
    let next = put_knowledge(alloc, known, at, there)?;
    let still_left = remaining_candidates(alloc, left, &next)?;
    decide(alloc, sig, still_left, next)
}

/// The leaf of a chosen row.
fn leaf_of_row(alloc: Global, first: Candidate) -> Result<Decision, AllocError>
    requires { PatInLimits (pat first.pattern.now) }
    ensures { IfOk result (λ d. tree d ≡ row first.entry.number (bindings [] (pat first.entry.pattern.now))) }
{
    let mut binds = Vec::new(alloc);
    bindings(alloc, &[], first.pattern, &mut binds)?;
    Ok(Decision::Row {
        row: first.number,
        binds,
    })
}

/// Two decisions by themselves.
fn test_node(
    alloc: Global,
    mut arms: Vec<Decision>,
) -> Result<(Box<Decision>, Box<Decision>), AllocError>
    requires { length arms.items ≡ 2 }
    ensures { IfOk result (λ r. map tree arms.items ≡ tree r.0.value ∷ (tree r.1.value ∷ [])) }
{
    let Some(no) = arms.pop() else {
        unreachable!();
    };
    let Some(yes) = arms.pop() else {
        unreachable!();
    };
    Ok((Box::new(alloc, yes)?, Box::new(alloc, no)?))
}
