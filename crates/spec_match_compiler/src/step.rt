//! Steps of the compilation.

ghost use Rattle.std.specs.Prelude.{◌≡◌, map, IfOk};
ghost use Rattle.spec_match_compiler.specs.Decisions.{on_word};
ghost use Rattle.spec_match_compiler.specs.Steps.{asked_first};
ghost use Rattle.spec_match_compiler.specs.Views.{tree, question};

use crate::candidate::Candidate;
use crate::decision::{Decision, Path};
use crate::knowledge::Knowledge;
use std::alloc::{AllocError, Global};

/// Whether the word at a place is a number, and what follows where it is.
#[derive(Drop)]
pub struct Question {
    pub at: Path,
    pub value: u64,
    pub yes: Decision,
}

/// What the first row that is left leads to.
#[derive(Drop)]
pub enum RowStep<'a> {
    /// The decision for all rows that are left.
    Settled(Decision),
    /// A question, and what is left and known where its answer is no.
    Asked {
        question: Question,
        left: Vec<Candidate<'a>>,
        known: Knowledge,
    },
}

/// The decision that asks a question, and is `no` where the answer is no.
fn ask(alloc: Global, question: Question, no: Decision) -> Result<Decision, AllocError>
    ensures { IfOk result (λ d. tree d ≡ on_word question.at.steps.items question.value (tree question.yes) (tree no)) }
{
    let Question { at, value, yes } = question;
    let yes = Box::new(alloc, yes)?;
    let no = Box::new(alloc, no)?;
    Ok(Decision::OnWord { at, value, yes, no })
}

/// The decision that asks the questions in their order, and is `last` where each answer is no.
pub fn ask_first(
    alloc: Global,
    mut questions: Vec<Question>,
    last: Decision,
) -> Result<Decision, AllocError>
    ensures { IfOk result (λ d. tree d ≡ asked_first (map question questions.items) (tree last)) }
{
    let mut decision = last;
    while let Some(question) = questions.pop() {
        decision = ask(alloc, question, decision)?;
    }
    Ok(decision)
}
