//! Copies of decisions.

ghost use Rattle.std.specs.Prelude.{◌≡◌, map, IfOk};
ghost use Rattle.spec_match_compiler.specs.Views.{bound, tree};
ghost use Rattle.spec_match_compiler.specs.Decisions as plain;
ghost use Rattle.eval_code_lowering.specs.Asked.{asked_at, asked_first, asked_of};

use spec_match_compiler::{Decision, Path};
use std::alloc::{AllocError as NoMemory, Global};

/// What a decision asks, and what follows where the answer is yes.
#[derive(Drop)]
pub struct DecisionTest {
    at: Path,
    /// The number that the word there may be; none where the truth value there is asked for.
    number: Option<u64>,
    yes: Decision,
}

/// The same place again.
fn copy_path(alloc: Global, path: &Path) -> Result<Path, NoMemory>
    ensures { IfOk result (λ r. r.steps.items ≡ path.now.steps.items) }
{
    let mut steps = Vec::new(alloc);
    for step in &path.steps {
        steps.push(*step)?;
    }
    Ok(Path { steps })
}

/// The same variables again, with the places that they name.
fn copy_binds(alloc: Global, binds: &[(u32, Path)]) -> Result<Vec<(u32, Path)>, NoMemory>
    ensures { IfOk result (λ r. map bound r.items ≡ map bound binds.now) }
{
    let mut out = Vec::new(alloc);
    for (variable, path) in binds {
        out.push((*variable, copy_path(alloc, path)?))?;
    }
    Ok(out)
}

/// The same decision again.
///
/// It goes on in a loop where an answer is no, so that many literals of one position take no more stack than one.
#[cycle(copy_decision)]
pub fn copy_decision(alloc: Global, decision: &Decision) -> Result<Decision, NoMemory>
    ensures { IfOk result (λ r. tree r ≡ tree decision.now) }
{
    let mut asked = Vec::new(alloc);
    let mut rest = decision;
    loop {
        match rest {
            Decision::Row { row, binds } => {
                let binds = copy_binds(alloc, binds)?;
                return ask_first(alloc, asked, Decision::Row { row: *row, binds });
            }
            Decision::OnCase { at, arms } => {
                let at = copy_path(alloc, at)?;
                let arms = copy_decisions(alloc, arms)?;
                return ask_first(alloc, asked, Decision::OnCase { at, arms });
            }
            Decision::OnWord { at, value, yes, no } => {
                let at = copy_path(alloc, at)?;
                let yes = copy_decision(alloc, yes)?;
                asked = with_asked(alloc, asked, at, Some(*value), yes)?;
                rest = no;
            }
            Decision::OnFlag { at, yes, no } => {
                let at = copy_path(alloc, at)?;
                let yes = copy_decision(alloc, yes)?;
                asked = with_asked(alloc, asked, at, None, yes)?;
                rest = no;
            }
        }
    }
}

/// The same decisions again.
#[cycle(copy_decision)]
fn copy_decisions(alloc: Global, decisions: &[Decision]) -> Result<Vec<Decision>, NoMemory>
    ensures { IfOk result (λ r. map tree r.items ≡ map tree decisions.now) }
{
    let mut out = Vec::new(alloc);
    for decision in decisions {
        out.push(copy_decision(alloc, decision)?)?;
    }
    Ok(out)
}

/// These, and one more behind them.
fn with_asked(
    alloc: Global,
    mut asked: Vec<DecisionTest>,
    at: Path,
    number: Option<u64>,
    yes: Decision,
) -> Result<Vec<DecisionTest>, NoMemory>
    ensures { IfOk result (λ r. (t : plain.Decision) → asked_first r.items t ≡ asked_first asked.items (asked_at at.steps.items number (tree yes) t)) }
{
    asked.push(DecisionTest { at, number, yes })?;
    Ok(asked)
}

/// The decision that asks this, and is `no` where the answer is no.
fn ask(alloc: Global, asked: DecisionTest, no: Decision) -> Result<Decision, NoMemory>
    ensures { IfOk result (λ r. tree r ≡ asked_of asked (tree no)) }
{
    let DecisionTest { at, number, yes } = asked;
    let yes = Box::new(alloc, yes)?;
    let no = Box::new(alloc, no)?;
    Ok(match number {
        Some(value) => Decision::OnWord { at, value, yes, no },
        None => Decision::OnFlag { at, yes, no },
    })
}

/// The decision that asks all these in their order, and is `last` where each answer is no.
fn ask_first(
    alloc: Global,
    mut asked: Vec<DecisionTest>,
    last: Decision,
) -> Result<Decision, NoMemory>
    ensures { IfOk result (λ r. tree r ≡ asked_first asked.items (tree last)) }
{
    let mut decision = last;
    while let Some(question) = asked.pop() {
        decision = ask(alloc, question, decision)?;
    }
    Ok(decision)
}
