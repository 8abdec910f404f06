//! The transfers of the cases of an element.

ghost use Rattle.std.specs.Prelude.{IfOk, IfSome, IsTrue, fold, map};
ghost use Rattle.base_trait.specs.Lists.{Each};
ghost use Rattle.fixpoint_theory.specs.Code.{is_code};
ghost use Rattle.fixpoint_theory.specs.Outcome.{IfPost, SameOutcome};
ghost use Rattle.fixpoint_theory.specs.Views.{outcome};
ghost use Rattle.fixpoint_cases.specs.ByCases.{case_transfer};
ghost use Rattle.fixpoint_cases.specs.Cases.{cases, cases_of_all};
ghost use Rattle.fixpoint_cases.specs.Sent.{and_case, merged, sent_by_cases, unless_many};
ghost use Rattle.fixpoint_case_leaves.specs.Views.{case_outcome};

use crate::case_transfer::CaseTransfer;
use crate::leaves::{add_transfer, transfer_once, unless_many};
use crate::split::SplitAnalyser;
use fixpoint_theory::Transferred;
use std::alloc::{AllocError as NoMemory, Global};

/// Makes the transfers of the cases of an element, which is split at most `depth` times over.
#[cycle(cases)]
fn add_cases<A: SplitAnalyser>(
    analyser: &A,
    alloc: Global,
    depth: u32,
    at: u32,
    x: &A::Element,
    before: CaseTransfer<A::Element, A::Shown>,
) -> Result<CaseTransfer<A::Element, A::Shown>, NoMemory>
    requires ready { A.IsReady analyser.now }
    requires code { IsTrue (is_code (A.analysis analyser.now).code at) }
    requires fits { (A.analysis analyser.now).elements.fits (A.view x.now) }
    requires before { IfPost (A.analysis analyser.now).elements.fits (case_outcome A.view before) }
    ensures value { IfOk result (λ r. SameOutcome (A.analysis analyser.now).elements (case_outcome A.view r)
        (fold (and_case (A.analysis analyser.now).elements) (case_outcome A.view before)
        (map ((A.analysis analyser.now).transfer at) (cases (A.split analyser.now) depth at (A.view x.now))))) }
    ensures fits { IfOk result (λ r. IfPost (A.analysis analyser.now).elements.fits (case_outcome A.view r)) }
{
    if depth == 0 {
        return add_transfer(analyser, alloc, at, x, before);
    }
    match analyser.split(alloc, at, x)? {
        None => add_transfer(analyser, alloc, at, x, before),
        Some(pieces) => add_cases_of_all(analyser, alloc, depth - 1, at, &pieces, before),
    }
}

/// The same of each of these elements.
#[cycle(cases)]
fn add_cases_of_all<A: SplitAnalyser>(
    analyser: &A,
    alloc: Global,
    depth: u32,
    at: u32,
    elements: &[A::Element],
    before: CaseTransfer<A::Element, A::Shown>,
) -> Result<CaseTransfer<A::Element, A::Shown>, NoMemory>
    requires ready { A.IsReady analyser.now }
    requires code { IsTrue (is_code (A.analysis analyser.now).code at) }
    requires fits { Each (A.analysis analyser.now).elements.fits (map A.view elements.now) }
    requires before { IfPost (A.analysis analyser.now).elements.fits (case_outcome A.view before) }
    ensures value { IfOk result (λ r. SameOutcome (A.analysis analyser.now).elements (case_outcome A.view r)
        (fold (and_case (A.analysis analyser.now).elements) (case_outcome A.view before)
        (map ((A.analysis analyser.now).transfer at) (cases_of_all (cases (A.split analyser.now) depth at) (map A.view elements.now))))) }
    ensures fits { IfOk result (λ r. IfPost (A.analysis analyser.now).elements.fits (case_outcome A.view r)) }
{
    let mut so_far = before;
    for element in elements {
        so_far = add_cases(analyser, alloc, depth, at, element, so_far)?;
    }
    Ok(so_far)
}

/// What the cases of these pieces of an element come to, each split at most `depth` times over.
fn transfer_of_pieces<A: SplitAnalyser>(
    analyser: &A,
    alloc: Global,
    depth: u32,
    at: u32,
    x: &A::Element,
    pieces: &[A::Element],
) -> Result<Transferred<A::Element, A::Shown>, NoMemory>
    requires ready { A.IsReady analyser.now }
    requires code { IsTrue (is_code (A.analysis analyser.now).code at) }
    requires fits { (A.analysis analyser.now).elements.fits (A.view x.now) }
    requires pieces { Each (A.analysis analyser.now).elements.fits (map A.view pieces.now) }
    ensures value { IfOk result (λ r. SameOutcome (A.analysis analyser.now).elements (outcome A.view r)
        (unless_many ((A.analysis analyser.now).transfer at (A.view x.now)) (merged (A.merge analyser.now)
        (sent_by_cases (A.analysis analyser.now).elements
        (map ((A.analysis analyser.now).transfer at) (cases_of_all (cases (A.split analyser.now) depth at) (map A.view pieces.now))))))) }
    ensures fits { IfOk result (λ r. IfPost (A.analysis analyser.now).elements.fits (outcome A.view r)) }
{
    let arrivals = Vec::new(alloc);
    let uses = Vec::new(alloc);
    let nothing = CaseTransfer::Sent { arrivals, uses };
    let sent = add_cases_of_all(analyser, alloc, depth, at, pieces, nothing)?;
    unless_many(analyser, alloc, at, x, sent)
}

/// Makes the transfer of an element, or of each of its cases where it is split, at most `depth` times over.
pub(crate) fn transfer_by_cases<A: SplitAnalyser>(
    analyser: &A,
    alloc: Global,
    depth: u32,
    at: u32,
    x: &A::Element,
) -> Result<Transferred<A::Element, A::Shown>, NoMemory>
    requires ready { A.IsReady analyser.now }
    requires code { IsTrue (is_code (A.analysis analyser.now).code at) }
    requires fits { (A.analysis analyser.now).elements.fits (A.view x.now) }
    ensures value { IfOk result (λ r. SameOutcome (A.analysis analyser.now).elements (outcome A.view r)
        (case_transfer (A.analysis analyser.now) (A.split analyser.now) (A.merge analyser.now) depth at (A.view x.now))) }
    ensures fits { IfOk result (λ r. IfPost (A.analysis analyser.now).elements.fits (outcome A.view r)) }
{
    if depth == 0 {
        return transfer_once(analyser, alloc, at, x);
    }
    match analyser.split(alloc, at, x)? {
        None => transfer_once(analyser, alloc, at, x),
        Some(pieces) => transfer_of_pieces(analyser, alloc, depth - 1, at, x, &pieces),
    }
}
