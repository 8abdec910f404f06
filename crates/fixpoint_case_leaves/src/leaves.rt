//! What the transfers of cases come to.

ghost use Rattle.std.specs.Prelude.{◌≡◌, ◌==◌, ◌<◌, ◌≤◌, ◌++◌, nat_lt, ℕ, List, IfOk, IfSome, IsTrue, MatchResult, OnOk, length, map, option_map};
ghost use Rattle.base_trait.specs.Lists.{Each};
ghost use Rattle.base_trait.specs.Uses.{Seen, seen};
ghost use Rattle.fixpoint_theory.specs.Analysis.{Analysis};
ghost use Rattle.fixpoint_theory.specs.Code.{is_code};
ghost use Rattle.fixpoint_theory.specs.Elements.{Elements};
ghost use Rattle.fixpoint_theory.specs.Outcome.{AreSameArrivals, IfPost, SameOutcome, arrivals_behind, at_each};
ghost use Rattle.fixpoint_theory.specs.Views.{arriving, outcome};
ghost use Rattle.fixpoint_cases.specs.Sent.{and_case, and_sent, merged, put, put_all, unless_many};
ghost use Rattle.std.specs.List.{insert};
ghost use Rattle.fixpoint_case_leaves.specs.Places.{put_at};
ghost use Rattle.fixpoint_case_leaves.specs.Views.{case_outcome};

use crate::case_transfer::CaseTransfer;
use crate::split::SplitAnalyser;
use base_trait::Use;
use fixpoint_theory::{Arrival, Targets, Transfer, Transferred};
use std::alloc::{AllocError as NoMemory, Global};
use std::marker::Brand;
use std::sync::ledger::{Blank, Ledger};
use support_step_counter::Steps;

/// Whether an arrival is at an address.
fn is_at<E>(sent: &Arrival<E>, to: u32) -> bool
    ensures { result ≡ (to == sent.now.to) }
{
    to == sent.to
}

/// Whether an arrival is behind an address.
fn is_behind<E>(sent: &Arrival<E>, to: u32) -> bool
    ensures { result ≡ nat_lt to sent.now.to }
{
    to < sent.to
}

/// The arrival at an address, or else the one before which an arrival there comes.
fn place_of<A: SplitAnalyser>(
    analyser: &A,
    arrivals: &[Arrival<A::Element>],
    to: u32,
) -> Result<usize, usize>
    ensures within { MatchResult result (λ i. i < length arrivals.now) (λ i. i ≤ length arrivals.now) }
    ensures place { (x : A.Plain) → put (A.analysis analyser.now).elements (to, x) (map (arriving A.view) arrivals.now)
        ≡ put_at (A.analysis analyser.now).elements (to, x) (map (arriving A.view) arrivals.now) result }
{
    for i in 0..arrivals.len() {
        let other = &arrivals[i];
        if is_at(other, to) {
            return Ok(i);
        }
        if is_behind(other, to) {
            return Err(i);
        }
    }
    Err(arrivals.len())
}

/// An element arrives at an address: beside what another case sent there both join.
fn put<A: SplitAnalyser>(
    analyser: &A,
    alloc: Global,
    arrivals: &mut Vec<Arrival<A::Element>>,
    to: u32,
    x: &A::Element,
) -> Result<(), NoMemory>
    requires ready { A.IsReady analyser.now }
    requires arrivals { Each (λ a. (A.analysis analyser.now).elements.fits a.1) (map (arriving A.view) arrivals.old.items) }
    requires fits { (A.analysis analyser.now).elements.fits (A.view x.now) }
    ensures value { OnOk result (AreSameArrivals (A.analysis analyser.now).elements (map (arriving A.view) arrivals.new.items)
        (put (A.analysis analyser.now).elements (to, A.view x.now) (map (arriving A.view) arrivals.old.items))) }
    ensures fits { OnOk result (Each (λ a. (A.analysis analyser.now).elements.fits a.1) (map (arriving A.view) arrivals.new.items)) }
{
    match place_of(analyser, arrivals, to) {
        Ok(i) => {
            let old = &mut arrivals[i];
            let both = analyser.join(alloc, &old.elem, x)?;
            old.elem = both;
        }
        Err(i) => {
            let elem = analyser.copy(alloc, x)?;
            insert_at(arrivals, i, Arrival { to, elem })?;
        }
    }
    Ok(())
}

/// Puts an item before what stands at a place. After an error the list is open.
fn insert_at<T: Drop>(list: &mut Vec<T>, i: usize, item: T) -> Result<(), NoMemory>
    requires { i ≤ length list.old.items }
    ensures items { OnOk result (list.new.items ≡ insert list.old.items i item) }
{
    match list.insert(i, item) {
        Ok(()) => Ok(()),
        Err(_failed) => Err(NoMemory),
    }
}

/// The element behind a case arrives at each of its targets.
fn put_behind<A: SplitAnalyser>(
    analyser: &A,
    alloc: Global,
    arrivals: &mut Vec<Arrival<A::Element>>,
    x: &A::Element,
    targets: &[u32],
) -> Result<(), NoMemory>
    requires ready { A.IsReady analyser.now }
    requires arrivals { Each (λ a. (A.analysis analyser.now).elements.fits a.1) (map (arriving A.view) arrivals.old.items) }
    requires fits { (A.analysis analyser.now).elements.fits (A.view x.now) }
    ensures value { OnOk result (AreSameArrivals (A.analysis analyser.now).elements (map (arriving A.view) arrivals.new.items)
        (put_all (A.analysis analyser.now).elements (at_each (A.view x.now) targets.now) (map (arriving A.view) arrivals.old.items))) }
    ensures fits { OnOk result (Each (λ a. (A.analysis analyser.now).elements.fits a.1) (map (arriving A.view) arrivals.new.items)) }
{
    for to in targets {
        put(analyser, alloc, arrivals, *to, x)?;
    }
    Ok(())
}

/// What another case sends arrives too.
fn put_sent<A: SplitAnalyser>(
    analyser: &A,
    alloc: Global,
    arrivals: &mut Vec<Arrival<A::Element>>,
    more: &[Arrival<A::Element>],
) -> Result<(), NoMemory>
    requires ready { A.IsReady analyser.now }
    requires arrivals { Each (λ a. (A.analysis analyser.now).elements.fits a.1) (map (arriving A.view) arrivals.old.items) }
    requires more { Each (λ a. (A.analysis analyser.now).elements.fits a.1) (map (arriving A.view) more.now) }
    ensures value { OnOk result (AreSameArrivals (A.analysis analyser.now).elements (map (arriving A.view) arrivals.new.items)
        (put_all (A.analysis analyser.now).elements (map (arriving A.view) more.now) (map (arriving A.view) arrivals.old.items))) }
    ensures fits { OnOk result (Each (λ a. (A.analysis analyser.now).elements.fits a.1) (map (arriving A.view) arrivals.new.items)) }
{
    for sent in more {
        put(analyser, alloc, arrivals, sent.to, &sent.elem)?;
    }
    Ok(())
}

/// The element behind a case arrives at each of its targets, if there is one.
fn put_post<A: SplitAnalyser>(
    analyser: &A,
    alloc: Global,
    arrivals: &mut Vec<Arrival<A::Element>>,
    post: Option<A::Element>,
    targets: &[u32],
) -> Result<(), NoMemory>
    requires ready { A.IsReady analyser.now }
    requires arrivals { Each (λ a. (A.analysis analyser.now).elements.fits a.1) (map (arriving A.view) arrivals.old.items) }
    requires fits { IfSome post (λ x. (A.analysis analyser.now).elements.fits (A.view x)) }
    ensures value { OnOk result (AreSameArrivals (A.analysis analyser.now).elements (map (arriving A.view) arrivals.new.items)
        (put_all (A.analysis analyser.now).elements (arrivals_behind (option_map A.view post) targets.now) (map (arriving A.view) arrivals.old.items))) }
    ensures fits { OnOk result (Each (λ a. (A.analysis analyser.now).elements.fits a.1) (map (arriving A.view) arrivals.new.items)) }
{
    match post {
        Some(post) => put_behind(analyser, alloc, arrivals, &post, targets),
        None => Ok(()),
    }
}

/// The uses of one case behind those before it.
fn with_uses(uses: Vec<Use>, more: Vec<Use>) -> Result<Vec<Use>, NoMemory>
    ensures { IfOk result (λ r. map seen r.items ≡ map seen uses.items ++ map seen more.items) }
{
    let (mut uses, mut more) = (uses, more);
    uses.append(&mut more)?;
    Ok(uses)
}

/// One case more, behind cases that each have targets.
fn add_to_sent<A: SplitAnalyser>(
    analyser: &A,
    alloc: Global,
    arrivals: Vec<Arrival<A::Element>>,
    uses: Vec<Use>,
    made: Transferred<A::Element, A::Shown>,
) -> Result<CaseTransfer<A::Element, A::Shown>, NoMemory>
    requires ready { A.IsReady analyser.now }
    requires arrivals { Each (λ a. (A.analysis analyser.now).elements.fits a.1) (map (arriving A.view) arrivals.items) }
    requires made { IfPost (A.analysis analyser.now).elements.fits (outcome A.view made) }
    ensures value { IfOk result (λ r. SameOutcome (A.analysis analyser.now).elements (case_outcome A.view r)
        (and_sent (A.analysis analyser.now).elements (map (arriving A.view) arrivals.items) (map seen uses.items) (outcome A.view made))) }
    ensures fits { IfOk result (λ r. IfPost (A.analysis analyser.now).elements.fits (case_outcome A.view r)) }
{
    let mut arrivals = arrivals;
    match made {
        Transferred::Undecodable { word } => Ok(CaseTransfer::Undecodable { word }),
        Transferred::Sent {
            arrivals: others,
            uses: more,
        } => {
            put_sent(analyser, alloc, &mut arrivals, &others)?;
            let uses = with_uses(uses, more)?;
            Ok(CaseTransfer::Sent { arrivals, uses })
        }
        Transferred::Made(
            Transfer {
                targets,
                post,
                uses: more,
            },
        ) => {
            match targets {
                Targets::Many { shown } => Ok(CaseTransfer::TooMany { shown, uses: more }),
                Targets::List(targets) => {
                    put_post(analyser, alloc, &mut arrivals, post, &targets)?;
                    let uses = with_uses(uses, more)?;
                    Ok(CaseTransfer::Sent { arrivals, uses })
                }
            }
        }
    }
}

/// One case more.
fn add_case<A: SplitAnalyser>(
    analyser: &A,
    alloc: Global,
    so_far: CaseTransfer<A::Element, A::Shown>,
    made: Transferred<A::Element, A::Shown>,
) -> Result<CaseTransfer<A::Element, A::Shown>, NoMemory>
    requires ready { A.IsReady analyser.now }
    requires so_far { IfPost (A.analysis analyser.now).elements.fits (case_outcome A.view so_far) }
    requires made { IfPost (A.analysis analyser.now).elements.fits (outcome A.view made) }
    ensures value { IfOk result (λ r. SameOutcome (A.analysis analyser.now).elements (case_outcome A.view r)
        (and_case (A.analysis analyser.now).elements (case_outcome A.view so_far) (outcome A.view made))) }
    ensures fits { IfOk result (λ r. IfPost (A.analysis analyser.now).elements.fits (case_outcome A.view r)) }
{
    match so_far {
        CaseTransfer::Undecodable { word } => Ok(CaseTransfer::Undecodable { word }),
        CaseTransfer::TooMany { shown, uses } => Ok(CaseTransfer::TooMany { shown, uses }),
        CaseTransfer::Sent { arrivals, uses } => {
            add_to_sent(analyser, alloc, arrivals, uses, made)
        }
    }
}

/// Makes the transfer of an element that is not split. The counter of steps is of this blank.
fn transfer_with<A: SplitAnalyser, L: Ledger>(
    analyser: &A,
    alloc: Global,
    at: u32,
    x: &A::Element,
    blank: Blank,
) -> Result<Transferred<A::Element, A::Shown>, NoMemory>
    requires name { blank.name ≡ L.name }
    requires parts { blank.parts ≡ L.parts }
    requires some { 0 < blank.parts }
    requires ready { A.IsReady analyser.now }
    requires code { IsTrue (is_code (A.analysis analyser.now).code at) }
    requires fits { (A.analysis analyser.now).elements.fits (A.view x.now) }
    ensures value { IfOk result (λ r. SameOutcome (A.analysis analyser.now).elements (outcome A.view r) ((A.analysis analyser.now).transfer at (A.view x.now))) }
    ensures fits { IfOk result (λ r. IfPost (A.analysis analyser.now).elements.fits (outcome A.view r)) }
{
    let mut steps: Steps<L> = Steps::new(blank);
    analyser.transfer(alloc, at, x, &mut steps)
}

/// Makes the transfer of an element that is not split, by a counter of steps of its own.
pub(crate) fn transfer_once<A: SplitAnalyser>(
    analyser: &A,
    alloc: Global,
    at: u32,
    x: &A::Element,
) -> Result<Transferred<A::Element, A::Shown>, NoMemory>
    requires ready { A.IsReady analyser.now }
    requires code { IsTrue (is_code (A.analysis analyser.now).code at) }
    requires fits { (A.analysis analyser.now).elements.fits (A.view x.now) }
    ensures value { IfOk result (λ r. SameOutcome (A.analysis analyser.now).elements (outcome A.view r) ((A.analysis analyser.now).transfer at (A.view x.now))) }
    ensures fits { IfOk result (λ r. IfPost (A.analysis analyser.now).elements.fits (outcome A.view r)) }
{
    transfer_with::<A, Brand>(analyser, alloc, at, x, Blank::new(1))
}

/// Makes the transfer of one case more.
pub(crate) fn add_transfer<A: SplitAnalyser>(
    analyser: &A,
    alloc: Global,
    at: u32,
    x: &A::Element,
    so_far: CaseTransfer<A::Element, A::Shown>,
) -> Result<CaseTransfer<A::Element, A::Shown>, NoMemory>
    requires ready { A.IsReady analyser.now }
    requires code { IsTrue (is_code (A.analysis analyser.now).code at) }
    requires fits { (A.analysis analyser.now).elements.fits (A.view x.now) }
    requires so_far { IfPost (A.analysis analyser.now).elements.fits (case_outcome A.view so_far) }
    ensures value { IfOk result (λ r. SameOutcome (A.analysis analyser.now).elements (case_outcome A.view r)
        (and_case (A.analysis analyser.now).elements (case_outcome A.view so_far) ((A.analysis analyser.now).transfer at (A.view x.now)))) }
    ensures fits { IfOk result (λ r. IfPost (A.analysis analyser.now).elements.fits (case_outcome A.view r)) }
{
    let made = transfer_once(analyser, alloc, at, x)?;
    add_case(analyser, alloc, so_far, made)
}

/// What cases come to, with merged uses; the transfer of the element itself where one has too many targets.
pub(crate) fn unless_many<A: SplitAnalyser>(
    analyser: &A,
    alloc: Global,
    at: u32,
    x: &A::Element,
    so_far: CaseTransfer<A::Element, A::Shown>,
) -> Result<Transferred<A::Element, A::Shown>, NoMemory>
    requires ready { A.IsReady analyser.now }
    requires code { IsTrue (is_code (A.analysis analyser.now).code at) }
    requires fits { (A.analysis analyser.now).elements.fits (A.view x.now) }
    requires so_far { IfPost (A.analysis analyser.now).elements.fits (case_outcome A.view so_far) }
    ensures value { IfOk result (λ r. SameOutcome (A.analysis analyser.now).elements (outcome A.view r)
        (unless_many ((A.analysis analyser.now).transfer at (A.view x.now)) (merged (A.merge analyser.now) (case_outcome A.view so_far)))) }
    ensures fits { IfOk result (λ r. IfPost (A.analysis analyser.now).elements.fits (outcome A.view r)) }
{
    match so_far {
        CaseTransfer::Undecodable { word } => Ok(Transferred::Undecodable { word }),
        CaseTransfer::TooMany {
            shown: _shown,
            uses: _uses,
        } => transfer_once(analyser, alloc, at, x),
        CaseTransfer::Sent { arrivals, uses } => {
            let uses = analyser.merged(alloc, uses)?;
            Ok(Transferred::Sent { arrivals, uses })
        }
    }
}
