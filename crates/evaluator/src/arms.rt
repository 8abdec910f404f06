//! The arms that nodes and ends go on with.

ghost use Rattle.std.specs.Prelude.{◌≡◌, map, option_map};
ghost use Rattle.eval_code.specs.Code as code;
ghost use Rattle.eval_code.specs.Views.{end, node, stretch, tail};
ghost use Rattle.evaluator.specs.Arms as of;
ghost use Rattle.evaluator.specs.Views.{arms as plain_arms, branch as plain_branch};

use eval_code::{End, Node, Stretch, Tail};

/// Code that an evaluation goes on with: a stretch, which gives a value, or a tail, which gives to a turn.
#[derive(Clone, Copy)]
pub(crate) enum Branch<'a> {
    Value(&'a Stretch),
    Turn(&'a Tail),
}

/// The branches of an `if`, or the arms of a choice, in their order.
#[derive(Clone, Copy)]
pub(crate) enum Arms<'a> {
    OfNode(&'a Node),
    OfEnd(&'a End),
}

/// The arm of a number, from 0.
pub(crate) fn arm_at<'a>(arms: Arms<'a>, number: usize) -> Option<Branch<'a>>
    ensures { option_map plain_branch result ≡ of.arm_at (plain_arms arms.entry) number }
{
    match arms {
        Arms::OfNode(n) => value_branch(node_arm(n, number)),
        Arms::OfEnd(e) => turn_branch(end_arm(e, number)),
    }
}

/// A stretch as a branch, if it is there.
fn value_branch<'a>(found: Option<&'a Stretch>) -> Option<Branch<'a>>
    ensures { option_map plain_branch result ≡ option_map of.stretch_branch (option_map (λ s. stretch s.now) found.entry) }
{
    match found {
        Some(s) => Some(Branch::Value(s)),
        None => None,
    }
}

/// A tail as a branch, if it is there.
fn turn_branch<'a>(found: Option<&'a Tail>) -> Option<Branch<'a>>
    ensures { option_map plain_branch result ≡ option_map of.tail_branch (option_map (λ t. tail t.now) found.entry) }
{
    match found {
        Some(t) => Some(Branch::Turn(t)),
        None => None,
    }
}

/// The i-th stretch that a node goes on with.
fn node_arm(n: &Node, i: usize) -> Option<&Stretch>
    ensures { option_map (λ s. stretch s.now) result ≡ of.stretch_at (of.arms_of (node n.now)) i }
{
    match n {
        Node::If { c: _c, yes, no } => one_of_stretches(yes, no, i),
        Node::Choose {
            x: _x,
            by: _by,
            arms,
        } => among_stretches(arms, i),
        _ => None,
    }
}

/// The i-th of two stretches.
fn one_of_stretches<'a>(yes: &'a Stretch, no: &'a Stretch, i: usize) -> Option<&'a Stretch>
    ensures { option_map (λ s. stretch s.now) result ≡ of.stretch_at (code.stretch_then (stretch yes.now) (code.stretch_then (stretch no.now) code.no_stretch)) i }
{
    match i {
        0 => Some(yes),
        1 => Some(no),
        _ => None,
    }
}

/// The i-th of several stretches.
fn among_stretches(stretches: &[Stretch], i: usize) -> Option<&Stretch>
    ensures { option_map (λ s. stretch s.now) result ≡ of.stretch_at (code.stretches (map stretch stretches.now)) i }
{
    match stretches.get(i) {
        Some(s) => Some(s),
        None => None,
    }
}

/// The i-th tail that an end goes on with.
fn end_arm(e: &End, i: usize) -> Option<&Tail>
    ensures { option_map (λ t. tail t.now) result ≡ of.tail_at (of.ways_of (end e.now)) i }
{
    match e {
        End::If { c: _c, yes, no } => one_of_tails(yes, no, i),
        End::Pick {
            x: _x,
            by: _by,
            arms,
        } => among_tails(arms, i),
        _ => None,
    }
}

/// The i-th of two tails.
fn one_of_tails<'a>(yes: &'a Tail, no: &'a Tail, i: usize) -> Option<&'a Tail>
    ensures { option_map (λ t. tail t.now) result ≡ of.tail_at (code.tail_then (tail yes.now) (code.tail_then (tail no.now) code.no_tail)) i }
{
    match i {
        0 => Some(yes),
        1 => Some(no),
        _ => None,
    }
}

/// The i-th of several tails.
fn among_tails(tails: &[Tail], i: usize) -> Option<&Tail>
    ensures { option_map (λ t. tail t.now) result ≡ of.tail_at (code.tails (map tail tails.now)) i }
{
    match tails.get(i) {
        Some(t) => Some(t),
        None => None,
    }
}
