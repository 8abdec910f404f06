//! A law of refusals: no first fault is want of memory.
//!
//! The errors of the layers below have a variant for want of memory, whose line is empty. The definitions of the first fault of a text never
//! come to it: a source, a tree, the segments of an image, the text of an entry and its one state are refused for what they are.
//! Nothing runs: the function has no body, and its contract is the law (specs/Laws).
#![tactic(auto)]

ghost use Rattle.state_fault_laws.specs.Laws.{FaultsHaveLines};

/// No first fault is want of memory: the line that says which it is is not empty.
pub fn faults_have_lines()
    ensures { FaultsHaveLines }
{}
