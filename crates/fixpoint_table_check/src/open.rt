//! Addresses at which no element absorbs another.

ghost use Rattle.std.specs.Prelude.{◌≡◌, ℕ, List, map};
ghost use Rattle.base_trait.specs.Lists.{Each};
ghost use Rattle.fixpoint_theory.specs.Analysis.{Analysis};
ghost use Rattle.fixpoint_theory.specs.Elements.{Elements};
ghost use Rattle.fixpoint_theory.specs.Table.{TableFits};
ghost use Rattle.fixpoint_theory.specs.Verdicts.{does_absorb, first_open, first_open_sent, is_open};
ghost use Rattle.fixpoint_theory.specs.Views.{arriving, listings};

use fixpoint_theory::{Analyser, Arrival, Table};

/// Whether an address is listed with an element that absorbs this one.
fn is_absorbed<A: Analyser>(
    analyser: &A,
    table: &Table<A::Element>,
    x: &A::Element,
    at: u32,
) -> bool
    requires ready { A.IsReady analyser.now }
    requires table { TableFits (A.analysis analyser.now) (listings A.view table.now) }
    requires fits { (A.analysis analyser.now).elements.fits (A.view x.now) }
    ensures { result ≡ does_absorb (A.analysis analyser.now) (listings A.view table.now at) (A.view x.now) }
{
    match table.blocks.get(&at) {
        Some(block) => analyser.absorbs(&block.elem, x),
        None => false,
    }
}

/// Whether an address is that of a code word at which this element is not absorbed.
pub(crate) fn is_open<A: Analyser>(
    analyser: &A,
    table: &Table<A::Element>,
    x: &A::Element,
    at: u32,
) -> bool
    requires ready { A.IsReady analyser.now }
    requires table { TableFits (A.analysis analyser.now) (listings A.view table.now) }
    requires fits { (A.analysis analyser.now).elements.fits (A.view x.now) }
    ensures { result ≡ is_open (A.analysis analyser.now) (listings A.view table.now) (A.view x.now) at }
{
    analyser.is_code(at) && !is_absorbed(analyser, table, x, at)
}

/// The first target that is open.
pub(crate) fn first_open<A: Analyser>(
    analyser: &A,
    table: &Table<A::Element>,
    x: &A::Element,
    targets: &[u32],
) -> Option<u32>
    requires ready { A.IsReady analyser.now }
    requires table { TableFits (A.analysis analyser.now) (listings A.view table.now) }
    requires fits { (A.analysis analyser.now).elements.fits (A.view x.now) }
    ensures { result ≡ first_open (A.analysis analyser.now) (listings A.view table.now) (A.view x.now) targets.now }
{
    for to in targets {
        if is_open(analyser, table, x, *to) {
            return Some(*to);
        }
    }
    None
}

/// The first address at which what cases send is open.
pub(crate) fn first_open_sent<A: Analyser>(
    analyser: &A,
    table: &Table<A::Element>,
    arrivals: &[Arrival<A::Element>],
) -> Option<u32>
    requires ready { A.IsReady analyser.now }
    requires table { TableFits (A.analysis analyser.now) (listings A.view table.now) }
    requires fits { Each (λ a. (A.analysis analyser.now).elements.fits a.1) (map (arriving A.view) arrivals.now) }
    ensures { result ≡ first_open_sent (A.analysis analyser.now) (listings A.view table.now) (map (arriving A.view) arrivals.now) }
{
    for sent in arrivals {
        if is_open(analyser, table, &sent.elem, sent.to) {
            return Some(sent.to);
        }
    }
    None
}
