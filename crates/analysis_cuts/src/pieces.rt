//! The pieces of an element by numbers at which a cell is cut.

ghost use Rattle.std.specs.Prelude.{◌≡◌, ◌++◌, ◌∷◌, [], map, IfOk, IsTrue, OnOk};
ghost use Rattle.base_trait.specs.Lists.{Each};
ghost use Rattle.spec_ir.specs.Views.{specification};
ghost use Rattle.fixpoint_cases.specs.Lists.{if_there};
ghost use Rattle.fixpoint_cases.specs.Pieces.{pieces};
ghost use Rattle.fixpoint_cases.specs.Same.{AreSame};
ghost use Rattle.analysis_cuts.specs.Pieces.{Joins};

use analysis_choices::CellCuts;
use domain_laws::CellRange;
use domain_trait::Domain;
use spec_ir::Spec;
use std::alloc::{AllocError as NoMemory, Global};

/// What is left of an element below the first number, from each to the next, and from the last on. Where nothing is left there is no piece.
pub(crate) fn pieces_of<D: Domain>(
    alloc: Global,
    domain: &D,
    spec: &Spec,
    by: &CellCuts,
    x: &D::Element,
) -> Result<Vec<D::Element>, NoMemory>
    requires made { IsTrue (D.is_for domain.now (specification spec.now)) }
    requires fits { (D.elements domain.now).fits (D.view x.now) }
    ensures value { IfOk result (λ r. AreSame (D.elements domain.now) (map D.view r.items) (pieces (D.pieces domain.now) (by.now.place, by.now.key) by.now.cuts.items (D.view x.now))) }
    ensures fits { IfOk result (λ r. Each (D.elements domain.now).fits (map D.view r.items)) }
{
    pieces_between(alloc, domain, spec, by, &by.cuts, x)
}

/// The same, by these numbers of the cell.
fn pieces_between<D: Domain>(
    alloc: Global,
    domain: &D,
    spec: &Spec,
    by: &CellCuts,
    cuts: &[u64],
    x: &D::Element,
) -> Result<Vec<D::Element>, NoMemory>
    requires made { IsTrue (D.is_for domain.now (specification spec.now)) }
    requires fits { (D.elements domain.now).fits (D.view x.now) }
    ensures value { IfOk result (λ r. AreSame (D.elements domain.now) (map D.view r.items) (pieces (D.pieces domain.now) (by.now.place, by.now.key) cuts.now (D.view x.now))) }
    ensures fits { IfOk result (λ r. Each (D.elements domain.now).fits (map D.view r.items)) }
{
    let mut out = Vec::new(alloc);
    let mut low = 0;
    for cut in cuts {
        let range = between(by, low, cut.saturating_sub(1));
        push_piece(alloc, domain, spec, range, x, &mut out)?;
        low = *cut;
    }
    let range = between(by, low, u64::MAX);
    push_piece(alloc, domain, spec, range, x, &mut out)?;
    Ok(out)
}

/// The cell between two numbers.
fn between(by: &CellCuts, low: u64, high: u64) -> CellRange
    ensures place { result.place ≡ by.now.place }
    ensures key { result.key ≡ by.now.key }
    ensures low { result.low ≡ low }
    ensures high { result.high ≡ high }
{
    CellRange {
        place: by.place,
        key: by.key,
        low,
        high,
    }
}

/// Adds what is left of an element, if something is.
fn push_piece<D: Domain>(
    alloc: Global,
    domain: &D,
    spec: &Spec,
    range: CellRange,
    x: &D::Element,
    out: &mut Vec<D::Element>,
) -> Result<(), NoMemory>
    requires made { IsTrue (D.is_for domain.now (specification spec.now)) }
    requires fits { (D.elements domain.now).fits (D.view x.now) }
    requires before { Each (D.elements domain.now).fits (map D.view out.old.items) }
    ensures value { OnOk result (Joins (D.elements domain.now) (map D.view out.old.items) (map D.view out.new.items) (D.pieces domain.now (range.place, range.key) range.low range.high (D.view x.now))) }
    ensures fits { OnOk result (Each (D.elements domain.now).fits (map D.view out.new.items)) }
{
    if let Some(left) = domain.piece(alloc, spec, range, x)? {
        put(out, left)?;
    }
    Ok(())
}

/// Puts an item behind a list. After an error the list is open.
fn put<T: Drop>(list: &mut Vec<T>, item: T) -> Result<(), NoMemory>
    ensures items { OnOk result (list.new.items ≡ list.old.items ++ item ∷ []) }
{
    match list.push(item) {
        Ok(()) => Ok(()),
        Err(_failed) => Err(NoMemory),
    }
}
