//! The split of an element by the first of some cells and cuts that narrows it.

ghost use Rattle.std.specs.Prelude.{◌≡◌, not, map, option_map, IfOk, IfSome, IsTrue};
ghost use Rattle.base_trait.specs.Lists.{Each};
ghost use Rattle.spec_ir.specs.Views.{specification};
ghost use Rattle.fixpoint_cases.specs.Narrowing.{first_narrowing, none_absorbs};
ghost use Rattle.fixpoint_cases.specs.Pieces.{pieces};
ghost use Rattle.fixpoint_cases.specs.Same.{AreSameSplits};
ghost use Rattle.analysis_choices.specs.Views.{choice};
ghost use Rattle.analysis_cuts.specs.Pieces.{narrower};

use crate::pieces::pieces_of;
use analysis_choices::CellCuts;
use domain_trait::Domain;
use spec_ir::Spec;
use std::alloc::{AllocError as NoMemory, Global};

/// Whether one of these elements absorbs another.
fn absorb<D: Domain>(domain: &D, elements: &[D::Element], x: &D::Element) -> bool
    requires elements { Each (D.elements domain.now).fits (map D.view elements.now) }
    requires fits { (D.elements domain.now).fits (D.view x.now) }
    ensures { not result ≡ none_absorbs (D.elements domain.now) (D.pieces domain.now) (map D.view elements.now) (D.view x.now) }
{
    for element in elements {
        if domain.absorbs(element, x) {
            return true;
        }
    }
    false
}

/// The pieces of an element by a cell and cuts, unless one of them absorbs it.
fn narrower<D: Domain>(
    alloc: Global,
    domain: &D,
    spec: &Spec,
    by: &CellCuts,
    x: &D::Element,
) -> Result<Option<Vec<D::Element>>, NoMemory>
    requires made { IsTrue (D.is_for domain.now (specification spec.now)) }
    requires fits { (D.elements domain.now).fits (D.view x.now) }
    ensures value { IfOk result (λ r. AreSameSplits (D.elements domain.now) (option_map (λ v. map D.view v.items) r) (narrower (D.elements domain.now) (D.pieces domain.now) (choice by.now) (D.view x.now))) }
    ensures fits { IfOk result (λ r. IfSome r (λ v. Each (D.elements domain.now).fits (map D.view v.items))) }
{
    let pieces = pieces_of(alloc, domain, spec, by, x)?;
    if absorb(domain, &pieces, x) {
        Ok(None)
    } else {
        Ok(Some(pieces))
    }
}

/// The pieces of an element by the first of these cells and cuts that narrows it, if one does.
pub(crate) fn split_by_first<D: Domain>(
    alloc: Global,
    domain: &D,
    spec: &Spec,
    choices: &[CellCuts],
    x: &D::Element,
) -> Result<Option<Vec<D::Element>>, NoMemory>
    requires made { IsTrue (D.is_for domain.now (specification spec.now)) }
    requires fits { (D.elements domain.now).fits (D.view x.now) }
    ensures value { IfOk result (λ r. AreSameSplits (D.elements domain.now) (option_map (λ v. map D.view v.items) r)
        (option_map (λ c. pieces (D.pieces domain.now) c.0 c.1 (D.view x.now)) (first_narrowing (D.elements domain.now) (D.pieces domain.now) (map choice choices.now) (D.view x.now)))) }
    ensures fits { IfOk result (λ r. IfSome r (λ v. Each (D.elements domain.now).fits (map D.view v.items))) }
{
    for by in choices {
        let pieces = narrower(alloc, domain, spec, by, x)?;
        if pieces.is_some() {
            return Ok(pieces);
        }
    }
    Ok(None)
}
