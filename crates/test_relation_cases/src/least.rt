//! Elements of texts.

ghost use Rattle.std.specs.Prelude.{IfOk, IsTrue};
ghost use Rattle.spec_ir.specs.Views.{specification};

use analysis_problems::laws::read_entries_fit;
use domain_trait::Domain;
use spec_ir::Spec;
use std::alloc::Global;
use test_analysis_cases::{Unread, entry};

/// The element of an entry whose text lacks the counter.
fn entered<D: Domain>(
    alloc: Global,
    spec: &Spec,
    domain: &D,
    text: &str,
) -> Result<D::Element, Unread>
    requires made { IsTrue (D.is_for domain.now (specification spec.now)) }
    ensures { IfOk result (λ x. (D.elements domain.now).fits (D.view x)) }
{
    read_entries_fit();
    let lines = format!(in alloc; "pc 00001000;{}", text.trim())?;
    let entry = entry(alloc, spec, lines.as_str())?;
    Ok(domain.entry(alloc, spec, &entry)?)
}

/// The join of an element and the next, if that is read.
pub(crate) fn joined<D: Domain>(
    alloc: Global,
    domain: &D,
    all: D::Element,
    next: Result<D::Element, Unread>,
) -> Result<D::Element, Unread>
    requires fits { (D.elements domain.now).fits (D.view all) }
    requires next { IfOk next (λ x. (D.elements domain.now).fits (D.view x)) }
    ensures { IfOk result (λ x. (D.elements domain.now).fits (D.view x)) }
{
    let next = next?;
    Ok(domain.join(alloc, &all, &next)?)
}

/// The join of the elements of entries with a `/` between.
pub(crate) fn least<D: Domain>(
    alloc: Global,
    spec: &Spec,
    domain: &D,
    text: &str,
) -> Result<D::Element, Unread>
    requires made { IsTrue (D.is_for domain.now (specification spec.now)) }
    ensures { IfOk result (λ x. (D.elements domain.now).fits (D.view x)) }
{
    let mut parts = text.split('/');
    let mut all = entered(alloc, spec, domain, parts.next().unwrap_or(""))?;
    for part in parts {
        let next = entered(alloc, spec, domain, part);
        all = joined(alloc, domain, all, next)?;
    }
    Ok(all)
}
