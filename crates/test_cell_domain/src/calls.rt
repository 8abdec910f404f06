//! What the calls of a domain give.

ghost use Rattle.std.specs.Prelude.{IfOk, IfSome, IsTrue};
ghost use Rattle.spec_ir.specs.Views.{specification};

use crate::text::{push_element, push_state, push_tests};
use abstract_value::AbstractValue;
use analysis_problems::laws::read_entries_fit;
use base_kset::KSet;
use domain_cells::StateDomain;
use domain_trait::Domain;
use spec_ir::Spec;
use state_text::read_entry;
use std::alloc::{AllocError as NoMemory, Global};

/// What the calls give on two elements.
#[derive(Drop)]
pub(crate) struct CallResults<D: Domain> {
    first: D::Element,
    joined: D::Element,
    widened: D::Element,
    copied: D::Element,
    opened: AbstractValue<D::B>,
    closed: D::Element,
    absorbs: (bool, bool),
    ranks: (u64, u64),
}

/// The element of the text of an entry at the counter 1000, with a `;` for each line end; none, where the entry has a fault.
fn entry_of<D: Domain>(
    alloc: Global,
    spec: &Spec,
    domain: &D,
    text: &str,
) -> Result<Option<D::Element>, NoMemory>
    requires made { IsTrue (D.is_for domain.now (specification spec.now)) }
    ensures { IfOk result (λ o. IfSome o (λ x. (D.elements domain.now).fits (D.view x))) }
{
    read_entries_fit();
    let mut lines = String::new(alloc);
    lines.push_str("pc 1000\n")?;
    for line in text.split(';') {
        lines.push_str(line)?;
        lines.push('\n')?;
    }
    if lines.len() > 65_536 {
        return Ok(None);
    }
    match read_entry(alloc, spec, lines.as_bytes()) {
        Ok(entry) => Ok(Some(domain.entry(alloc, spec, &entry)?)),
        Err(_fault) => Ok(None),
    }
}

/// What the calls give on two elements.
fn found<D: Domain>(
    alloc: Global,
    spec: &Spec,
    domain: &D,
    x: D::Element,
    y: D::Element,
) -> Result<CallResults<D>, NoMemory>
    requires made { IsTrue (D.is_for domain.now (specification spec.now)) }
    requires first { (D.elements domain.now).fits (D.view x) }
    requires second { (D.elements domain.now).fits (D.view y) }
{
    let joined = domain.join(alloc, &x, &y)?;
    let widened = domain.widen(alloc, &x, &y)?;
    let copied = domain.copy(alloc, &y)?;
    let opened = domain.open(alloc, spec, &x, 4096)?;
    let closed = domain.close(alloc, spec, &x, &opened)?;
    let absorbs = (
        domain.absorbs(&joined, &copied),
        domain.absorbs(&x, &copied),
    );
    let ranks = (domain.rank(&x), domain.rank(&joined));
    Ok(CallResults {
        first: x,
        joined,
        widened,
        copied,
        opened,
        closed,
        absorbs,
        ranks,
    })
}

/// What the calls of the domain of cells give on the elements of two entries; none, where one has a fault.
fn of_entries(
    alloc: Global,
    spec: &Spec,
    domain: &StateDomain<KSet<2>>,
    first: &str,
    second: &str,
) -> Result<Option<CallResults<StateDomain<KSet<2>>>>, NoMemory>
    requires made { IsTrue (⟦<StateDomain<KSet<2>> as Domain>⟧.is_for domain.now (specification spec.now)) }
{
    let Some(x) = entry_of(alloc, spec, domain, first)? else {
        return Ok(None);
    };
    let Some(y) = entry_of(alloc, spec, domain, second)? else {
        return Ok(None);
    };
    Ok(Some(found(alloc, spec, domain, x, y)?))
}

/// The lines of what the calls give.
fn told(alloc: Global, of: &CallResults<StateDomain<KSet<2>>>) -> Result<String, NoMemory> {
    let mut out = String::new(alloc);
    push_element(alloc, &mut out, "first", &of.first)?;
    push_element(alloc, &mut out, "second", &of.copied)?;
    push_element(alloc, &mut out, "join", &of.joined)?;
    push_element(alloc, &mut out, "widened", &of.widened)?;
    push_tests(alloc, &mut out, of.absorbs, of.ranks)?;
    push_state(alloc, &mut out, &of.opened)?;
    push_element(alloc, &mut out, "closed", &of.closed)?;
    Ok(out)
}

/// What a case gives.
pub(crate) fn answer(
    alloc: Global,
    spec: &Spec,
    domain: &StateDomain<KSet<2>>,
    line: &str,
) -> Result<String, NoMemory>
    requires made { IsTrue (⟦<StateDomain<KSet<2>> as Domain>⟧.is_for domain.now (specification spec.now)) }
{
    let Some((first, second)) = line.split_once(" | ") else {
        return String::from_str(alloc, "    no case\n");
    };
    match of_entries(alloc, spec, domain, first, second)? {
        Some(of) => told(alloc, &of),
        None => String::from_str(alloc, "    no entry\n"),
    }
}
