//! Pairs of cells that keep one value: parts of two texts, which may list other keys each.

ghost use Rattle.std.specs.Prelude.{IfOk, IsTrue, max};
ghost use Rattle.spec_ir.specs.Views.{specification};
ghost use Rattle.domain_cells.specs.Views.{context_of, states_of};
ghost use Rattle.domain_product_states.specs.Parts.{pair_elements};
ghost use Rattle.domain_product_states.specs.Views.{seen};

use crate::domains::ShownDomain;
use crate::least::{joined, least};
use base_cuts::CutBase;
use domain_product_states::{PairedStates, PairedValues, of_parts, taken_apart};
use domain_trait::Domain;
use spec_ir::Spec;
use std::alloc::{AllocError as NoMemory, Global};
use test_analysis_cases::Unread;
use text_elements::{NamedBase, WriteElement};

/// The first part of one element beside the second part of another.
fn beside<A: CutBase, B: CutBase>(
    alloc: Global,
    domain: &PairedStates<A, B>,
    x: &PairedValues<A, B>,
    y: &PairedValues<A, B>,
) -> Result<PairedValues<A, B>, NoMemory>
    requires first { (pair_elements A.algebra B.algebra (context_of domain.now.states) A.CAP B.CAP (max A.CAP B.CAP) (states_of domain.now.states)).fits (seen x.now) }
    requires second { (pair_elements A.algebra B.algebra (context_of domain.now.states) A.CAP B.CAP (max A.CAP B.CAP) (states_of domain.now.states)).fits (seen y.now) }
    ensures { IfOk result (λ r. (pair_elements A.algebra B.algebra (context_of domain.now.states) A.CAP B.CAP (max A.CAP B.CAP) (states_of domain.now.states)).fits (seen r)) }
{
    let ctx = domain.states.shared();
    let left = taken_apart(alloc, ctx, x)?;
    let right = taken_apart(alloc, ctx, y)?;
    of_parts(alloc, ctx, left.0, right.1)
}

/// The element of which the text before a ` & ` says the first part, and the text behind it the second.
fn of_both<A: CutBase, B: CutBase>(
    alloc: Global,
    spec: &Spec,
    domain: &PairedStates<A, B>,
    text: &str,
) -> Result<PairedValues<A, B>, Unread>
    requires made { IsTrue (⟦<PairedStates<A, B> as Domain>⟧.is_for domain.now (specification spec.now)) }
    ensures { IfOk result (λ x. (⟦<PairedStates<A, B> as Domain>⟧.elements domain.now).fits (⟦<PairedStates<A, B> as Domain>⟧.view x)) }
{
    let Some((left, right)) = text.split_once(" & ") else {
        return Err(Unread::No("element"));
    };
    let first = least(alloc, spec, domain, left)?;
    match least(alloc, spec, domain, right) {
        Ok(second) => Ok(beside(alloc, domain, &first, &second)?),
        Err(error) => Err(error),
    }
}

/// The join of the elements of texts with a ` // ` between.
fn of_texts<A: CutBase, B: CutBase>(
    alloc: Global,
    spec: &Spec,
    domain: &PairedStates<A, B>,
    text: &str,
) -> Result<PairedValues<A, B>, Unread>
    requires made { IsTrue (⟦<PairedStates<A, B> as Domain>⟧.is_for domain.now (specification spec.now)) }
    ensures { IfOk result (λ x. (⟦<PairedStates<A, B> as Domain>⟧.elements domain.now).fits (⟦<PairedStates<A, B> as Domain>⟧.view x)) }
{
    let mut texts = text.split("//");
    let mut all = of_both(alloc, spec, domain, texts.next().unwrap_or(""))?;
    for text in texts {
        let next = of_both(alloc, spec, domain, text);
        all = joined(alloc, domain, all, next)?;
    }
    Ok(domain.copy(alloc, &all)?)
}

impl<A: NamedBase, B: NamedBase> ShownDomain for PairedStates<A, B> {
    /// The lines that the program writes, further in.
    fn push_shown(
        alloc: Global,
        out: &mut String,
        spec: &Spec,
        x: &PairedValues<A, B>,
    ) -> Result<(), NoMemory> {
        let mut lines = String::new(alloc);
        PairedStates::<A, B>::push_element(&mut lines, spec, x)?;
        for line in lines.as_str().lines() {
            writeln!(out, "    {}", line)?;
        }
        Ok(())
    }

    /// The join of the elements of texts with a ` // ` between.
    fn element(
        &self,
        alloc: Global,
        spec: &Spec,
        text: &str,
    ) -> Result<PairedValues<A, B>, Unread> {
        of_texts(alloc, spec, self, text)
    }
}
