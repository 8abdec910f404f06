//! Answers to claims.

ghost use Rattle.std.specs.Prelude.{◌≡◌, ◌+◌, ◌<◌, ◌^◌, ◌∷◌, ℕ, Some, IfOk, IfSome, IsTrue, ◌&&◌, length, replicate};
ghost use Rattle.spec_ir.specs.Views.{specification};
ghost use Rattle.fixpoint_theory.specs.Table.{Listing};
ghost use Rattle.fixpoint_theory.specs.Views.{listings};
ghost use Rattle.domain_laws.specs.States.{state_type};
ghost use Rattle.analysis_query_laws.specs.Answers as told_of;
ghost use Rattle.analysis_query_laws.specs.Answers.{with_multiple};
ghost use Rattle.analysis_query_laws.specs.Claims.{address_of};
ghost use Rattle.analysis_query_laws.specs.Laws.{IsClaim};
ghost use Rattle.analysis_claims.specs.Tables.{claim as plain_claim};

use crate::claim::Claim;
use crate::claim_elem::ClaimElement;
use crate::instances::{other_told, range_told};
use fixpoint_theory::Table;
use semantics_values::KeyAt;
use spec_ir::Spec;
use std::alloc::{AllocError as NoMemory, Global};
use support_modular_rows::Form;

/// The form of a number alone, over k cells.
fn constant_form(alloc: Global, k: u32, c: u32) -> Result<Form, NoMemory>
    ensures { IfOk result (λ r. r ≡ c ∷ replicate k 0) }
{
    let mut numbers = vec![in alloc; 0; k as usize + 1]?;
    numbers[0] = c;
    Ok(Form { c: numbers })
}

/// Adds a multiple of the cell in a column, if there is one.
fn add_multiple(form: &mut Form, m: u32, column: Option<u32>)
    requires { IfSome column (λ j. j + 1 < length form.old) }
    ensures { form.new ≡ with_multiple m column form.old }
{
    if let Some(j) = column {
        let place = j as usize + 1;
        form.c[place] = form.c[place].wrapping_add(m);
    }
}

/// The form of a number and multiples of tracked cells. Multiples of one cell are added.
fn form_of<D: ClaimElement>(
    alloc: Global,
    domain: &D,
    c: u32,
    parts: &[(u32, u32, KeyAt)],
) -> Result<Form, NoMemory>
    ensures { IfOk result (λ r. r ≡ told_of.form_of (D.telling domain.now).tracked c parts.now) }
{
    let mut form = constant_form(alloc, domain.cells(), c)?;
    let mut left = parts.len();
    while left > 0 {
        left -= 1;
        let part = &parts[left];
        add_multiple(&mut form, part.0, domain.tracked(part.1, &part.2));
    }
    Ok(form)
}

/// Whether an element tells that a sum is 0; not where it tells of no sums.
fn sum_told<D: ClaimElement>(
    alloc: Global,
    domain: &D,
    x: &D::Element,
    c: u32,
    parts: &[(u32, u32, KeyAt)],
) -> Result<bool, NoMemory>
    requires { (D.elements domain.now).fits (D.view x.now) }
    ensures { IfOk result (λ r. r ≡ ((D.telling domain.now).takes_sums && (D.telling domain.now).meets x.now
        (told_of.form_of (D.telling domain.now).tracked c parts.now))) }
{
    if !domain.takes_sums() {
        return Ok(false);
    }
    let form = form_of(alloc, domain, c, parts)?;
    Ok(domain.meets(x, &form))
}

/// Whether an element tells a claim.
fn tells_claim<D: ClaimElement>(
    alloc: Global,
    domain: &D,
    spec: &Spec,
    x: &D::Element,
    claim: &Claim,
) -> Result<bool, NoMemory>
    requires made { IsTrue (D.is_for domain.now (specification spec.now)) }
    requires fits { (D.elements domain.now).fits (D.view x.now) }
    requires claim { IsClaim (D.telling domain.now) (state_type (specification spec.now)).fields (plain_claim claim.now) }
    ensures { IfOk result (λ r. r ≡ told_of.told (D.telling domain.now) x.now (plain_claim claim.now)) }
{
    match claim {
        Claim::Range {
            at: _at,
            field,
            key,
            lo,
            hi,
        } => range_told(domain, alloc, spec, x, *field, key, *lo, *hi),
        Claim::Sum { at: _at, c, parts } => sum_told(alloc, domain, x, *c, parts),
        Claim::Differs {
            at: _at,
            field,
            key,
            value,
        } => other_told(domain, alloc, spec, x, *field, key, *value),
        Claim::Never { at: _at } => Ok(false),
    }
}

impl Claim {
    /// The address of the states of which it speaks.
    pub fn address(&self) -> u32
        ensures { result ≡ address_of (plain_claim self.now) }
    {
        match self {
            Claim::Range { at, .. } => *at,
            Claim::Sum { at, .. } => *at,
            Claim::Differs { at, .. } => *at,
            Claim::Never { at } => *at,
        }
    }
}

/// The answer of a table to a claim: whether the element at the claim's address tells it. Where none is listed it is yes, since no run comes there.
pub fn answer<D: ClaimElement>(
    alloc: Global,
    domain: &D,
    spec: &Spec,
    table: &Table<D::Element>,
    claim: &Claim,
) -> Result<bool, NoMemory>
    requires made { IsTrue (D.is_for domain.now (specification spec.now)) }
    requires fits { (at : ℕ) (b : Listing D.Element) → listings (λ e. e) table.now at ≡ Some b → (D.elements domain.now).fits (D.view b.elem) }
    requires claim { IsClaim (D.telling domain.now) (state_type (specification spec.now)).fields (plain_claim claim.now) }
    ensures { IfOk result (λ r. r ≡ told_of.answer (D.telling domain.now) (listings (λ e. e) table.now) (plain_claim claim.now)) }
{
    match table.blocks.get(&claim.address()) {
        Some(block) => tells_claim(alloc, domain, spec, &block.elem, claim),
        None => Ok(true),
    }
}
