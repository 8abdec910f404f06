//! Reading claims.

ghost use Rattle.std.specs.Prelude.{◌≡◌, ◌<◌, ◌^◌, ◌-◌, IfOk, length};
ghost use Rattle.base_trait.specs.Lists.{Each};
ghost use Rattle.spec_ir.specs.Views.{specification};
ghost use Rattle.analysis_query_laws.specs.Answers.{Telling};
ghost use Rattle.analysis_claims.specs.Tables as plain;
ghost use Rattle.text_claims.specs.Laws.{IsReadClaim};
ghost use Rattle.text_claims.specs.Reading as defined;
ghost use Rattle.text_claims.specs.Reading.{claims_of, has_word};
ghost use Rattle.text_claims.specs.Views.{meant_of};

use crate::kinds::{ClaimFault, Meant};
use crate::lines::first_line;
use crate::says::meant;
use analysis_claims::{Claim, ClaimElement};
use code_image::Image;
use semantics_values::KeyAt;
use spec_ir::Spec;
use std::alloc::Global;
use text_faults::ClaimError;

/// Whether all cells are tracked.
fn are_tracked<D: ClaimElement>(domain: &D, parts: &[(u32, u32, KeyAt)]) -> bool
    ensures { result ≡ defined.are_tracked (D.telling domain.now) parts.now }
{
    for part in parts {
        if domain.tracked(part.1, &part.2).is_none() {
            return false;
        }
    }
    true
}

/// No fault, where elements tell of such claims.
fn unless_told(told: bool) -> Option<ClaimFault>
    ensures { result ≡ defined.unless_told told }
{
    if told { None } else { Some(ClaimFault::Part) }
}

/// What is wrong with a claim of cells that the states have.
fn part_fault<D: ClaimElement>(domain: &D, claim: &Claim) -> Option<ClaimFault>
    ensures { result ≡ defined.part_fault (D.telling domain.now) (plain.claim claim.now) }
{
    match claim {
        Claim::Range { .. } => unless_told(domain.takes_ranges()),
        Claim::Differs { .. } => unless_told(domain.takes_ranges()),
        Claim::Sum { parts, .. } => {
            if domain.takes_sums() && !are_tracked(domain, parts) {
                Some(ClaimFault::Place)
            } else {
                unless_told(domain.takes_sums())
            }
        }
        Claim::Never { .. } => None,
    }
}

/// What is wrong with a claim, if its cells are those of the states.
fn fault_of<D: ClaimElement>(domain: &D, image: &Image, claim: &Claim) -> Option<ClaimFault>
    ensures { result ≡ defined.fault_of (D.telling domain.now) (has_word image.now) (plain.claim claim.now) }
{
    if image.fetch(claim.address()).is_some() {
        part_fault(domain, claim)
    } else {
        Some(ClaimFault::Place)
    }
}

/// Adds the claim of line number n, which says this.
fn with_line<D: ClaimElement>(
    domain: &D,
    image: &Image,
    claims: &mut Vec<Claim>,
    n: u32,
    meant: Meant,
) -> Result<(), ClaimError>
    ensures { defined.Gives result (claims_of claims.new) (defined.with_line (D.telling domain.now) (has_word image.now) n (meant_of meant)
        (claims_of claims.old)) }
{
    match meant {
        Meant::Nothing => Ok(()),
        Meant::Bad => Err(ClaimError::BadLine { n }),
        Meant::Unknown => Err(ClaimError::UnknownPlace { n }),
        Meant::Says(claim) => match fault_of(domain, image, &claim) {
            Some(fault) => Err(fault.at(n)),
            None => {
                claims.push(claim)?;
                Ok(())
            }
        },
    }
}

/// The claims of a text on the runs of an image, or its first faulty line.
pub fn read_claims<D: ClaimElement>(
    alloc: Global,
    domain: &D,
    spec: &Spec,
    image: &Image,
    bytes: &[u8],
) -> Result<Vec<Claim>, ClaimError>
    requires short { length bytes.now < 2 ^ 32 - 1 }
    ensures answer { defined.Agrees result (defined.read (D.telling domain.now) (has_word image.now) (specification spec.now) bytes.now) }
    ensures claims { IfOk result (λ r. Each (IsReadClaim (D.telling domain.now) (has_word image.now) (specification spec.now)) (claims_of r)) }
{
    let mut claims = Vec::new(alloc);
    let mut rest = bytes;
    let mut n = 1u32;
    while !rest.is_empty() {
        let (line, after) = first_line(rest);
        with_line(domain, image, &mut claims, n, meant(alloc, spec, line)?)?;
        rest = after;
        n += 1;
    }
    Ok(claims)
}
