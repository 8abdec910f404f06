//! The answers to claims as text.

ghost use Rattle.std.specs.Prelude.{◌≡◌, ◌++◌, ℕ, Some, IfOk, IsTrue, OnOk, map};
ghost use Rattle.std.specs.String.{string_bytes};
ghost use Rattle.base_trait.specs.Lists.{Each};
ghost use Rattle.spec_ir.specs.Views.{specification};
ghost use Rattle.fixpoint_theory.specs.Table.{Listing};
ghost use Rattle.fixpoint_theory.specs.Views.{listings};
ghost use Rattle.domain_laws.specs.States.{state_type};
ghost use Rattle.analysis_query_laws.specs.Laws.{IsClaim};
ghost use Rattle.analysis_claims.specs.Tables as plain;
ghost use Rattle.text_claims.specs.Answers as lines;

use analysis_claims::{Claim, ClaimElement, answer};
use fixpoint_theory::Table;
use spec_ir::Spec;
use std::alloc::{AllocError as NoMemory, Global};

/// Appends the line of an answer.
fn push_answer(out: &mut String, told: bool) -> Result<(), NoMemory>
    ensures { OnOk result (string_bytes out.new ≡ string_bytes out.old ++ lines.answer_line told) }
{
    if told {
        out.push_str("yes\n")
    } else {
        out.push_str("open\n")
    }
}

/// The answers of a table to claims: a line `yes` or `open` for each.
pub fn answers_text<D: ClaimElement>(
    alloc: Global,
    domain: &D,
    spec: &Spec,
    table: &Table<D::Element>,
    claims: &[Claim],
) -> Result<String, NoMemory>
    requires made { IsTrue (D.is_for domain.now (specification spec.now)) }
    requires fits { (at : ℕ) (b : Listing D.Element) → listings (λ e. e) table.now at ≡ Some b → (D.elements domain.now).fits (D.view b.elem) }
    requires claims { Each (IsClaim (D.telling domain.now) (state_type (specification spec.now)).fields) (map plain.claim claims.now) }
    ensures { IfOk result (λ r. string_bytes r ≡ lines.answers (D.telling domain.now) (listings (λ e. e) table.now) (map plain.claim claims.now)) }
{
    let mut out = String::new(alloc);
    for claim in claims {
        push_answer(&mut out, answer(alloc, domain, spec, table, claim)?)?;
    }
    Ok(out)
}
