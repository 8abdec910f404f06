//! The answers of the table that a text is to the claims that another is, in a domain.

ghost use Rattle.std.specs.Prelude.{◌≡◌, ◌<◌, ◌≤◌, ◌+◌, ◌-◌, ◌^◌, ℕ, IfOk, IsTrue, Some, length, map};
ghost use Rattle.base_trait.specs.Lists.{Each};
ghost use Rattle.support_command_line.specs.Bases.{base_text};
ghost use Rattle.spec_ir.specs.Views.{specification};
ghost use Rattle.fixpoint_theory.specs.Table.{Listing};
ghost use Rattle.fixpoint_theory.specs.Views.{listings};
ghost use Rattle.domain_laws.specs.States.{state_type};
ghost use Rattle.state_text.specs.Reading.{entry_of};
ghost use Rattle.analysis_query_laws.specs.Laws.{IsClaim};
ghost use Rattle.analysis_claims.specs.Tables.{claim as plain_claim};
ghost use Rattle.text_claims.specs.Answers.{answers};
ghost use Rattle.program_common.specs.Outcomes.{Gives, answer_of};
ghost use Rattle.program_domain_tasks.specs.Claims.{OwnClaims};
ghost use Rattle.program_domains.specs.Tasks as asked;
ghost use Rattle.program_domain_tasks.specs.Own.{OwnWork};
ghost use Rattle.program_domain_tasks.specs.Read.{IsRead, IsTextOf, problem_at};

use crate::closed_table::read_closed;
use crate::task::{AnalysisStart, Subject};
use crate::verdict::{require_closed, verdict_in};
use analysis_claims::Claim;
use fixpoint_theory::Table;
use program_common::{Answer, Halt};
use program_domains::NamedDomain;
use spec_ir::Spec;
use std::alloc::{AllocError as NoMemory, Global};
use std::sync::ledger::Ledger;
use support_command_line::BaseName;
use support_step_counter::Steps;
use text_claims::{answers_text, read_claims};

/// The answers of a table to claims, as text.
pub fn answer_bytes<D: NamedDomain>(
    alloc: Global,
    domain: &D,
    spec: &Spec,
    table: &Table<D::Element>,
    claims: &[Claim],
) -> Result<Vec<u8>, NoMemory>
    requires made { IsTrue (D.is_for domain.now (specification spec.now)) }
    requires fits { (at : ℕ) (b : Listing D.Element) → listings (λ e. e) table.now at ≡ Some b → (D.elements domain.now).fits (D.view b.elem) }
    requires claims { Each (IsClaim (D.telling domain.now) (state_type (specification spec.now)).fields) (map plain_claim claims.now) }
    ensures { IfOk result (λ text. text.items ≡ answers (D.telling domain.now) (listings (λ x. x) table.now) (map plain_claim claims.now)) }
{
    Ok(answers_text::<D>(alloc, domain, spec, table, claims)?.into_bytes())
}

/// That text as an answer.
fn answer_of_text<D: NamedDomain>(
    alloc: Global,
    domain: &D,
    spec: &Spec,
    table: &Table<D::Element>,
    claims: &[Claim],
) -> Result<Answer, NoMemory>
    requires made { IsTrue (D.is_for domain.now (specification spec.now)) }
    requires fits { (at : ℕ) (b : Listing D.Element) → listings (λ e. e) table.now at ≡ Some b → (D.elements domain.now).fits (D.view b.elem) }
    requires claims { Each (IsClaim (D.telling domain.now) (state_type (specification spec.now)).fields) (map plain_claim claims.now) }
    ensures { IfOk result (λ answer. IsTextOf (λ text. text ≡ answers (D.telling domain.now) (listings (λ x. x) table.now) (map plain_claim claims.now)) (answer_of answer)) }
{
    Ok(Answer::Text(answer_bytes::<D>(alloc, domain, spec, table, claims)?))
}

/// What the claims of a text come to in a domain that was made for the specification.
pub fn claims_in_domain<'a, 'b, D: NamedDomain, L: Ledger>(
    alloc: Global,
    domain: &D,
    it: &Subject<'a>,
    start: &AnalysisStart<'a>,
    base: BaseName,
    bytes: &[u8],
    list: &[u8],
    steps: &mut Steps<L>,
) -> Result<Answer, Halt<'b>>
    requires joins { IsTrue D.B.algebra.joins }
    requires made { IsTrue (D.is_for domain.now (specification it.now.spec.now)) }
    requires read { IsRead (specification it.now.spec.now) start.now.machine (entry_of start.now.entry.now) }
    requires short { length bytes.now < 2 ^ 32 }
    requires few { length list.now < 2 ^ 32 - 1 }
    ensures gives { Gives (OwnClaims (record { base = D.B.algebra; cap = D.B.CAP; elements = D.elements domain.now; meaning = D.meaning domain.now; pieces = D.pieces domain.now; view = D.view; IsText = D.IsText; Reads = D.Reads domain.now; word_in = D.word_in domain.now; word_text = D.word_text }) (D.telling domain.now) (problem_at (specification it.now.spec.now) it.now.image.now start.now) it.now.image.now (base_text base) bytes.now list.now) answer_of result }
    ensures work { OwnWork (record { base = D.B.algebra; cap = D.B.CAP; elements = D.elements domain.now; meaning = D.meaning domain.now; pieces = D.pieces domain.now; view = D.view; IsText = D.IsText; Reads = D.Reads domain.now; word_in = D.word_in domain.now; word_text = D.word_text }) it.now.image.now (base_text base) (asked.claims (problem_at (specification it.now.spec.now) it.now.image.now start.now) bytes.now list.now) steps.old steps.new }
{
    let table = read_closed::<D>(alloc, domain, it, base, bytes)?;
    let claims = read_claims::<D>(alloc, domain, it.spec, it.image, list)?;
    let verdict = verdict_in::<D, L>(alloc, domain, it, start, &table, steps)?;
    require_closed::<D>(alloc, &verdict)?;
    Ok(answer_of_text::<D>(alloc, domain, it.spec, &table, &claims)?)
}
