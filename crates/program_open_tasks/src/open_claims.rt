//! The answers of the table that a text is to the claims that another is, in a domain, where blocks may be left open.

ghost use Rattle.std.specs.Prelude.{◌<◌, ◌-◌, ◌^◌, IsTrue, length};
ghost use Rattle.support_command_line.specs.Bases.{base_text};
ghost use Rattle.spec_ir.specs.Views.{specification};
ghost use Rattle.state_text.specs.Reading.{entry_of};
ghost use Rattle.program_common.specs.Outcomes.{Gives, answer_of};
ghost use Rattle.program_domains.specs.Tasks as asked;
ghost use Rattle.program_domain_tasks.specs.Own.{OwnWork};
ghost use Rattle.program_domain_tasks.specs.Read.{IsRead, problem_at};
ghost use Rattle.program_open_tasks.specs.OpenTables.{OwnClaimsOpen};

use crate::open_verdict::open_verdict_in;
use crate::until_open::mark_until_open;
use program_common::{Answer, Halt};
use program_domain_tasks::{AnalysisStart, Subject, answer_bytes, require_closed};
use program_domains::NamedDomain;
use std::alloc::Global;
use std::sync::ledger::Ledger;
use support_command_line::BaseName;
use support_step_counter::Steps;
use text_claims::read_claims;
use text_table_reader::read_table;

/// What the claims of a text come to in a domain that was made for the specification, where blocks may be left open.
pub fn claims_open_in_domain<'a, 'b, D: NamedDomain, L: Ledger>(
    alloc: Global,
    domain: &D,
    it: &Subject<'a>,
    start: &AnalysisStart<'a>,
    base: BaseName,
    bytes: &[u8],
    list: &[u8],
    steps: &mut Steps<L>,
) -> Result<Answer, Halt<'b>>
    requires joins { IsTrue D.B.algebra.joins }
    requires made { IsTrue (D.is_for domain.now (specification it.now.spec.now)) }
    requires read { IsRead (specification it.now.spec.now) start.now.machine (entry_of start.now.entry.now) }
    requires short { length bytes.now < 2 ^ 32 }
    requires few { length list.now < 2 ^ 32 - 1 }
    ensures gives { Gives (OwnClaimsOpen (record { base = D.B.algebra; cap = D.B.CAP; elements = D.elements domain.now; meaning = D.meaning domain.now; pieces = D.pieces domain.now; view = D.view; IsText = D.IsText; Reads = D.Reads domain.now; word_in = D.word_in domain.now; word_text = D.word_text }) (problem_at (specification it.now.spec.now) it.now.image.now start.now) (D.telling domain.now) it.now.image.now (base_text base) bytes.now list.now) answer_of result }
    ensures work { OwnWork (record { base = D.B.algebra; cap = D.B.CAP; elements = D.elements domain.now; meaning = D.meaning domain.now; pieces = D.pieces domain.now; view = D.view; IsText = D.IsText; Reads = D.Reads domain.now; word_in = D.word_in domain.now; word_text = D.word_text }) it.now.image.now (base_text base) (asked.claims_open (problem_at (specification it.now.spec.now) it.now.image.now start.now) bytes.now list.now) steps.old steps.new }
{
    let found = read_table::<D>(alloc, domain, it.spec, it.image, base, bytes)?;
    let claims = read_claims::<D>(alloc, domain, it.spec, it.image, list)?;
    let verdict = open_verdict_in::<D, L>(alloc, domain, it, start, &found, steps)?;
    require_closed::<D>(alloc, &verdict)?;
    let text = answer_bytes::<D>(alloc, domain, it.spec, &found.table, &claims)?;
    Ok(mark_until_open(alloc, &found.endings, text)?)
}
