//! Tables of which no block is left open.

ghost use Rattle.std.specs.Prelude.{◌≡◌, ◌<◌, ◌^◌, ℕ, None, IfErr, IfNone, IfOk, IfSome, IsTrue, length, true};
ghost use Rattle.support_command_line.specs.Bases.{base_text};
ghost use Rattle.spec_ir.specs.Views.{specification};
ghost use Rattle.fixpoint_theory.specs.Views.{listings};
ghost use Rattle.fixpoint_open_tables.specs.Endings.{ends_in};
ghost use Rattle.domain_laws.specs.States.{has_states};
ghost use Rattle.text_table_reader.specs.Blocks.{BlocksFit};
ghost use Rattle.text_table_reader.specs.Ends.{is_word_of};
ghost use Rattle.text_table_reader.specs.Tables.{IsTableIn};
ghost use Rattle.text_table_reader.specs.Readings.{IsFirstOpen};
ghost use Rattle.program_common.specs.Outcomes.{Stops};
ghost use Rattle.program_domain_tasks.specs.Own.{OwnRefuses};

use crate::task::Subject;
use fixpoint_open_tables::Endings;
use fixpoint_theory::Table;
use program_common::{Halt, Refusal, Rejection};
use program_domains::NamedDomain;
use std::alloc::Global;
use support_command_line::BaseName;
use text_table_reader::{OpenTable, read_table};

/// The first address whose block is left open.
pub fn first_open<W>(endings: &Endings<W>) -> Option<u32>
    ensures none { IfNone result ((a : ℕ) → ends_in endings.now a ≡ None) }
    ensures some { IfSome result (IsFirstOpen (ends_in endings.now)) }
{
    endings.first()
}

/// Reads the table of a text. A text that is none is refused, and so is one of a table of which a block is left open.
pub(crate) fn read_closed<'a, 'b, D: NamedDomain>(
    alloc: Global,
    domain: &D,
    it: &Subject<'a>,
    base: BaseName,
    bytes: &[u8],
) -> Result<Table<D::Element>, Halt<'b>>
    requires made { IsTrue (D.is_for domain.now (specification it.now.spec.now)) }
    requires states { has_states (specification it.now.spec.now) ≡ true }
    requires short { length bytes.now < 2 ^ 32 }
    ensures table { IfOk result (λ t. IsTableIn (D.Reads domain.now) (D.word_in domain.now) (specification it.now.spec.now) (base_text base) it.now.image.now bytes.now (listings (λ x. x) t)) }
    ensures refused { IfErr result (Stops (OwnRefuses (record { base = D.B.algebra; cap = D.B.CAP; elements = D.elements domain.now; meaning = D.meaning domain.now; pieces = D.pieces domain.now; view = D.view; IsText = D.IsText; Reads = D.Reads domain.now; word_in = D.word_in domain.now; word_text = D.word_text }) (specification it.now.spec.now) it.now.image.now (base_text base) bytes.now)) }
    ensures fits { IfOk result (λ t. BlocksFit (is_word_of it.now.image.now) (λ x. (D.elements domain.now).fits (D.view x)) (listings (λ x. x) t)) }
{
    let OpenTable { table, endings } = read_table::<D>(
        alloc, domain, it.spec, it.image, base, bytes,
    )?;
    if let Some(at) = first_open(&endings) {
        return Err(Halt::Refused(Refusal::Rejected(Rejection::Targets { at })));
    }
    Ok(table)
}
