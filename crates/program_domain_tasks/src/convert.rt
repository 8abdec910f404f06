//! A table that is written anew, in a domain.

ghost use Rattle.std.specs.Prelude.{◌≡◌, ◌<◌, ◌^◌, IsTrue, length};
ghost use Rattle.support_command_line.specs.Bases.{base_text};
ghost use Rattle.spec_ir.specs.Views.{specification};
ghost use Rattle.program_common.specs.Outcomes.{Gives, answer_of};
ghost use Rattle.program_domain_tasks.specs.Own.{OwnRewrites};
ghost use Rattle.program_domain_tasks.specs.Read.{IsMachine};

use crate::table::open_table_answer;
use crate::task::Subject;
use program_common::{Answer, Halt};
use program_domains::NamedDomain;
use std::alloc::Global;
use support_command_line::BaseName;
use text_table_reader::{OpenTable, read_table};

/// What a text is written as in a domain that was made for the specification.
pub fn convert_in_domain<'a, 'b, D: NamedDomain>(
    alloc: Global,
    domain: &D,
    it: &Subject<'a>,
    base: BaseName,
    bytes: &[u8],
) -> Result<Answer, Halt<'b>>
    requires made { IsTrue (D.is_for domain.now (specification it.now.spec.now)) }
    requires machine { IsMachine (specification it.now.spec.now) }
    requires short { length bytes.now < 2 ^ 32 }
    ensures { Gives (OwnRewrites (record { base = D.B.algebra; cap = D.B.CAP; elements = D.elements domain.now; meaning = D.meaning domain.now; pieces = D.pieces domain.now; view = D.view; IsText = D.IsText; Reads = D.Reads domain.now; word_in = D.word_in domain.now; word_text = D.word_text }) (specification it.now.spec.now) it.now.image.now (base_text base) bytes.now) answer_of result }
{
    let OpenTable { table, endings } = read_table::<D>(
        alloc, domain, it.spec, it.image, base, bytes,
    )?;
    Ok(open_table_answer::<D>(alloc, it.spec, it.image, base, &table, &endings)?)
}
