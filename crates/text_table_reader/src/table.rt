//! Tables.

ghost use Rattle.std.specs.Prelude.{◌≡◌, ◌⊎◌, ◌+◌, ◌-◌, ◌<◌, ◌^◌, IfErr, IfOk, IfSome, IsTrue, length, option_map, true};
ghost use Rattle.spec_ir.specs.Views.{specification};
ghost use Rattle.domain_laws.specs.States.{has_states, state_type};
ghost use Rattle.support_command_line.specs.Bases.{base_text};
ghost use Rattle.text_lines.specs.Lines.{lines};
ghost use Rattle.fixpoint_theory.specs.Views.{listings};
ghost use Rattle.fixpoint_open_tables.specs.Endings.{ends_in};
ghost use Rattle.text_table_reader.specs.Blocks.{AreReadAs, BlocksFit};
ghost use Rattle.text_table_reader.specs.Ends.{is_word_of};
ghost use Rattle.text_table_reader.specs.Tables.{IsErrorIn, IsOpenTableIn, error_at};

use crate::block::{BlockAt, read_block};
use crate::head::{HeadStop, Rule, read_head};
use crate::setting::Setting;
use base_trait::Base;
use code_image::Image;
use domain_cells::fields_of;
use fixpoint_open_tables::{Endings, add_ending};
use fixpoint_theory::Table;
use fixpoint_worklist::put_block;
use spec_ir::Spec;
use std::alloc::{AllocError as NoMemory, Global};
use std::collections::BTreeMap;
use support_command_line::BaseName;
use text_element_readers::ReadElement;
use text_faults::TableError;
use text_lines::{LinesOf, count_lines};

/// A table that is read, and how the blocks end that are left open.
#[derive(Drop)]
pub struct OpenTable<E, W> {
    pub table: Table<E>,
    /// By the addresses of the blocks; a block that is not left open has none.
    pub endings: Endings<W>,
}

/// Reads the blocks of a table to the end of the text.
fn read_blocks<D: ReadElement>(
    alloc: Global,
    domain: &D,
    at: &Setting,
    lines: &mut LinesOf<'_>,
) -> Result<Option<OpenTable<D::Element, <D::B as Base>::Word>>, NoMemory>
    requires made { IsTrue (D.is_for domain.now (specification at.now.spec.now)) }
    requires fields { at.now.fields.now ≡ (state_type (specification at.now.spec.now)).fields }
    ensures read { IfOk result (λ r. AreReadAs (D.Reads domain.now) (D.word_in domain.now) (specification at.now.spec.now)
        (is_word_of at.now.image.now) lines.old (option_map (λ t. (listings (λ x. x) t.table, ends_in t.endings)) r) lines.new) }
    ensures fits { IfOk result (λ r. IfSome r (λ t. BlocksFit (is_word_of at.now.image.now) (λ x. (D.elements domain.now).fits (D.view x))
        (listings (λ x. x) t.table))) }
{
    let mut blocks = BTreeMap::new(alloc);
    let mut endings = Endings::new(alloc);
    let mut low = 0;
    'lines: while !lines.is_done() {
        match read_block(alloc, domain, at, low, lines) {
            Ok(Some(found)) => {
                let BlockAt {
                    address,
                    block,
                    ending,
                } = found;
                put_block(&mut blocks, address, block)?;
                add_ending(&mut endings, address, ending)?;
                low = u64::from(address) + 1;
            }
            Ok(None) => {
                drop(blocks);
                drop(endings);
                return Ok(None);
            }
            Err(error) => {
                drop(blocks);
                drop(endings);
                return Err(error);
            }
        }
    }
    Ok(Some(OpenTable {
        table: Table { blocks },
        endings,
    }))
}

/// The error of a faulty line, where so many lines are left, the faulty one among them.
#[tactic(auto, using(crate::proofs::LineCounts::few_lines))]
fn error_in(bytes: &[u8], rule: Rule, left: u64) -> TableError
    requires { length bytes.now < 2 ^ 32 }
    ensures { result ≡ error_at (1 + (length (lines bytes.now) - left)) rule }
{
    let line = 1 + count_lines(bytes).saturating_sub(left);
    match rule {
        Rule::Form => TableError::Form { line },
        Rule::Base => TableError::Base,
        Rule::Code => TableError::Code { line },
    }
}

/// Reads the table of a text, over a base and of an image, with the endings of its blocks that are left open. Where the text is none, its
/// first faulty line is refused.
pub fn read_table<D: ReadElement>(
    alloc: Global,
    domain: &D,
    spec: &Spec,
    image: &Image,
    base: BaseName,
    bytes: &[u8],
) -> Result<OpenTable<D::Element, <D::B as Base>::Word>, TableError>
    requires made { IsTrue (D.is_for domain.now (specification spec.now)) }
    requires states { has_states (specification spec.now) ≡ true }
    requires short { length bytes.now < 2 ^ 32 }
    ensures table { IfOk result (λ r. IsOpenTableIn (D.Reads domain.now) (D.word_in domain.now) (specification spec.now) (base_text base) image.now
        bytes.now (listings (λ x. x) r.table) (ends_in r.endings)) }
    ensures error { IfErr result (λ e. (e ≡ TableError.NoMemory) ⊎ IsErrorIn (D.Reads domain.now) (D.word_in domain.now) (specification spec.now)
        (base_text base) image.now bytes.now e) }
    ensures fits { IfOk result (λ r. BlocksFit (is_word_of image.now) (λ x. (D.elements domain.now).fits (D.view x)) (listings (λ x. x) r.table)) }
{
    let rest = match read_head(alloc, base.name(), image, bytes) {
        Ok(rest) => rest,
        Err(HeadStop::At { rule, left }) => return Err(error_in(bytes, rule, count_lines(left))),
        Err(HeadStop::NoMemory) => return Err(TableError::NoMemory),
    };
    let fields = fields_of(alloc, spec)?;
    let at = Setting {
        spec,
        fields: &fields,
        image,
    };
    let mut left = LinesOf::new(rest);
    match read_blocks(alloc, domain, &at, &mut left)? {
        Some(table) => Ok(table),
        None => Err(error_in(bytes, Rule::Form, left.count() as u64)),
    }
}
