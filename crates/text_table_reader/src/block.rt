//! Blocks.

ghost use Rattle.std.specs.Prelude.{◌≡◌, ◌<◌, ◌≤◌, IfOk, IfNone, IfSome, IsTrue, length, option_map};
ghost use Rattle.std.specs.Option.{option_and_then};
ghost use Rattle.spec_ir.specs.Views.{specification};
ghost use Rattle.domain_laws.specs.States.{state_type};
ghost use Rattle.text_words.specs.Reading as reading;
ghost use Rattle.fixpoint_theory.specs.Views.{listing};
ghost use Rattle.text_table_reader.specs.Blocks.{BlockRead};
ghost use Rattle.text_table_reader.specs.Starts as defined;
ghost use Rattle.text_table_reader.specs.Ends as ends;
ghost use Rattle.text_table_reader.specs.Ends.{is_word_of};
ghost use Rattle.text_table_reader.specs.Views.{end_of};

use crate::addresses::{read_exits, read_next};
use crate::endings::read_ending;
use crate::setting::Setting;
use crate::uses::read_uses;
use base_trait::{Base, Use};
use code_image::Image;
use fixpoint_open_tables::Ending;
use fixpoint_theory::Block;
use std::alloc::{AllocError as NoMemory, Global};
use text_element_readers::ReadElement;
use text_lines::LinesOf;
use text_words::{number_in, text_behind};

/// The address of a code word that a text is, at least so great.
fn address_in(image: &Image, low: u64, text: &[u8]) -> Option<u32>
    ensures { result ≡ defined.address_from (is_word_of image.now) low (reading.number_in 32 text.now) }
{
    let number = number_in(32, text)?;
    let at = number as u32;
    if low <= number && image.fetch(at).is_some() {
        Some(at)
    } else {
        None
    }
}

/// The address of a code word that a line names, at least so great.
fn at_said(image: &Image, low: u64, line: &[u8]) -> Option<u32>
    ensures { result ≡ defined.at_said (is_word_of image.now) low line.now }
{
    address_in(image, low, text_behind(b"at ", line)?)
}

/// Reads the address of a block, at least so great.
pub(crate) fn read_at(image: &Image, low: u64, lines: &mut LinesOf<'_>) -> Option<u32>
    ensures value { option_map (λ at. (at, lines.new)) result ≡ defined.read_at (is_word_of image.now) low lines.old }
    ensures kept { IfNone result (lines.new ≡ lines.old) }
    ensures shorter { IfSome result (λ at. length lines.new < length lines.old) }
{
    let (line, rest) = lines.next()?;
    let at = at_said(image, low, line)?;
    *lines = rest;
    Some(at)
}

/// What stands behind the element of a block.
#[derive(Drop)]
pub(crate) struct End {
    pub(crate) uses: Vec<Use>,
    pub(crate) next: Vec<u32>,
    pub(crate) exits: Vec<u32>,
}

/// Reads what stands behind an element.
pub(crate) fn read_end(
    alloc: Global,
    at: &Setting,
    lines: &mut LinesOf<'_>,
) -> Result<End, NoMemory>
    requires { at.now.fields.now ≡ (state_type (specification at.now.spec.now)).fields }
    ensures { IfOk result (λ r. end_of r lines.new ≡ ends.read_end (specification at.now.spec.now) (is_word_of at.now.image.now) lines.old) }
{
    let uses = read_uses(alloc, at, lines)?;
    let next = read_next(alloc, at.image, lines)?;
    let exits = read_exits(alloc, lines)?;
    Ok(End { uses, next, exits })
}

/// A block at its address, with its ending, if it has one.
#[derive(Drop)]
pub(crate) struct BlockAt<E, W> {
    pub(crate) address: u32,
    pub(crate) block: Block<E>,
    pub(crate) ending: Option<Ending<W>>,
}

/// Reads a block at an address that is at least so great.
pub(crate) fn read_block<D: ReadElement>(
    alloc: Global,
    domain: &D,
    at: &Setting,
    low: u64,
    lines: &mut LinesOf<'_>,
) -> Result<Option<BlockAt<D::Element, <D::B as Base>::Word>>, NoMemory>
    requires made { IsTrue (D.is_for domain.now (specification at.now.spec.now)) }
    requires fields { at.now.fields.now ≡ (state_type (specification at.now.spec.now)).fields }
    ensures block { IfOk result (λ r. BlockRead (D.Reads domain.now) (D.word_in domain.now) (specification at.now.spec.now)
        (is_word_of at.now.image.now) low lines.old (option_map (λ p. (p.address, listing (λ x. x) p.block)) r) (option_and_then (λ p. p.ending) r) lines.new) }
    ensures fits { IfOk result (λ r. IfSome r (λ p. IsTrue (is_word_of at.now.image.now p.address) × (D.elements domain.now).fits (D.view p.block.elem))) }
    ensures least { IfOk result (λ r. IfSome r (λ p. low ≤ p.address)) }
    ensures shorter { IfOk result (λ r. IfSome r (λ p. length lines.new < length lines.old)) }
{
    let Some(address) = read_at(at.image, low, lines) else {
        return Ok(None);
    };
    let Some(elem) = domain.read_element(alloc, at.spec, at.image, lines)? else {
        return Ok(None);
    };
    let end = read_end(alloc, at, lines)?;
    let ending = read_ending::<D>(alloc, domain, &end, lines)?;
    let End { uses, next, exits } = end;
    Ok(Some(BlockAt {
        address,
        block: Block {
            elem,
            next,
            exits,
            uses,
        },
        ending,
    }))
}
