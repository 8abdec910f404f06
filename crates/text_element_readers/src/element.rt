//! The trait of domains whose elements are read, and each domain.

ghost use Rattle.std.specs.Prelude.{◌≡◌, ◌≤◌, IfOk, IfSome, IsOkAnd, IsTrue, OnOk, is_some, length, option_map, map, true};
ghost use Rattle.spec_ir.specs.Views.{specification};
ghost use Rattle.code_image.specs.Image.{code_at};
ghost use Rattle.abstract_value_laws.specs.Abs.{parts};
ghost use Rattle.domain_laws.specs.States.{has_states, state_type};
ghost use Rattle.abstract_value_laws.specs.Fits.{PartsFit};
ghost use Rattle.domain_laws.specs.Values.{FieldsFit};
ghost use Rattle.abstract_value.specs.View.{abs};
ghost use Rattle.text_element_readers.specs.Reading.{CellsRead, ElementReading};
ghost use Rattle.domain_product_states.specs.Views.{apart, seen};
ghost use Rattle.text_element_readers.specs.Words.{WordReading};

use crate::part::read_part;
use crate::words::affine_word;
use abstract_value::AbstractValue;
use base_product::Pair;
use base_trait::Base;
use code_image::Image;
use domain_affine::AffineDomain;
use domain_affine_base::{Tracked, Word};
use domain_cells::StateDomain;
use domain_product::PairDomain;
use domain_product_states::{PairedStates, PairedValues, of_parts};
use domain_trait::Domain;
use spec_ir::Spec;
use std::alloc::{AllocError as NoMemory, Global};
use support_modular_rows::Rows;
use text_elements::{NamedBase, WriteElement};
use text_lines::LinesOf;
use text_part_readers::{cut, read_cells, read_rows};

/// A domain whose elements are read back from their texts.
pub trait ReadElement: WriteElement {
    /// What is read of lines.
    ghost Reads: { Self → ElementReading Self.Element };

    /// What is read of a text as a word of 32 bits of its state values.
    ghost word_in: { Self → WordReading Self.B.Word };

    /// The element that the next lines are; none, where one of them is faulty, which is then the first that is left.
    fn read_element(
        &self,
        alloc: Global,
        spec: &Spec,
        image: &Image,
        lines: &mut LinesOf<'_>,
    ) -> Result<Option<Self::Element>, NoMemory>
        requires made { IsTrue (Self.is_for self.now (specification spec.now)) }
        ensures reads { IfOk result (λ r. Reads self.now (specification spec.now) (λ a. is_some (code_at image.now a)) lines.old r lines.new) }
        ensures fits { IfOk result (λ r. IfSome r (λ x. (Self.elements self.now).fits (Self.view x))) }
        ensures shorter { OnOk result (length lines.new ≤ length lines.old) };

    /// The word of 32 bits that a text is, of its state values; none, where it is not the text of one.
    fn read_word(
        &self,
        alloc: Global,
        text: &[u8],
    ) -> Result<Option<<Self::B as Base>::Word>, NoMemory>
        ensures { IfOk result (λ r. r ≡ word_in self.now text.now) };
}

impl<B: NamedBase> ReadElement for StateDomain<B> {
    ghost use Rattle.text_element_readers.specs.Words.{cells_word};

    ghost Reads = { λ it spec code ls r rest. CellsRead B.readings B.CAP B.named spec code ls (option_map (λ x. parts (map abs x.items)) r) rest };

    ghost word_in = { λ _. cells_word B.readings };

    fn read_element(
        &self,
        alloc: Global,
        spec: &Spec,
        image: &Image,
        lines: &mut LinesOf<'_>,
    ) -> Result<Option<Vec<AbstractValue<B>>>, NoMemory> {
        if !read_part(B::name(), lines) {
            return Ok(None);
        }
        let ctx = self.ctx(alloc)?;
        read_cells::<B>(alloc, &ctx, spec, image, lines)
    }

    fn read_word(&self, alloc: Global, text: &[u8]) -> Result<Option<B::Word>, NoMemory> {
        B::word_in(alloc, 32, text)
    }
}

/// The values that the next lines are, behind the line that names their base.
fn read_named<B: NamedBase>(
    alloc: Global,
    ctx: &B::Ctx,
    spec: &Spec,
    image: &Image,
    lines: &mut LinesOf<'_>,
) -> Result<Option<Vec<AbstractValue<B>>>, NoMemory>
    requires states { has_states (specification spec.now) ≡ true }
    ensures reads { IfOk result (λ r. CellsRead B.readings B.CAP B.named (specification spec.now) (λ a. is_some (code_at image.now a)) lines.old (option_map (λ x. parts (map abs x.items)) r) lines.new) }
    ensures fits { IfOk result (λ r. IfSome r (λ x. FieldsFit B.algebra ctx.now B.CAP (state_type (specification spec.now)).fields (parts (map abs x.items)))) }
    ensures shorter { OnOk result (length lines.new ≤ length lines.old) }
{
    if !read_part(B::name(), lines) {
        return Ok(None);
    }
    read_cells::<B>(alloc, ctx, spec, image, lines)
}

/// Two parts, if there are both.
fn both_parts<A: Base, B: Base>(
    alloc: Global,
    ctx: &Pair<A::Ctx, B::Ctx>,
    xs: Vec<AbstractValue<A>>,
    second: Result<Option<Vec<AbstractValue<B>>>, NoMemory>,
) -> Result<Option<PairedValues<A, B>>, NoMemory>
    requires first { PartsFit A.algebra ctx.now.0 A.CAP (parts (map abs xs.items)) }
    requires second { IfOk second (λ r. IfSome r (λ ys. PartsFit B.algebra ctx.now.1 B.CAP (parts (map abs ys.items)))) }
    ensures { IfOk result (λ r. IsOkAnd second (λ ys. option_map (λ z. seen z) r ≡ option_map (λ y. apart xs.items y.items) ys)) }
{
    match second? {
        Some(ys) => Ok(Some(of_parts(alloc, ctx, xs, ys)?)),
        None => Ok(None),
    }
}

/// How many cells are tracked.
fn cell_count(tracked: &Tracked) -> u32
    ensures value { result ≡ length tracked.now }
    ensures few { result ≤ 64 }
{
    tracked.cells.len() as u32
}

impl ReadElement for AffineDomain {
    ghost use Rattle.domain_affine_laws.specs.Calls.{cell_count};
    ghost use Rattle.text_element_readers.specs.Reading.{AffineRead};
    ghost use Rattle.text_element_readers.specs.Words.{affine_word};

    ghost Reads = { λ it. AffineRead (cell_count it) };

    ghost word_in = { λ it. affine_word (cell_count it) };

    fn read_element(
        &self,
        alloc: Global,
        _spec: &Spec,
        _image: &Image,
        lines: &mut LinesOf<'_>,
    ) -> Result<Option<Rows>, NoMemory> {
        if !read_part("affine", lines) {
            return Ok(None);
        }
        let k = cell_count(&self.ctx(alloc)?);
        Ok(Some(read_rows(alloc, k, lines)?))
    }

    fn read_word(&self, alloc: Global, text: &[u8]) -> Result<Option<Word>, NoMemory> {
        let tracked = self.ctx(alloc)?;
        affine_word(alloc, cell_count(&tracked), text)
    }
}

impl<A: ReadElement, B: ReadElement> ReadElement for PairDomain<A, B> {
    ghost use Rattle.text_element_readers.specs.Reading.{PairRead};
    ghost use Rattle.text_element_readers.specs.Words.{pair_word};

    ghost Reads = { λ it. PairRead (A.Reads it.first) (B.Reads it.second) };

    ghost word_in = { λ it. pair_word (A.word_in it.first) (B.word_in it.second) };

    fn read_element(
        &self,
        alloc: Global,
        spec: &Spec,
        image: &Image,
        lines: &mut LinesOf<'_>,
    ) -> Result<Option<(A::Element, B::Element)>, NoMemory> {
        match self.first.read_element(alloc, spec, image, lines)? {
            Some(x) => with_second_part(x, self.second.read_element(alloc, spec, image, lines)),
            None => Ok(None),
        }
    }

    fn read_word(
        &self,
        alloc: Global,
        text: &[u8],
    ) -> Result<Option<Pair<<A::B as Base>::Word, <B::B as Base>::Word>>, NoMemory> {
        let Some((first, second)) = cut(b' ', text) else {
            return Ok(None);
        };
        match self.first.read_word(alloc, first)? {
            Some(x) => with_second_word(x, self.second.read_word(alloc, second)),
            None => Ok(None),
        }
    }
}

impl<A: NamedBase, B: NamedBase> ReadElement for PairedStates<A, B> {
    ghost use Rattle.text_element_readers.specs.Reading.{PairRead};
    ghost use Rattle.text_element_readers.specs.Words.{cells_word, pair_word};

    ghost Reads = { λ it spec code ls r rest. PairRead (CellsRead A.readings A.CAP A.named) (CellsRead B.readings B.CAP B.named) spec code ls (option_map (λ z. seen z) r) rest };

    ghost word_in = { λ _. pair_word (cells_word A.readings) (cells_word B.readings) };

    fn read_element(
        &self,
        alloc: Global,
        spec: &Spec,
        image: &Image,
        lines: &mut LinesOf<'_>,
    ) -> Result<Option<PairedValues<A, B>>, NoMemory> {
        let ctx = self.states.shared();
        match read_named::<A>(alloc, &ctx.0, spec, image, lines)? {
            Some(xs) => {
                let second = read_named::<B>(alloc, &ctx.1, spec, image, lines);
                both_parts(alloc, ctx, xs, second)
            }
            None => Ok(None),
        }
    }

    fn read_word(
        &self,
        alloc: Global,
        text: &[u8],
    ) -> Result<Option<Pair<A::Word, B::Word>>, NoMemory> {
        let Some((first, second)) = cut(b' ', text) else {
            return Ok(None);
        };
        match A::word_in(alloc, 32, first)? {
            Some(x) => with_second_word(x, B::word_in(alloc, 32, second)),
            None => Ok(None),
        }
    }
}

/// A first part with what was read behind it.
fn with_second_part<A: Drop, B: Drop>(
    x: A,
    second: Result<Option<B>, NoMemory>,
) -> Result<Option<(A, B)>, NoMemory>
    ensures { IfOk result (λ r. IsOkAnd second (λ y. r ≡ option_map (λ b. (x, b)) y)) }
{
    match second? {
        Some(y) => Ok(Some((x, y))),
        None => Ok(None),
    }
}

/// A first word with what was read behind it.
fn with_second_word<A: Drop, B: Drop>(
    x: A,
    second: Result<Option<B>, NoMemory>,
) -> Result<Option<Pair<A, B>>, NoMemory>
    ensures { IfOk result (λ r. IsOkAnd second (λ y. r ≡ option_map (λ b. (x, b)) y)) }
{
    match second? {
        Some(y) => Ok(Some(Pair(x, y))),
        None => Ok(None),
    }
}
