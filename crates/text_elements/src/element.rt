//! The trait of domains whose elements have texts, and each domain.

ghost use Rattle.std.specs.Prelude.{◌≡◌, ℕ, ◌++◌, List, OnOk, map};
ghost use Rattle.std.specs.String.{string_bytes};
ghost use Rattle.spec_ir.specs.Views.{specification};
ghost use Rattle.abstract_value_laws.specs.Abs.{parts};
ghost use Rattle.abstract_value.specs.View.{abs};
ghost use Rattle.domain_product_laws.specs.Calls.{mapped_parts};
ghost use Rattle.domain_product_states.specs.Parts.{first_parts, second_parts};
ghost use Rattle.text_elements.specs.Parts.{Appended, ElementText, named_cells, part_line};

use crate::cells::push_cells;
use crate::named::NamedBase;
use crate::part_cells::push_cells_part;
use crate::rows::push_rows;
use abstract_value::AbstractValue;
use base_product::{Pair, Paired};
use base_trait::Base;
use domain_affine::AffineDomain;
use domain_affine_base::{Affine, Word};
use domain_cells::StateDomain;
use domain_product::PairDomain;
use domain_product_maps::{First, ProductPart, Second};
use domain_product_states::{Both, PairedStates, PairedValues};
use domain_trait::Domain;
use spec_ir::Spec;
use std::alloc::AllocError as NoMemory;
use support_modular_rows::Rows;
use text_words::BaseText;

/// A domain whose elements have texts. After an error of its calls nothing is said of what was appended; `append_element` and `append_word` leave
/// what stood there.
pub trait WriteElement: Domain {
    /// Which bytes are a text of an element, for the states of a specification.
    ghost IsText: { ElementText Self.Element };

    /// The text of a word of its state values, of a width in bits.
    ghost word_text: { ℕ → Self.B.Word → List ℕ };

    /// Appends a text of an element.
    fn push_element(out: &mut String, spec: &Spec, x: &Self::Element) -> Result<(), NoMemory>
        ensures { OnOk result (Appended (IsText (specification spec.now) x.now) (string_bytes out.old) (string_bytes out.new)) };

    /// Appends a word of a width in bits.
    fn push_word(out: &mut String, w: u32, x: &<Self::B as Base>::Word) -> Result<(), NoMemory>
        ensures { OnOk result (string_bytes out.new ≡ string_bytes out.old ++ word_text w x.now) };
}

/// Appends the line that names the base of a part.
fn push_part(out: &mut String, name: &str) -> Result<(), NoMemory>
    ensures { OnOk result (string_bytes out.new ≡ string_bytes out.old ++ part_line name.now) }
{
    out.push_str("part ")?;
    out.push_str(name)?;
    out.push_str("\n")
}

/// Appends the text of cells, behind the line that names their base.
fn push_named<B: NamedBase>(
    out: &mut String,
    spec: &Spec,
    values: &[AbstractValue<B>],
) -> Result<(), NoMemory>
    ensures { OnOk result (string_bytes out.new ≡ string_bytes out.old ++ named_cells B.named B.texts (specification spec.now) (parts (map abs values.now))) }
{
    push_part(out, B::name())?;
    push_cells::<B>(out, spec, values)
}

/// Appends the text of a part of cells over a pair, behind the line that names its base.
fn push_named_part<P: ProductPart>(
    out: &mut String,
    spec: &Spec,
    values: &[AbstractValue<P::From>],
) -> Result<(), NoMemory>
where
    P::To: NamedBase,
    ensures { OnOk result (string_bytes out.new ≡ string_bytes out.old ++ named_cells P.To.named P.To.texts (specification spec.now) (mapped_parts P.word_of P.note_of (parts (map abs values.now)))) }
{
    push_part(out, <P::To as NamedBase>::name())?;
    push_cells_part::<P>(out, spec, values)
}

/// Appends the texts of both parts of cells over a pair.
fn push_together<A: NamedBase, B: NamedBase>(
    out: &mut String,
    spec: &Spec,
    values: &[AbstractValue<Paired<A, B>>],
) -> Result<(), NoMemory>
    ensures { OnOk result (string_bytes out.new ≡ string_bytes out.old ++ (named_cells A.named A.texts (specification spec.now) (first_parts (parts (map abs values.now))) ++ named_cells B.named B.texts (specification spec.now) (second_parts (parts (map abs values.now))))) }
{
    push_named_part::<First<A, B>>(out, spec, values)?;
    push_named_part::<Second<A, B>>(out, spec, values)
}

/// Appends the texts of cells over each of two bases.
fn push_apart<A: NamedBase, B: NamedBase>(
    out: &mut String,
    spec: &Spec,
    xs: &[AbstractValue<A>],
    ys: &[AbstractValue<B>],
) -> Result<(), NoMemory>
    ensures { OnOk result (string_bytes out.new ≡ string_bytes out.old ++ (named_cells A.named A.texts (specification spec.now) (parts (map abs xs.now)) ++ named_cells B.named B.texts (specification spec.now) (parts (map abs ys.now)))) }
{
    push_named::<A>(out, spec, xs)?;
    push_named::<B>(out, spec, ys)
}

impl<B: NamedBase> WriteElement for StateDomain<B> {
    ghost use Rattle.text_elements.specs.Parts.{CellsText};

    ghost IsText = { λ spec x. CellsText B.named B.texts spec (parts (map abs x.items)) };

    ghost word_text = { B.texts.word };

    fn push_element(
        out: &mut String,
        spec: &Spec,
        x: &Vec<AbstractValue<B>>,
    ) -> Result<(), NoMemory> {
        push_part(out, B::name())?;
        push_cells::<B>(out, spec, x)
    }

    fn push_word(out: &mut String, w: u32, x: &B::Word) -> Result<(), NoMemory> {
        B::push_word(out, w, x)
    }
}

impl WriteElement for AffineDomain {
    ghost use Rattle.text_words.specs.Words.{affine_text};
    ghost use Rattle.text_elements.specs.Parts.{AffineText};

    ghost IsText = { AffineText };

    ghost word_text = { affine_text };

    fn push_element(out: &mut String, _spec: &Spec, x: &Rows) -> Result<(), NoMemory> {
        push_part(out, "affine")?;
        push_rows(out, x)
    }

    fn push_word(out: &mut String, w: u32, x: &Word) -> Result<(), NoMemory> {
        Affine::push_word(out, w, x)
    }
}

impl<A: WriteElement, B: WriteElement> WriteElement for PairDomain<A, B> {
    ghost use Rattle.text_words.specs.Words.{pair_text};
    ghost use Rattle.text_elements.specs.Parts.{PairText};

    ghost IsText = { PairText A.IsText B.IsText };

    ghost word_text = { pair_text A.word_text B.word_text };

    fn push_element(
        out: &mut String,
        spec: &Spec,
        x: &(A::Element, B::Element),
    ) -> Result<(), NoMemory> {
        A::push_element(out, spec, &x.0)?;
        B::push_element(out, spec, &x.1)
    }

    /// Both parts.
    fn push_word(
        out: &mut String,
        w: u32,
        x: &Pair<<A::B as Base>::Word, <B::B as Base>::Word>,
    ) -> Result<(), NoMemory> {
        A::push_word(out, w, &x.0)?;
        out.push_str(" ")?;
        B::push_word(out, w, &x.1)
    }
}

impl<A: NamedBase, B: NamedBase> WriteElement for PairedStates<A, B> {
    ghost use Rattle.text_words.specs.Words.{pair_text};
    ghost use Rattle.text_elements.specs.Parts.{CellsText, PairText};
    ghost use Rattle.domain_product_states.specs.Views.{seen};

    ghost IsText = { λ spec x. PairText (CellsText A.named A.texts) (CellsText B.named B.texts) spec (seen x) };

    ghost word_text = { pair_text A.texts.word B.texts.word };

    fn push_element(out: &mut String, spec: &Spec, x: &PairedValues<A, B>) -> Result<(), NoMemory> {
        match x {
            Both::Together(values) => push_together::<A, B>(out, spec, values),
            Both::Apart(xs, ys) => push_apart::<A, B>(out, spec, xs, ys),
        }
    }

    /// Both parts.
    fn push_word(out: &mut String, w: u32, x: &Pair<A::Word, B::Word>) -> Result<(), NoMemory> {
        A::push_word(out, w, &x.0)?;
        out.push_str(" ")?;
        B::push_word(out, w, &x.1)
    }
}
