//! What callers append: a text is made apart, so that where memory runs out, what stood there stays.

ghost use Rattle.std.specs.Prelude.{◌≡◌, ◌++◌, OnErr, OnOk};
ghost use Rattle.std.specs.String.{string_bytes};
ghost use Rattle.spec_ir.specs.Views.{specification};
ghost use Rattle.text_elements.specs.Parts.{Appended};

use crate::element::WriteElement;
use base_trait::Base;
use domain_trait::Domain;
use spec_ir::Spec;
use std::alloc::AllocError as NoMemory;

/// Appends a text of an element.
pub fn append_element<D: WriteElement>(
    out: &mut String,
    spec: &Spec,
    x: &D::Element,
) -> Result<(), NoMemory>
    ensures text { OnOk result (Appended (D.IsText (specification spec.now) x.now) (string_bytes out.old) (string_bytes out.new)) }
    ensures kept { OnErr result (string_bytes out.new ≡ string_bytes out.old) }
{
    let mut text = String::new(*out.allocator());
    D::push_element(&mut text, spec, x)?;
    out.push_str(&text)
}

/// Appends a word of a width in bits.
pub fn append_word<D: WriteElement>(
    out: &mut String,
    w: u32,
    x: &<D::B as Base>::Word,
) -> Result<(), NoMemory>
    ensures text { OnOk result (string_bytes out.new ≡ string_bytes out.old ++ D.word_text w x.now) }
    ensures kept { OnErr result (string_bytes out.new ≡ string_bytes out.old) }
{
    let mut text = String::new(*out.allocator());
    D::push_word(&mut text, w, x)?;
    out.push_str(&text)
}
