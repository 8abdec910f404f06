//! Listings of code.

ghost use Rattle.std.specs.Prelude.{◌≡◌, ◌++◌, map, option_map, IfOk, OnOk};
ghost use Rattle.std.specs.Option.{option_copied};
ghost use Rattle.spec_ir.specs.declared.ty.Ty.TheVariants as ty;
ghost use Rattle.spec_ir.specs.Texts.{case_at};
ghost use Rattle.spec_ir.specs.Views.{case_of, specification};
ghost use Rattle.semantics_values.specs.Types.{environment_of};
ghost use Rattle.semantics_values.specs.Values.{vals};
ghost use Rattle.semantics_values.specs.Views.{val};
ghost use Rattle.code_image.specs.Decoders.{IsDecoderOf};
ghost use Rattle.code_image.specs.Image.{code_at};
ghost use Rattle.code_image.specs.Listing as listing;

use crate::decoder::Decoder;
use crate::hex::push_hex;
use crate::image::Image;
use semantics_values::Value;
use spec_ir::{Case, Spec, Ty};
use std::alloc::{AllocError, Global};
use syntax_lexer::Text;

/// Hex digits of an address, and of a word.
const WORD_DIGITS: u64 = 8;

/// The listing of an image: a line for each word, ascending by address, with the address, the word and the
/// instruction that it is, or `-`.
pub fn listing_text(
    alloc: Global,
    spec: &Spec,
    decoder: &Decoder,
    image: &Image,
) -> Result<Vec<u8>, AllocError>
    requires { IsDecoderOf (specification spec.now).rows decoder.now }
    ensures { IfOk result (λ r. r.items ≡ listing.listing (specification spec.now) image.now) }
{
    let addresses = image.addresses(alloc)?;
    let mut out = Vec::new(alloc);
    for address in &addresses {
        push_line(alloc, &mut out, spec, decoder, image, *address)?;
    }
    Ok(out)
}

/// Puts the line of an address behind others, where there is a word.
fn push_line(
    alloc: Global,
    out: &mut Vec<u8>,
    spec: &Spec,
    decoder: &Decoder,
    image: &Image,
    address: u32,
) -> Result<(), AllocError>
    requires { IsDecoderOf (specification spec.now).rows decoder.now }
    ensures { OnOk result (out.new.items ≡ out.old.items ++ listing.line_at (specification spec.now) address (code_at image.now address)) }
{
    let Some(word) = image.fetch(address) else {
        return Ok(());
    };
    push_hex(out, WORD_DIGITS, u64::from(address))?;
    push_text(out, " ")?;
    push_hex(out, WORD_DIGITS, u64::from(word))?;
    push_text(out, " ")?;
    let instruction = decoder.find(alloc, spec, word)?;
    push_instruction(out, spec, instruction.as_ref())?;
    push_text(out, "\n")?;
    Ok(())
}

/// Puts a text behind others.
fn push_text(out: &mut Vec<u8>, text: &str) -> Result<(), AllocError>
    ensures { OnOk result (out.new.items ≡ out.old.items ++ text.now) }
{
    out.extend_from_slice(text.as_bytes())
}

/// Puts the text of an instruction behind others, or that of a word that is none.
fn push_instruction(
    out: &mut Vec<u8>,
    spec: &Spec,
    instruction: Option<&Value>,
) -> Result<(), AllocError>
    ensures { OnOk result (out.new.items ≡ out.old.items ++ listing.instruction_text (environment_of (specification spec.now))
        (option_map (λ v. val v.now) instruction.entry)) }
{
    match instruction {
        None => push_text(out, "-"),
        Some(Value::Made { ty, case, parts }) => match case_of(spec, *ty, *case) {
            Some(case) => {
                push_text(out, case.name.as_str())?;
                push_fields(out, &case.fields, parts)
            }
            None => Ok(()),
        },
        Some(_) => Ok(()),
    }
}

/// A constructor by its numbers, where it is there.
fn case_of(spec: &Spec, number: u32, case: u32) -> Option<&Case>
    ensures { option_map case_of (option_copied result) ≡ case_at (environment_of (specification spec.now)) (ty.Data number) case }
{
    spec.datas.get(number as usize)?.cases.get(case as usize)
}

/// Puts the texts of fields behind others.
fn push_fields(out: &mut Vec<u8>, fields: &[(Text, Ty)], parts: &[Value]) -> Result<(), AllocError>
    ensures { OnOk result (out.new.items ≡ out.old.items ++ listing.field_texts fields.now (vals (map val parts.now))) }
{
    for i in 0..fields.len().min(parts.len()) {
        push_field(out, &fields[i].0, &parts[i])?;
    }
    Ok(())
}

/// Puts the text of a field behind others.
fn push_field(out: &mut Vec<u8>, name: &Text, part: &Value) -> Result<(), AllocError>
    ensures { OnOk result (out.new.items ≡ out.old.items ++ listing.field_text name.now (val part.now)) }
{
    let Value::Word { w, v } = part else {
        return Ok(());
    };
    push_text(out, " ")?;
    push_text(out, name.as_str())?;
    push_text(out, "=")?;
    push_hex(out, digits(*w), *v)
}

/// How many hex digits a word of w bits has.
fn digits(w: u32) -> u64
    ensures { result ≡ listing.digits_of w }
{
    (u64::from(w) + 3) / 4
}
