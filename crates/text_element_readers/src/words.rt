//! Affine words of 32 bits.

ghost use Rattle.std.specs.Prelude.{◌≡◌, ◌≤◌, IfOk, option_map};
ghost use Rattle.domain_affine_base.specs.declared.word.Word.TheVariants.{Const};
ghost use Rattle.text_words.specs.Reading as reading;
ghost use Rattle.text_element_readers.specs.Words as defined;

use domain_affine_base::Word;
use state_cell_text::same;
use std::alloc::{AllocError as NoMemory, Global};
use support_lists::pushed;
use support_modular_rows::Form;
use text_words::{number_in, text_behind};

/// A number of 32 bits in front, and what stands behind it.
#[tactic(auto, using(std::proofs::lemmas::List::take_min, std::proofs::lemmas::List::drop_min))]
fn first_number(text: &[u8]) -> Option<(u32, &[u8])>
    ensures { option_map (λ p. (p.0, p.1.now)) result ≡ defined.first_number text.now }
{
    let digits: usize = 8;
    let (front, rest) = text.split_at(digits.min(text.len()));
    let number = number_in(32, front)?;
    Some((number as u32, rest))
}

/// Such a number behind a comma.
fn behind_comma(text: &[u8]) -> Option<(u32, &[u8])>
    ensures { option_map (λ p. (p.0, p.1.now)) result ≡ defined.behind_comma text.now }
{
    first_number(text_behind(b",", text)?)
}

/// The numbers of a form over k cells, with commas between.
fn form_in(alloc: Global, k: u32, text: &[u8]) -> Result<Option<Vec<u32>>, NoMemory>
    requires { k ≤ 64 }
    ensures { IfOk result (λ r. option_map (λ xs. xs.items) r ≡ defined.form_in k text.now) }
{
    let Some((constant, mut rest)) = first_number(text) else {
        return Ok(None);
    };
    let mut form = Vec::with_capacity(alloc, k as usize + 1)?;
    form = pushed(form, Ok(constant))?;
    for _i in 0..k {
        let Some((number, others)) = behind_comma(rest) else {
            return Ok(None);
        };
        form = pushed(form, Ok(number))?;
        rest = others;
    }
    if rest.is_empty() {
        Ok(Some(form))
    } else {
        Ok(None)
    }
}

/// The constant that a text is.
fn constant_in(text: &[u8]) -> Option<Word>
    ensures { result ≡ option_map Const (reading.number_in 32 text.now) }
{
    match number_in(32, text) {
        Some(number) => Some(Word::Const(number)),
        None => None,
    }
}

/// A word that is a form.
fn as_form(word: Word) -> Option<Word>
    ensures { result ≡ defined.as_form word }
{
    match word {
        Word::Form(form) => Some(Word::Form(form)),
        _ => None,
    }
}

/// The affine word over k cells that a text is.
pub(crate) fn affine_word(alloc: Global, k: u32, text: &[u8]) -> Result<Option<Word>, NoMemory>
    requires { k ≤ 64 }
    ensures { IfOk result (λ r. r ≡ defined.affine_word k text.now) }
{
    if same(text, b"any") {
        return Ok(Some(Word::Any));
    }
    if text.len() == 8 {
        return Ok(constant_in(text));
    }
    match form_in(alloc, k, text)? {
        Some(c) => Ok(as_form(Word::of_form(Form { c }))),
        None => Ok(None),
    }
}
