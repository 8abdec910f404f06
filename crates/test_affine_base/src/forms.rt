//! Affine forms as text.

ghost use Rattle.std.specs.Prelude.{IfOk, length};
ghost use Rattle.domain_affine_base.specs.Words.{Fits};

use domain_affine_base::{Affine, Tracked, Word};
use std::alloc::{AllocError, Global};
use support_modular_rows::Form;
use test_case_lines::{Notation, Read, Unread, is_word, number};

/// A constant is written with its sign, `=5`, and a form by its numbers, the constant first: `5:1:ffffffff` is 5 + r - s.
/// They are in hex.
pub(crate) struct Forms;

impl Notation for Forms {
    type Of = Affine;

    fn word(alloc: Global, ctx: &Tracked, w: u32, text: &str) -> Read<Word> {
        if text == "any" {
            return Ok(Word::Any);
        }
        if text.contains(':') {
            return form(alloc, ctx, w, text);
        }
        match text.strip_prefix('=').and_then(|n| number(n)) {
            Some(n) if is_word(w, n) => Ok(Word::Const(n)),
            _ => Err(Unread::No),
        }
    }

    fn text(alloc: Global, _w: u32, x: &Word) -> Result<String, AllocError> {
        match x {
            Word::Any => format!(in alloc; "any"),
            Word::Const(n) => format!(in alloc; "={n:x}"),
            Word::Form(form) => numbers_text(alloc, &form.c),
        }
    }
}

fn form(alloc: Global, ctx: &Tracked, w: u32, text: &str) -> Read<Word>
    ensures { IfOk result (λ x. Fits (length ctx.now) w x) }
{
    let mut c = Vec::new(alloc);
    for part in text.split(':') {
        let Ok(number) = u32::from_str_radix(part, 16) else {
            return Err(Unread::No);
        };
        c.push(number)?;
    }
    if w == 32 && c.len() == ctx.cells.len() + 1 {
        Ok(Word::of_form(Form { c }))
    } else {
        Err(Unread::No)
    }
}

/// The numbers, with colons between them.
fn numbers_text(alloc: Global, numbers: &[u32]) -> Result<String, AllocError> {
    let mut text = String::new(alloc);
    for i in 0..numbers.len() {
        if i > 0 {
            text.push(':')?;
        }
        write!(text, "{:x}", numbers[i])?;
    }
    Ok(text)
}
