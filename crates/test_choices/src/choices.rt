//! The cells that instructions cut, as text.

ghost use Rattle.spec_ir.specs.Views.{specification};
ghost use Rattle.code_image.specs.Decoders.{IsDecoderOf};

use analysis_choices::{CellCuts, choices_of};
use code_image::Decoder;
use semantics_values::KeyAt;
use spec_checker::{SpecUse, check};
use spec_ir::{Machine, Spec};
use std::alloc::{AllocError, Global};
use syntax_lexer::lex;
use syntax_parser::parse;

/// What the case of a line gives, a line for each of its words.
pub(crate) fn found(alloc: Global, line: &str) -> Result<String, AllocError> {
    let Some((name, words)) = line.split_once(' ') else {
        return format!(in alloc; "no case");
    };
    match name {
        "ppc" => told(alloc, program_spec_powerpc::text(), words),
        "rv" => told(alloc, program_spec_riscv::text(), words),
        _ => format!(in alloc; "no case"),
    }
}

/// The lines of words by a specification.
fn told(alloc: Global, source: &str, words: &str) -> Result<String, AllocError> {
    let Some(spec) = specification(alloc, source.as_bytes()) else {
        return format!(in alloc; "no specification");
    };
    let Some(machine) = spec.machine else {
        return format!(in alloc; "no machine");
    };
    let decoder = Decoder::new(alloc, &spec)?;
    let mut out = String::new(alloc);
    for word in words.split(' ') {
        if !out.is_empty() {
            out.push('\n')?;
        }
        let line = line_of(alloc, &spec, machine, &decoder, word)?;
        out.push_str(&line)?;
    }
    Ok(out)
}

/// The specification of a source that has no fault.
fn specification(alloc: Global, source: &[u8]) -> Option<Spec> {
    if source.len() > 262_144 {
        return None;
    }
    let tokens = lex(alloc, source).ok()?;
    let tree = parse(alloc, &tokens, source.len() as u32).ok()?;
    check(alloc, &tree, SpecUse::Machine).ok()
}

/// The line of a word: the cells that its instruction cuts.
fn line_of(
    alloc: Global,
    spec: &Spec,
    machine: Machine,
    decoder: &Decoder,
    word: &str,
) -> Result<String, AllocError>
    requires { IsDecoderOf (specification spec.now).rows decoder.now }
{
    let Ok(code_word) = u32::from_str_radix(word, 16) else {
        return format!(in alloc; "no word");
    };
    let Some(instruction) = decoder.find(alloc, spec, code_word)? else {
        return format!(in alloc; "{word} is no instruction");
    };
    let choices = choices_of(alloc, spec, machine, &instruction)?;
    let mut out = format!(in alloc; "{word}")?;
    for choice in &choices {
        push_choice(&mut out, choice)?;
    }
    Ok(out)
}

/// Adds a cell and the numbers at which it is cut.
fn push_choice(out: &mut String, choice: &CellCuts) -> Result<(), AllocError> {
    match choice.key {
        KeyAt::At(key) => write!(out, " {}[{key}]", choice.place)?,
        _ => write!(out, " {}", choice.place)?,
    }
    let mut mark = " at ";
    for cut in &choice.cuts {
        write!(out, "{mark}{cut:x}")?;
        mark = ",";
    }
    Ok(())
}
