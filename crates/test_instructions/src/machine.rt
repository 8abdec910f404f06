//! The machine of an instruction set, and its steps.

ghost use Rattle.std.specs.Prelude.{◌≤◌, IfOk, IfSome, IsSome, length};
ghost use Rattle.spec_ir.specs.Views.{specification};
ghost use Rattle.semantics_values.specs.Views.{state};
ghost use Rattle.semantics_laws.specs.Accepted.{IsAccepted};
ghost use Rattle.code_image.specs.Decoders.{IsDecoderOf};
ghost use Rattle.concrete_emulator.specs.Ends.{IsStateOf};

use crate::error::CaseError;
use code_image::{Decoder, Image, Order, Segment};
use concrete_emulator::{EmulatedRun, Stop, emulate};
use semantics_values::State;
use spec_checker::{Spec, SpecUse, check};
use state_text::{EntryError, one_state, read_entry, state_text};
use std::alloc::{AllocError, Global};
use syntax_lexer::lex;
use syntax_parser::parse;

/// How many turns an activation of a step has.
const TURNS: u32 = 4096;

/// What comes of a step.
#[derive(Drop)]
pub enum Stepped {
    /// A state, as its text.
    To(Vec<u8>),
    /// Nothing: the word is no instruction.
    Undecodable,
    /// Nothing, for another reason.
    Other,
}

/// The text of the instruction set whose cases a file of this name has.
pub fn source_of(name: &str) -> Option<&'static str> {
    match name {
        "ppc.txt" => Some(program_spec_powerpc::text()),
        "rv.txt" => Some(program_spec_riscv::text()),
        _ => None,
    }
}

/// The specification of a machine whose text has no fault.
pub fn specification(alloc: Global, source: &[u8]) -> Option<Spec>
    ensures accepted { IfSome result (λ spec. IsAccepted (specification spec)) }
    ensures machine { IfSome result (λ spec. IsSome (specification spec).machine) }
{
    if source.len() > 262_144 {
        return None;
    }
    let tokens = lex(alloc, source).ok()?;
    let tree = parse(alloc, &tokens, source.len() as u32).ok()?;
    check(alloc, &tree, SpecUse::Machine).ok()
}

/// What comes of one step from the state of a text, where the word stands at its program counter.
pub fn one_step(
    alloc: Global,
    spec: &Spec,
    decoder: &Decoder,
    word: u32,
    before: &[u8],
) -> Result<Stepped, CaseError>
    requires accepted { IsAccepted (specification spec.now) }
    requires machine { IsSome (specification spec.now).machine }
    requires decoder { IsDecoderOf (specification spec.now).rows decoder.now }
{
    if before.len() > 65_536 {
        return Err(CaseError::Long);
    }
    let start = started(alloc, spec, before)?;
    let Some(image) = code(alloc, start.pc, word)? else {
        return Err(CaseError::Code);
    };
    let end = emulate(alloc, spec, decoder, &image, start, 1, TURNS)?;
    Ok(answer(alloc, spec, &end)?)
}

/// The one state of the entry that a text is.
fn started(alloc: Global, spec: &Spec, text: &[u8]) -> Result<State, EntryError>
    requires accepted { IsAccepted (specification spec.now) }
    requires short { length text.now ≤ 65536 }
    ensures { IfOk result (λ start. IsStateOf (specification spec.now) (state start)) }
{
    let entry = read_entry(alloc, spec, text)?;
    one_state(alloc, spec, &entry)
}

/// The code of one word at an address.
fn code(alloc: Global, at: u32, word: u32) -> Result<Option<Image>, AllocError> {
    let mut segments = Vec::new(alloc);
    let bytes = Vec::from_slice(alloc, &word.to_be_bytes())?;
    segments.push(Segment { base: at, bytes })?;
    Ok(Image::new(alloc, Order::Big, &segments).ok())
}

/// What a run of at most one step says of the step.
fn answer(alloc: Global, spec: &Spec, end: &EmulatedRun) -> Result<Stepped, AllocError> {
    match (end.stop, end.done) {
        (Stop::Bound, 1) => Ok(Stepped::To(state_text(alloc, spec, &end.state)?)),
        (Stop::Undecodable { .. }, 0) => Ok(Stepped::Undecodable),
        _ => Ok(Stepped::Other),
    }
}
