//! Parts of a row.

ghost use Rattle.std.specs.Prelude.{◌≡◌, ◌≤◌, ◌==◌, IfOk, OnOk, map};
ghost use Rattle.std.specs.List.{list_all};
ghost use Rattle.spec_ir.specs.Answers.{Agrees, unless};
ghost use Rattle.spec_decode_rows.specs.Decoded.{part_of};
ghost use Rattle.spec_decode_rows.specs.Fits as spec;

use crate::numbers::fits;
use spec_ir::{SpecError, WordPart};
use std::alloc::Global;
use syntax_parser::tree::{PartDecl, Span};

/// Bits of an instruction word.
const WORD_BITS: u64 = 32;

/// The parts of a row at a span, which are to fill a word.
#[tactic(auto, using(crate::proofs::Steps::row_steps))]
pub fn check_parts(
    alloc: Global,
    parts: &[PartDecl],
    span: Span,
) -> Result<Vec<WordPart>, SpecError>
    ensures answer { Agrees result (unless (spec.parts_fit parts.now) (SpecError.BadPattern span)) }
    ensures parts { IfOk result (λ r. r.items ≡ map part_of parts.now) }
    ensures width { OnOk result (spec.widths_sum parts.now ≤ 32) }
{
    if !fill_a_word(parts) {
        return Err(SpecError::BadPattern { span });
    }
    each_part(alloc, parts, span)
}

/// Whether widths sum to those of a word.
fn fill_a_word(parts: &[PartDecl]) -> bool
    ensures { result ≡ (spec.widths_sum parts.now == 32) }
{
    let mut sum = 0;
    for p in parts {
        let width = part_width(p);
        if width > WORD_BITS - sum {
            return false;
        }
        sum += width;
    }
    sum == WORD_BITS
}

/// The width of a part.
fn part_width(p: &PartDecl) -> u64
    ensures { result ≡ spec.part_width p.now }
{
    match p {
        PartDecl::Fixed { w, .. } => w.v,
        PartDecl::Named { w, .. } => w.v,
    }
}

/// The parts of a row of at most a word.
fn each_part(alloc: Global, parts: &[PartDecl], span: Span) -> Result<Vec<WordPart>, SpecError>
    requires { spec.widths_sum parts.now ≤ 32 }
    ensures answer { Agrees result (unless (list_all spec.part_fits parts.now) (SpecError.BadPattern span)) }
    ensures parts { IfOk result (λ r. r.items ≡ map part_of parts.now) }
{
    let mut out = Vec::new(alloc);
    for p in parts {
        out.push(check_part(p, span)?)?;
    }
    Ok(out)
}

/// A part of a row.
#[tactic(auto, using(crate::proofs::Steps::row_steps))]
fn check_part(p: &PartDecl, span: Span) -> Result<WordPart, SpecError>
    requires { spec.part_width p.now ≤ 32 }
    ensures answer { Agrees result (unless (spec.part_fits p.now) (SpecError.BadPattern span)) }
    ensures part { IfOk result (λ r. r ≡ part_of p.now) }
{
    match p {
        PartDecl::Fixed { v, w, .. } => {
            if w.v == 0 || !fits(v.v, w.v) {
                return Err(SpecError::BadPattern { span });
            }
            Ok(WordPart::Fixed {
                v: v.v,
                w: w.v as u32,
            })
        }
        PartDecl::Named { w, .. } => {
            if w.v == 0 {
                return Err(SpecError::BadPattern { span });
            }
            Ok(WordPart::Field { w: w.v as u32 })
        }
    }
}
