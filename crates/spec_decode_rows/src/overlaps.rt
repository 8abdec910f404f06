//! Rows that a word may meet together.

ghost use Rattle.std.specs.Prelude.{◌≡◌, map};
ghost use Rattle.syntax_parser.specs.View.{row};
ghost use Rattle.spec_ir.specs.Answers.{Agrees};
ghost use Rattle.spec_decode_rows.specs.Bits.{row_bits};
ghost use Rattle.spec_decode_rows.specs.Rows as spec;
ghost use Rattle.spec_decode_rows.specs.Views.{earlier};

use crate::bits::all_agree;
use spec_ir::SpecError;
use std::alloc::Global;
use syntax_lexer::Text;
use syntax_parser::tree::RowDecl;

/// An earlier row: the bits that it fixes, and its constructor.
#[derive(Drop)]
pub struct EarlierRow<'a> {
    pub bits: Vec<Option<bool>>,
    pub case: &'a Text,
}

/// A row of these bits agrees with no earlier one.
pub fn check_overlaps(
    alloc: Global,
    before: &[EarlierRow],
    r: &RowDecl,
    bits: &[Option<bool>],
) -> Result<(), SpecError>
    requires { bits.now ≡ row_bits r.now.parts.items }
    ensures { Agrees result (spec.overlap_fault (map earlier before.now) (row r.now)) }
{
    for q in before {
        if all_agree(&q.bits, bits) {
            return Err(SpecError::Overlap {
                span: r.span,
                first: q.case.copy(alloc)?,
                second: r.case.text.copy(alloc)?,
            });
        }
    }
    Ok(())
}
