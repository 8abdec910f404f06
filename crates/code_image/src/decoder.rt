//! The decoder of a specification.

ghost use Rattle.std.specs.Prelude.{◌≡◌, ◌<◌, Some, false, [], length, map, option_map, slice_get, IfOk, IsOk};
ghost use Rattle.semantics.specs.Decode as decode;
ghost use Rattle.spec_ir.specs.Views.{row_of, specification};
ghost use Rattle.semantics_values.specs.Views.{val};
ghost use Rattle.code_image.specs.Tree.{with_row};
ghost use Rattle.code_image.specs.Decoders.{IsDecoderOf, decoding, has_fields, instr_of};

use crate::rows::{build_instruction, meets};
use crate::tree::{Tree, WORD_BITS, all_rows, grow};
use semantics_values::Value;
use spec_ir::{Row, Spec};
use std::alloc::{AllocError, Global};

/// The decoder of a specification: its rows in groups, by the bits that they fix, so that a word is tried on few.
#[derive(Debug)]
pub struct Decoder {
    tree: Tree,
}

/// Written out, so that what lets a decoder go stands once, and not once more in each crate where one is let go.
impl Drop for Decoder {
    fn drop(self) {
        let Decoder { tree: _tree } = self;
    }
}

impl Decoder {
    /// The decoder of a specification's rows.
    pub fn new(alloc: Global, spec: &Spec) -> Result<Decoder, AllocError>
        ensures { IfOk result (λ d. IsDecoderOf (specification spec.now).rows d) }
    {
        let all = all_rows(alloc, &spec.rows)?;
        Ok(Decoder {
            tree: grow(alloc, &spec.rows, all, WORD_BITS)?,
        })
    }

    /// The instruction that a word is, by the specification that the decoder was made for; none where the word meets
    /// no row. No memory is taken then, nor for an instruction without fields.
    pub fn find(&self, alloc: Global, spec: &Spec, word: u32) -> Result<Option<Value>, AllocError>
        requires { IsDecoderOf (specification spec.now).rows self.now }
        ensures instruction { IfOk result (λ r. option_map val r ≡ decoding (specification spec.now) word) }
        ensures bare { has_fields (decoding (specification spec.now) word) ≡ false → IsOk result }
    {
        match self.row_met(spec, word) {
            Some(row) => Ok(Some(build_instruction(alloc, instr_of(spec), row, word)?)),
            None => Ok(None),
        }
    }

    /// The first row that a word meets.
    fn row_met<'a>(&self, spec: &'a Spec, word: u32) -> Option<&'a Row>
        requires { IsDecoderOf (specification spec.now).rows self.now }
        ensures { option_map (λ r. row_of r.now) result ≡ decode.row_met word (specification spec.now).rows }
    {
        for number in self.tree.group_at(word) {
            let found = row_met_at(&spec.rows, *number, word);
            if found.is_some() {
                return found;
            }
        }
        None
    }
}

/// The row of this number, where a word meets it.
fn row_met_at(rows: &[Row], number: usize, word: u32) -> Option<&Row>
    ensures { option_map (λ r. row_of r.now) result ≡ decode.row_met word (with_row (slice_get (map row_of rows.now) number) []) }
{
    let row = rows.get(number)?;
    if meets(word, row) { Some(row) } else { None }
}

/// The instruction of a row for a word.
pub fn instruction(alloc: Global, spec: &Spec, row: u32, word: u32) -> Result<Value, AllocError>
    requires { row < length (specification spec.now).rows }
    ensures { IfOk result (λ v. option_map (decode.instruction_of (instr_of spec.now.machine) word) (slice_get (specification spec.now).rows row)
        ≡ Some (val v)) }
{
    build_instruction(alloc, instr_of(spec), &spec.rows[row as usize], word)
}

/// The number of the datatype of instructions.
fn instr_of(spec: &Spec) -> u32
    ensures { result ≡ instr_of spec.now.machine }
{
    match spec.machine {
        Some(machine) => machine.instr,
        None => 0,
    }
}
