//! Fields of a row.

ghost use Rattle.std.specs.Prelude.{◌≡◌, ◌≤◌, IfErr, IfOk, map, option_map};
ghost use Rattle.spec_decode_rows.specs.Fields as spec;
ghost use Rattle.spec_decode_rows.specs.Fits.{widths_sum};
ghost use Rattle.spec_decode_rows.specs.Views.{field};

use spec_ir::{SpecError, number, same};
use std::alloc::Global;
use syntax_lexer::Text;
use syntax_parser::tree::{Name, PartDecl};

/// A field of a row: its name, its number in the order of the row, and its width.
#[derive(Clone, Copy, Drop)]
pub struct RowField<'a> {
    pub name: &'a Text,
    pub number: u32,
    pub width: u32,
}

/// The fields of a row of 32 bits.
pub fn fields_of<'a>(alloc: Global, parts: &'a [PartDecl]) -> Result<Vec<RowField<'a>>, SpecError>
    requires { widths_sum parts.now ≤ 32 }
    ensures memory { IfErr result (λ e. e ≡ SpecError.NoMemory) }
    ensures fields { IfOk result (λ fields. map field fields.items ≡ spec.fields_of parts.now) }
{
    let mut fields = Vec::new(alloc);
    for p in parts {
        if let PartDecl::Named { name, w, .. } = p {
            let field = RowField {
                name: &name.text,
                number: number(fields.len())?,
                width: w.v as u32,
            };
            fields.push(field)?;
        }
    }
    Ok(fields)
}

/// The field of a name.
pub fn field_named<'a>(fields: &[RowField<'a>], name: &Name) -> Option<RowField<'a>>
    ensures { option_map field result ≡ spec.field_named (map field fields.now) name.now.text }
{
    for f in fields {
        if same(f.name, &name.text) {
            return Some(*f);
        }
    }
    None
}
