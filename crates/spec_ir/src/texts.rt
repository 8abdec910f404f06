//! Texts of refusals.

ghost use Rattle.std.specs.Prelude.{◌≡◌, IfOk, bytes_eq};
ghost use Rattle.std.specs.Fmt.{decimal};
ghost use Rattle.spec_ir.specs.Texts.{literal_text, type_text};
ghost use Rattle.spec_ir.specs.Views.{environment};

use crate::declared::Declarations;
use crate::ty::Ty;
use std::alloc::{AllocError, Global};
use syntax_lexer::Text;

/// Whether two texts are the same.
pub fn same(a: &Text, b: &Text) -> bool
    ensures { result ≡ bytes_eq a.now b.now }
{
    a.as_str() == b.as_str()
}

/// The name of a type.
pub fn type_text(alloc: Global, declarations: &Declarations, ty: Ty) -> Result<Text, AllocError>
    ensures { IfOk result (λ t. t ≡ type_text (environment declarations.now) ty) }
{
    match ty {
        Ty::Bool => Text::from_str(alloc, "BOOL"),
        Ty::Word(w) => {
            let text = format!(in alloc; "INT{w}")?;
            Text::from_str(alloc, text.as_str())
        }
        Ty::Data(t) => match declarations.datas.get(t as usize) {
            Some(d) => d.name.copy(alloc),
            None => Text::from_str(alloc, ""),
        },
        Ty::Map(m) => match declarations.maps.get(m as usize) {
            Some(d) => d.name.copy(alloc),
            None => Text::from_str(alloc, ""),
        },
    }
}

/// The literal of a number and a width, as `7:32`.
pub fn literal_text(alloc: Global, v: u64, w: u64) -> Result<Text, AllocError>
    ensures { IfOk result (λ t. t ≡ literal_text v w) }
{
    let text = format!(in alloc; "{v}:{w}")?;
    Text::from_str(alloc, text.as_str())
}

/// A number in decimal.
pub fn number_text(alloc: Global, v: u64) -> Result<Text, AllocError>
    ensures { IfOk result (λ t. t ≡ decimal v) }
{
    let text = format!(in alloc; "{v}")?;
    Text::from_str(alloc, text.as_str())
}
