//! Keys of maps.

ghost use Rattle.std.specs.Prelude.{◌≡◌};
ghost use Rattle.spec_ir.specs.Views.{specification};
ghost use Rattle.text_part_readers.specs.Keys as defined;

use spec_ir::{Spec, Ty};
use state_cell_text::key_number;
use text_words::number_in;

/// The key that a text is.
pub fn key_in(spec: &Spec, ty: Ty, text: &[u8]) -> Option<u64>
    ensures { result ≡ defined.key_in (specification spec.now) ty text.now }
{
    match ty {
        Ty::Word(w) if w > 8 => number_in(w, text),
        _ => key_number(spec, ty, text),
    }
}

/// A key, where it comes behind the last one.
pub(crate) fn key_behind(last: Option<u64>, key: Option<u64>) -> Option<u64>
    ensures { result ≡ defined.key_behind last key }
{
    let key = key?;
    match last {
        Some(last) if key <= last => None,
        _ => Some(key),
    }
}
