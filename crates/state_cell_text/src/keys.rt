//! Keys of maps.

ghost use Rattle.std.specs.Prelude.{◌≡◌, map, nat_le};
ghost use Rattle.spec_ir.specs.Views.{case_of, specification};
ghost use Rattle.semantics_values.specs.Types.{environment_of, key_count};
ghost use Rattle.state_cell_text.specs.Keys as defined;

use crate::digits::{decimal_number, fits, hex_number};
use crate::places::same;
use spec_ir::{Case, Spec, Ty, case_count};

/// The number of a key that is a word of w bits, by its text.
fn word_key(w: u32, text: &[u8]) -> Option<u64>
    ensures { result ≡ defined.word_number w text.now }
{
    let number = if w <= 8 {
        decimal_number(text)
    } else {
        hex_number(8, text)
    };
    match number {
        Some(k) => { if fits(k, w) { Some(k) } else { None } }
        None => None,
    }
}

/// The number of the first constructor of a name.
fn case_number(cases: &[Case], name: &[u8]) -> Option<u64>
    ensures { result ≡ defined.case_number 0 (map case_of cases.now) name.now }
{
    for i in 0..cases.len() {
        if same(cases[i].name.as_str().as_bytes(), name) {
            return Some(i as u64);
        }
    }
    None
}

/// The key that a text spells, where keys have a type: a word of at most 8 bits in decimal without leading zeros, a
/// wider one in 1 to 8 hex digits of either case, a constructor by its name.
pub fn key_number(spec: &Spec, ty: Ty, text: &[u8]) -> Option<u64>
    ensures { result ≡ defined.key_number (specification spec.now) ty text.now }
{
    match ty {
        Ty::Word(w) => word_key(w, text),
        Ty::Data(data) => match spec.datas.get(data as usize) {
            Some(data) => case_number(&data.cases, text),
            None => None,
        },
        Ty::Bool | Ty::Map(_) => None,
    }
}

/// Whether a type has at least so many keys.
pub fn has_keys(spec: &Spec, ty: Ty, count: u64) -> bool
    ensures { result ≡ nat_le count (key_count (environment_of (specification spec.now)) ty) }
{
    match ty {
        Ty::Word(w) => w >= 64 || count <= 1 << w,
        Ty::Data(number) => count <= case_count(spec, number) as u64,
        Ty::Bool | Ty::Map(_) => count == 0,
    }
}
