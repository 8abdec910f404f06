//! The fields of states by their names.

ghost use Rattle.std.specs.Prelude.{◌≡◌, bytes_eq};
ghost use Rattle.spec_ir.specs.Views.{specification};
ghost use Rattle.state_cell_text.specs.Places as defined;

use spec_ir::{Spec, Ty};
use syntax_lexer::Text;

/// What the name of a field stands for: the program counter, a word field, or a map. Fields have their numbers, of
/// which the program counter's is 0.
#[derive(Clone, Copy, Debug, PartialEq, Eq)]
pub enum Place {
    Counter,
    Word { field: u32, width: u32 },
    Map { field: u32, key: Ty, width: u32 },
}

/// Whether two texts are the same.
pub fn same(a: &[u8], b: &[u8]) -> bool
    ensures { result ≡ bytes_eq a.now b.now }
{
    a == b
}

/// The names and types of the fields of states, the program counter first; none where the specification has no machine.
pub fn state_fields(spec: &Spec) -> &[(Text, Ty)]
    ensures { result.now ≡ defined.state_fields (specification spec.now) }
{
    let Some(machine) = spec.machine else {
        return &[];
    };
    let Some(data) = spec.datas.get(machine.state as usize) else {
        return &[];
    };
    match data.cases.first() {
        Some(case) => &case.fields,
        None => &[],
    }
}

/// What a field is for texts, by its number and type.
fn place_at(spec: &Spec, n: usize, ty: Ty) -> Option<Place>
    ensures { result ≡ defined.place_at (specification spec.now) n ty }
{
    if n == 0 {
        return Some(Place::Counter);
    }
    let Ok(field) = u32::try_from(n) else {
        return None;
    };
    match ty {
        Ty::Word(width) => Some(Place::Word { field, width }),
        Ty::Map(map) => match spec.maps.get(map as usize) {
            Some(d) => Some(Place::Map {
                field,
                key: d.key,
                width: d.width,
            }),
            None => None,
        },
        Ty::Bool | Ty::Data(_) => None,
    }
}

/// The field of a name: the first that has it.
pub fn place_of(spec: &Spec, name: &[u8]) -> Option<Place>
    ensures { result ≡ defined.place_of (specification spec.now) name.now }
{
    let fields = state_fields(spec);
    for i in 0..fields.len() {
        if same(fields[i].0.as_str().as_bytes(), name) {
            return place_at(spec, i, fields[i].1);
        }
    }
    None
}
