//! Lists that take what they are given, or let it go where memory runs out.

ghost use Rattle.std.specs.Prelude.{◌≡◌, ◌++◌, ◌∷◌, [], IfOk, OnOk};

use abstract_value::put;
use std::alloc::AllocError as NoMemory;

/// The list with one item more.
pub(crate) fn pushed<T: Drop>(mut list: Vec<T>, item: T) -> Result<Vec<T>, NoMemory>
    ensures { IfOk result (λ r. r.items ≡ list.items ++ item ∷ []) }
{
    put(&mut list, item)?;
    Ok(list)
}

/// Puts the items of one list behind those of another.
pub(crate) fn append_all<T: Drop>(list: &mut Vec<T>, mut more: Vec<T>) -> Result<(), NoMemory>
    ensures { OnOk result (list.new.items ≡ list.old.items ++ more.items) }
{
    list.append(&mut more)?;
    Ok(())
}
