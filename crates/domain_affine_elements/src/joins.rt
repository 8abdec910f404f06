//! Elements that hold what others hold.

ghost use Rattle.std.specs.Prelude.{◌≡◌, ◌++◌, ◌≤◌, IfOk};
ghost use Rattle.domain_affine_element_laws.specs.Elements.{SameMembers};

use std::alloc::{AllocError as NoMemory, Global};
use support_modular_rows::Rows;

/// The same element once more; `k` is the number of tracked cells.
pub fn copy(alloc: Global, k: u32, x: &Rows) -> Result<Rows, NoMemory>
    requires cells { x.now.k ≡ k }
    requires few { k ≤ 64 }
    ensures members { IfOk result (λ r. SameMembers k r.rows x.now.rows) }
    ensures fits { IfOk result (λ r. r.k ≡ k) }
{
    x.copy(alloc)
}

/// The least element that holds each member of both.
pub fn join(alloc: Global, k: u32, x: &Rows, y: &Rows) -> Result<Rows, NoMemory>
    requires left { x.now.k ≡ k }
    requires right { y.now.k ≡ k }
    requires few { k ≤ 64 }
    ensures members { IfOk result (λ r. SameMembers k r.rows (x.now.rows ++ y.now.rows)) }
    ensures fits { IfOk result (λ r. r.k ≡ k) }
{
    let mut rows = copy(alloc, k, x)?;
    add_rows(y, &mut rows);
    Ok(rows)
}

/// Adds the members of `x`.
fn add_rows(x: &Rows, into: &mut Rows)
    requires { into.old.k ≡ x.now.k }
    ensures members { SameMembers x.now.k into.new.rows (into.old.rows ++ x.now.rows) }
    ensures same { into.new.k ≡ x.now.k }
{
    for i in 0..x.len() {
        let _grew = into.insert(x.row(i));
    }
}
