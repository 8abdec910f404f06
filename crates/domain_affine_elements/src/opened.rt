//! The words of tracked cells where an element stands.

ghost use Rattle.std.specs.Prelude.{◌≡◌, ◌+◌, ◌<◌, IfOk};
ghost use Rattle.support_modular_rows.specs.Submodule.{unit_row};
ghost use Rattle.domain_affine_base.specs.Words.{Fits};
ghost use Rattle.domain_affine_element_laws.specs.Opened.{opened_cell};

use domain_affine_base::Word;
use std::alloc::{AllocError as NoMemory, Global};
use support_modular_rows::{Form, Rows};

/// The word of a cell, of `k`: a constant where the cell is the same multiple of the first number in each member, else
/// the form of the cell.
pub fn open_cell(alloc: Global, k: u32, x: &Rows, cell: u32) -> Result<Word, NoMemory>
    requires cells { x.now.k ≡ k }
    requires within { cell < k }
    ensures value { IfOk result (λ r. r ≡ opened_cell k x.now.rows cell) }
    ensures fits { IfOk result (λ r. Fits k 32 r) }
{
    match x.multiple(cell) {
        Some(c) => Ok(Word::Const(c as u64)),
        None => Ok(Word::Form(unit(alloc, k as usize + 1, cell as usize + 1)?)),
    }
}

/// The form of n numbers that has 1 at the place and else 0.
pub(crate) fn unit(alloc: Global, n: usize, place: usize) -> Result<Form, NoMemory>
    requires { place < n }
    ensures { IfOk result (λ f. f ≡ unit_row n place) }
{
    let mut c = Vec::new(alloc);
    for i in 0..n {
        c.push(0u32)?;
    }
    c[place] = 1;
    Ok(Form { c })
}
