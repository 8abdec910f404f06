//! Sums and multiples of forms, each as the list of its numbers.

ghost use Rattle.std.specs.Prelude.{◌≡◌, ◌<◌, ◌^◌, IfOk, slice_index};
ghost use Rattle.base_trait.specs.Lists.{Each};
ghost use Rattle.domain_affine_base.specs.Forms.{constant_of, difference_of, is_constant, multiple_of, negation_of, sum_of};

use std::alloc::{AllocError as NoMemory, Global};
use support_modular_rows::Form;

/// The sum, number by number; where one has fewer numbers, the others of it are 0. The sum of 3 and 1, 2 is 4, 2.
pub(crate) fn sum(alloc: Global, f: &[u32], g: &[u32]) -> Result<Form, NoMemory>
    ensures { IfOk result (λ r. r ≡ sum_of f.now g.now) }
{
    let mut c = Vec::new(alloc);
    for i in 0..f.len().max(g.len()) {
        c.push(number(f, i).wrapping_add(number(g, i)))?;
    }
    Ok(Form { c })
}

/// The number at the place, 0 where there is none.
fn number(f: &[u32], i: usize) -> u32
    ensures { result ≡ slice_index f.now i }
{
    match f.get(i) {
        Some(number) => *number,
        None => 0,
    }
}

/// Each number times `factor`.
pub(crate) fn multiple(alloc: Global, factor: u32, f: &[u32]) -> Result<Form, NoMemory>
    ensures { IfOk result (λ r. r ≡ multiple_of factor f.now) }
{
    let mut c = Vec::new(alloc);
    for number in f {
        c.push(factor.wrapping_mul(*number))?;
    }
    Ok(Form { c })
}

/// 0 less the form.
pub(crate) fn negation(alloc: Global, f: &[u32]) -> Result<Form, NoMemory>
    ensures { IfOk result (λ r. r ≡ negation_of f.now) }
{
    multiple(alloc, u32::MAX, f)
}

/// The first form less the second.
pub(crate) fn difference(alloc: Global, f: &[u32], g: &[u32]) -> Result<Form, NoMemory>
    ensures { IfOk result (λ r. r ≡ difference_of f.now g.now) }
{
    let negated = negation(alloc, g)?;
    sum(alloc, f, &negated.c)
}

/// Whether all multipliers of cells are 0.
pub(crate) fn is_constant(f: &[u32]) -> bool
    ensures value { result ≡ is_constant f.now }
    ensures below { Each (λ n. n < 2 ^ 32) f.now }
{
    for i in 1..f.len() {
        if f[i] != 0 {
            return false;
        }
    }
    true
}

/// The constant of the form.
pub(crate) fn constant_of(f: &[u32]) -> u32
    ensures { result ≡ constant_of f.now }
{
    number(f, 0)
}

/// The same form once more.
pub(crate) fn copy_form(alloc: Global, f: &Form) -> Result<Form, NoMemory>
    ensures { IfOk result (λ r. r ≡ f.now) }
{
    let mut c = Vec::new(alloc);
    for number in &f.c {
        c.push(*number)?;
    }
    Ok(Form { c })
}
