//! The terms of sums.

ghost use Rattle.std.specs.Prelude.{◌≡◌, IfOk, OnOk, option_map};
ghost use Rattle.spec_ir.specs.Views.{specification};
ghost use Rattle.text_claims.specs.Cells as cells;
ghost use Rattle.text_claims.specs.Sums as defined;
ghost use Rattle.text_claims.specs.Views.{borrowed, sum_of};

use crate::kinds::Known;
use crate::numbers::short_number;
use crate::says::cell_in;
use semantics_values::KeyAt;
use spec_ir::Spec;
use state_cell_names::split_once;
use std::alloc::{AllocError as NoMemory, Global};

/// A number, or a multiple of a cell, if that is known.
#[derive(Clone, Copy)]
pub(crate) enum Term {
    Number(u32),
    Multiple(u32, Option<Known>),
}

/// What terms add to: a number, multiples of cells, and whether all cells are known.
#[derive(Drop)]
pub(crate) struct Sum {
    pub c: u32,
    pub parts: Vec<(u32, u32, KeyAt)>,
    pub known: bool,
}

/// The multiple of a cell, where both have their form.
fn multiple(m: Option<u32>, cell: Option<Option<Known>>) -> Option<Term>
    ensures { result ≡ defined.multiple_of m cell }
{
    match (m, cell) {
        (Some(m), Some(cell)) => Some(Term::Multiple(m, cell)),
        _ => None,
    }
}

/// The term that a word is: `HEX` or `HEX*CELL`.
fn term_in(spec: &Spec, word: &[u8]) -> Option<Term>
    ensures { result ≡ defined.term_in (specification spec.now) word.now }
{
    match split_once(word, b'*') {
        None => match short_number(word) {
            Some(n) => Some(Term::Number(n)),
            None => None,
        },
        Some((m, cell)) => multiple(short_number(m), cell_in(spec, cell)),
    }
}

/// Adds a term.
fn add(sum: &mut Sum, term: Term) -> Result<(), NoMemory>
    ensures { OnOk result (sum_of sum.new ≡ defined.with_term term (sum_of sum.old)) }
{
    match term {
        Term::Number(n) => sum.c = sum.c.wrapping_add(n),
        Term::Multiple(m, Some(cell)) => sum.parts.push((m, cell.field, cell.key))?,
        Term::Multiple(_m, None) => sum.known = false,
    }
    Ok(())
}

/// What words add to, if all are terms.
pub(crate) fn sum_of(alloc: Global, spec: &Spec, words: &[&[u8]]) -> Result<Option<Sum>, NoMemory>
    ensures { IfOk result (λ r. option_map sum_of r ≡ defined.sum_from (specification spec.now) defined.nothing (borrowed words.now)) }
{
    let mut sum = Sum {
        c: 0,
        parts: Vec::new(alloc),
        known: true,
    };
    for word in words {
        match term_in(spec, word) {
            None => return Ok(None),
            Some(term) => add(&mut sum, term)?,
        }
    }
    Ok(Some(sum))
}
