//! What a line of claims says by itself.

ghost use Rattle.std.specs.Prelude.{◌≡◌, IfOk, Some, codes, option_map};
ghost use Rattle.spec_ir.specs.Views.{specification};
ghost use Rattle.state_cell_names.specs.Views.{cell_of};
ghost use Rattle.state_cell_text.specs.Digits.{hex_number};
ghost use Rattle.state_cell_text.specs.Places.{place_of};
ghost use Rattle.text_claims.specs.Cells as cells;
ghost use Rattle.text_claims.specs.Meaning as defined;
ghost use Rattle.text_claims.specs.Views.{borrowed, meant_of, sum_of as sum_view};

use crate::kinds::{Known, Meant};
use crate::lines::words;
use crate::numbers::{ends, short_number};
use crate::sums::{Sum, sum_of};
use analysis_claims::Claim;
use semantics_values::KeyAt;
use spec_ir::Spec;
use state_cell_names::{CellName, CellPart, cell_name};
use state_cell_text::{Place, fits, hex_number, key_number, place_of, same};
use std::alloc::{AllocError as NoMemory, Global};

/// The cell of a map at the key of a text, if it spells one.
fn at_key(field: u32, width: u32, key: Option<u64>) -> Option<Known>
    ensures { result ≡ cells.at_key field width key }
{
    Some(Known {
        field,
        key: KeyAt::At(key?),
        width,
    })
}

/// A cell of the states by its text, if there is one.
fn known(spec: &Spec, cell: &CellName) -> Option<Known>
    ensures { result ≡ cells.known (specification spec.now) (cell_of cell.now) }
{
    match place_of(spec, cell.name)? {
        Place::Counter => None,
        Place::Word { field, width } => match cell.part {
            CellPart::Whole => Some(Known {
                field,
                key: KeyAt::Whole,
                width,
            }),
            CellPart::Rest | CellPart::At(_) => None,
        },
        Place::Map { field, key, width } => match cell.part {
            CellPart::At(text) => at_key(field, width, key_number(spec, key, text)),
            CellPart::Whole | CellPart::Rest => None,
        },
    }
}

/// The cell that a text is; none where it is not `NAME` or `NAME[KEY]`, and none that is known where there is none such.
pub(crate) fn cell_in(spec: &Spec, text: &[u8]) -> Option<Option<Known>>
    ensures { result ≡ cells.cell_in (specification spec.now) text.now }
{
    let cell = cell_name(text)?;
    match cell.part {
        CellPart::Rest => None,
        CellPart::Whole | CellPart::At(_) => Some(known(spec, &cell)),
    }
}

/// `ADDRESS CELL in LO..HI`
fn range_means(at: Option<u32>, cell: Option<Option<Known>>, ends: Option<(u64, u64)>) -> Meant
    ensures { meant_of result ≡ defined.range_means at cell ends }
{
    let (Some(at), Some(cell), Some((lo, hi))) = (at, cell, ends) else {
        return Meant::Bad;
    };
    let Some(Known { field, key, width }) = cell else {
        return Meant::Unknown;
    };
    if fits(hi, width) {
        Meant::Says(Claim::Range {
            at,
            field,
            key,
            lo,
            hi,
        })
    } else {
        Meant::Bad
    }
}

/// `ADDRESS CELL != HEX`
fn differs_means(at: Option<u32>, cell: Option<Option<Known>>, value: Option<u64>) -> Meant
    ensures { meant_of result ≡ defined.differs_means at cell value }
{
    let (Some(at), Some(cell), Some(value)) = (at, cell, value) else {
        return Meant::Bad;
    };
    let Some(Known { field, key, width }) = cell else {
        return Meant::Unknown;
    };
    if fits(value, width) {
        Meant::Says(Claim::Differs {
            at,
            field,
            key,
            value,
        })
    } else {
        Meant::Bad
    }
}

/// `ADDRESS never`
fn never_means(at: Option<u32>, word: &[u8]) -> Meant
    ensures { meant_of result ≡ defined.never_means at word.now }
{
    match at {
        Some(at) => {
            if same(word, b"never".as_slice()) {
                Meant::Says(Claim::Never { at })
            } else {
                Meant::Bad
            }
        }
        None => Meant::Bad,
    }
}

/// The sum of terms.
fn total_means(at: Option<u32>, sum: Option<Sum>) -> Meant
    ensures { meant_of result ≡ defined.total_means at (option_map sum_view sum) }
{
    match (at, sum) {
        (Some(at), Some(Sum { c, parts, known })) => {
            if known {
                Meant::Says(Claim::Sum { at, c, parts })
            } else {
                Meant::Unknown
            }
        }
        _ => Meant::Bad,
    }
}

/// `ADDRESS eq TERM TERM ..`
fn sum_means(
    alloc: Global,
    spec: &Spec,
    at: Option<u32>,
    word: &[u8],
    terms: &[&[u8]],
) -> Result<Meant, NoMemory>
    ensures { IfOk result (λ m. meant_of m ≡ defined.sum_means (specification spec.now) at word.now (borrowed terms.now)) }
{
    if !same(word, b"eq".as_slice()) {
        return Ok(Meant::Bad);
    }
    Ok(total_means(at, sum_of(alloc, spec, terms)?))
}

/// What three words say behind an address.
fn verb_means(
    alloc: Global,
    spec: &Spec,
    at: Option<u32>,
    first: &[u8],
    verb: &[u8],
    value: &[u8],
) -> Result<Meant, NoMemory>
    ensures { IfOk result (λ m. meant_of m ≡ defined.verb_means (specification spec.now) at first.now verb.now value.now) }
{
    if same(verb, b"in".as_slice()) {
        return Ok(range_means(at, cell_in(spec, first), ends(value)));
    }
    if same(verb, b"!=".as_slice()) {
        let value = hex_number(16, value);
        return Ok(differs_means(at, cell_in(spec, first), value));
    }
    sum_means(alloc, spec, at, first, &[verb, value])
}

/// What two words or more say behind an address.
fn words_mean(
    alloc: Global,
    spec: &Spec,
    at: Option<u32>,
    first: &[u8],
    more: &[&[u8]],
) -> Result<Meant, NoMemory>
    ensures { IfOk result (λ m. meant_of m ≡ defined.words_mean (specification spec.now) at first.now (borrowed more.now)) }
{
    match more {
        [] => sum_means(alloc, spec, at, first, more),
        [_] => sum_means(alloc, spec, at, first, more),
        [verb, value] => verb_means(alloc, spec, at, first, verb, value),
        [_, _, _, ..] => sum_means(alloc, spec, at, first, more),
    }
}

/// What the words of a line say.
fn line_means(alloc: Global, spec: &Spec, words: &[&[u8]]) -> Result<Meant, NoMemory>
    ensures { IfOk result (λ m. meant_of m ≡ defined.line_means (specification spec.now) (borrowed words.now)) }
{
    match words {
        [] => Ok(Meant::Bad),
        [_] => Ok(Meant::Bad),
        [at, word] => Ok(never_means(short_number(at), word)),
        [at, first, more @ ..] => words_mean(alloc, spec, short_number(at), first, more),
    }
}

/// What a line says. Empty lines and lines that begin with `#` say nothing.
pub(crate) fn meant(alloc: Global, spec: &Spec, line: &[u8]) -> Result<Meant, NoMemory>
    ensures { IfOk result (λ m. meant_of m ≡ defined.meant (specification spec.now) line.now) }
{
    match line.first() {
        None => Ok(Meant::Nothing),
        Some(b'#') => Ok(Meant::Nothing),
        Some(_) => {
            let words = words(alloc, line)?;
            line_means(alloc, spec, &words)
        }
    }
}
