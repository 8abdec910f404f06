//! The element of an entry.

ghost use Rattle.std.specs.Prelude.{◌≡◌, ◌<◌, ◌^◌, ◌∷◌, [], IfOk, map, true};
ghost use Rattle.std.specs.List.{list_all};
ghost use Rattle.word_operations.specs.Width.{IsWidth};
ghost use Rattle.abstract_map_laws.specs.Maps.{Fits};
ghost use Rattle.semantics.specs.Entries as meaning;
ghost use Rattle.abstract_value_laws.specs.Abs as plain;
ghost use Rattle.abstract_value_laws.specs.Abs.{parts};
ghost use Rattle.domain_laws.specs.Entries.{GivenFits, LinesFit};
ghost use Rattle.domain_laws.specs.States.{is_field};
ghost use Rattle.domain_laws.specs.Entry as cells;
ghost use Rattle.domain_laws.specs.Lines.{IsField, KeyFits, OfField, OfKeys};
ghost use Rattle.abstract_value.specs.View.{abs};

use abstract_map::{AbstractMap, KeySet};
use abstract_map_laws::AbstractCell;
use abstract_value::AbstractValue;
use base_trait::Base;
use domain_laws::Field;
use semantics_values::{GivenNumber, KeyAt, Line};
use std::alloc::{AllocError as NoMemory, Global};
use support_lists::pushed;

/// A cell of words and notes of a base.
type CellOf<B> = AbstractCell<<B as Base>::Word, <B as Base>::Note>;

/// Whether both are one part of a field.
pub fn is_key(x: KeyAt, y: KeyAt) -> bool
    ensures { result ≡ meaning.is_key x y }
{
    match (x, y) {
        (KeyAt::Whole, KeyAt::Whole) | (KeyAt::Rest, KeyAt::Rest) => true,
        (KeyAt::At(j), KeyAt::At(k)) => j == k,
        _ => false,
    }
}

/// What the first line gives that speaks of a part of a field.
pub fn given_at(lines: &[Line], field: u64, key: KeyAt) -> Option<GivenNumber>
    ensures { result ≡ meaning.given_at lines.now field key }
{
    for l in lines {
        if u64::from(l.field) == field && is_key(l.key, key) {
            return Some(l.given);
        }
    }
    None
}

/// What is given of a word: 0, where no line names it.
pub fn given_word(lines: &[Line], field: u64) -> GivenNumber
    ensures { result ≡ meaning.given_word lines.now field }
{
    match given_at(lines, field, KeyAt::Whole) {
        Some(given) => given,
        None => GivenNumber::One(0),
    }
}

/// What is given of the cells of a map that no line names by their key.
pub fn given_rest(lines: &[Line], field: u64, default: u64) -> GivenNumber
    ensures { result ≡ meaning.given_rest lines.now field default }
{
    match given_at(lines, field, KeyAt::Rest) {
        Some(given) => given,
        None => GivenNumber::One(default),
    }
}

/// The word of what is given.
fn word_of<B: Base>(
    alloc: Global,
    ctx: &B::Ctx,
    w: u32,
    given: GivenNumber,
) -> Result<B::Word, NoMemory>
    requires width { IsWidth w }
    requires given { GivenFits w given }
    ensures value { IfOk result (λ r. r ≡ cells.given B.algebra ctx.now w given) }
    ensures fits { IfOk result (λ r. B.algebra.words.fits ctx.now w r) }
{
    match given {
        GivenNumber::One(v) => B::constant(alloc, ctx, w, v),
        GivenNumber::Any => B::any(alloc, ctx, w),
        GivenNumber::Range { lo, hi } => B::range(alloc, ctx, w, lo, hi),
    }
}

/// The cell of what is given, which no instruction has written.
fn cell_of<B: Base>(
    alloc: Global,
    ctx: &B::Ctx,
    w: u32,
    given: GivenNumber,
) -> Result<CellOf<B>, NoMemory>
    requires width { IsWidth w }
    requires given { GivenFits w given }
    ensures value { IfOk result (λ r. r ≡ cells.given_cell B.algebra ctx.now w given) }
    ensures fits { IfOk result (λ r. B.algebra.words.fits ctx.now w r.word) }
{
    let note = B::entry_note(alloc)?;
    Ok(AbstractCell {
        word: word_of::<B>(alloc, ctx, w, given)?,
        note,
    })
}

/// The map that has what is given at each key.
fn map_of<B: Base>(
    alloc: Global,
    ctx: &B::Ctx,
    w: u32,
    given: GivenNumber,
) -> Result<AbstractMap<B>, NoMemory>
    requires width { IsWidth w }
    requires given { GivenFits w given }
    ensures value { IfOk result (λ r. r ≡ cells.map_of B.algebra ctx.now w given) }
    ensures fits { IfOk result (λ r. Fits B.algebra ctx.now B.CAP r) }
{
    let cell = cell_of::<B>(alloc, ctx, w, given)?;
    AbstractMap::new(alloc, ctx, w, cell.word, cell.note)
}

/// The map of what lines give of a field: each key that none of them names has the rest.
fn entry_map<B: Base>(
    alloc: Global,
    ctx: &B::Ctx,
    field: u64,
    w: u32,
    rest: GivenNumber,
    lines: &[Line],
) -> Result<AbstractMap<B>, NoMemory>
    requires width { IsWidth w }
    requires rest { GivenFits w rest }
    requires lines { OfKeys field w lines.now }
    ensures { IfOk result (λ r. r ≡ cells.with_cells B.algebra ctx.now B.CAP field lines.now (cells.map_of B.algebra ctx.now w rest)) }
{
    let mut m = map_of(alloc, ctx, w, rest)?;
    let mut left = lines.len();
    while left > 0 {
        left -= 1;
        m = with_line(alloc, ctx, field, &lines[left], m)?;
    }
    Ok(m)
}

/// The map with the cell that a line names, if it names one of this field.
fn with_line<B: Base>(
    alloc: Global,
    ctx: &B::Ctx,
    field: u64,
    line: &Line,
    m: AbstractMap<B>,
) -> Result<AbstractMap<B>, NoMemory>
    requires map { Fits B.algebra ctx.now B.CAP m }
    requires key { line.now.field ≡ field → KeyFits m.width line.now.key line.now.given }
    ensures value { IfOk result (λ r. r ≡ cells.with_cells B.algebra ctx.now B.CAP field (line.now ∷ []) m) }
    ensures fits { IfOk result (λ r. Fits B.algebra ctx.now B.CAP r) }
{
    if u64::from(line.field) != field {
        return Ok(m);
    }
    match line.key {
        KeyAt::At(key) => with_cell(alloc, ctx, key, line.given, &m),
        KeyAt::Whole | KeyAt::Rest => Ok(m),
    }
}

/// The map with what is given at a key.
fn with_cell<B: Base>(
    alloc: Global,
    ctx: &B::Ctx,
    key: u64,
    given: GivenNumber,
    m: &AbstractMap<B>,
) -> Result<AbstractMap<B>, NoMemory>
    requires map { Fits B.algebra ctx.now B.CAP m.now }
    requires key { key < 2 ^ 32 }
    requires given { GivenFits m.now.width given }
    ensures value { IfOk result (λ r. r ≡ cells.with_cell B.algebra ctx.now B.CAP (KeyAt.At key) given m.now) }
    ensures fits { IfOk result (λ r. Fits B.algebra ctx.now B.CAP r) }
{
    let cell = cell_of::<B>(alloc, ctx, m.width(), given)?;
    m.update(alloc, ctx, &KeySet::One(key), &cell.word, &cell.note)
}

/// The value of a word.
fn word_value<B: Base>(
    alloc: Global,
    ctx: &B::Ctx,
    w: u32,
    given: GivenNumber,
) -> Result<AbstractValue<B>, NoMemory>
    requires width { IsWidth w }
    requires given { GivenFits w given }
    ensures { IfOk result (λ r. abs r ≡ plain.word w (cells.given B.algebra ctx.now w given)) }
{
    Ok(AbstractValue::Word {
        w,
        x: word_of::<B>(alloc, ctx, w, given)?,
    })
}

/// The value of a map.
fn map_value<B: Base>(
    alloc: Global,
    ctx: &B::Ctx,
    map: u32,
    field: u64,
    w: u32,
    rest: GivenNumber,
    lines: &[Line],
) -> Result<AbstractValue<B>, NoMemory>
    requires width { IsWidth w }
    requires rest { GivenFits w rest }
    requires lines { OfKeys field w lines.now }
    ensures { IfOk result (λ r. abs r ≡ plain.map map (cells.with_cells B.algebra ctx.now B.CAP field lines.now (cells.map_of B.algebra ctx.now w rest))) }
{
    Ok(AbstractValue::Map {
        map,
        m: entry_map(alloc, ctx, field, w, rest, lines)?,
    })
}

/// The value of a field.
fn entry_value<B: Base>(
    alloc: Global,
    ctx: &B::Ctx,
    number: u64,
    field: Field,
    lines: &[Line],
) -> Result<AbstractValue<B>, NoMemory>
    requires right { IsField field }
    requires lines { OfField number field lines.now }
    ensures { IfOk result (λ r. abs r ≡ cells.entry_value B.algebra ctx.now B.CAP lines.now number field) }
{
    match field {
        Field::Word { w } => word_value(alloc, ctx, w, given_word(lines, number)),
        Field::Map {
            map,
            keys: _keys,
            width,
            default,
        } => {
            let rest = given_rest(lines, number, default);
            map_value(alloc, ctx, map, number, width, rest, lines)
        }
    }
}

/// The values of the fields behind the counter.
pub(crate) fn entry_values<B: Base>(
    alloc: Global,
    ctx: &B::Ctx,
    fields: &[Field],
    lines: &[Line],
) -> Result<Vec<AbstractValue<B>>, NoMemory>
    requires right { list_all is_field fields.now ≡ true }
    requires lines { LinesFit fields.now lines.now }
    ensures { IfOk result (λ r. parts (map abs r.items) ≡ cells.entry_values B.algebra ctx.now B.CAP lines.now 1 fields.now) }
{
    let mut out = Vec::with_capacity(alloc, fields.len())?;
    for i in 0..fields.len() {
        out = pushed(out, entry_value(alloc, ctx, i as u64 + 1, fields[i], lines))?;
    }
    Ok(out)
}
