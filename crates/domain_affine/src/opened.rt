//! The state value of an element.

ghost use Rattle.std.specs.Prelude.{◌≡◌, ◌++◌, [], IfOk, OnOk, map, unwrap_or};
ghost use Rattle.std.specs.List.{range_with_len};
ghost use Rattle.std.specs.Option.{option_copied};
ghost use Rattle.domain_affine_element_laws.specs.Tracked.{map_cells};
ghost use Rattle.domain_affine_base.specs.Meaning.{affine};
ghost use Rattle.domain_affine_base.specs.declared.word.Word.TheVariants.{Any, Const};
ghost use Rattle.abstract_value_laws.specs.Abs.{parts, parts_onto};
ghost use Rattle.semantics_values.specs.declared.entry.KeyAt.TheVariants.{At};
ghost use Rattle.abstract_map_laws.specs.Maps.{Fits as MapFits};
ghost use Rattle.abstract_value_laws.specs.Fits.{Fits, PartsFit};
ghost use Rattle.domain_laws.specs.Calls.{made_state};
ghost use Rattle.domain_affine_laws.specs.Opened as calls;
ghost use Rattle.abstract_value.specs.View.{abs};

use abstract_map::AbstractMap;
use abstract_map_laws::AbstractCell;
use abstract_value::{AbstractValue, one_case};
use base_trait::Base;
use domain_affine_base::{Affine, Tracked, Word};
use domain_affine_elements::open_cell;
use domain_cells::is_key;
use domain_laws::Field;
use semantics_values::KeyAt;
use std::alloc::{AllocError as NoMemory, Global};
use support_modular_rows::Rows;

/// The words of the k tracked cells, in their order.
pub(crate) fn opened_words(alloc: Global, k: u32, x: &Rows) -> Result<Vec<Word>, NoMemory>
    requires cells { x.now.k ≡ k }
    ensures { IfOk result (λ r. r.items ≡ calls.opened_words k x.now.rows) }
{
    let mut words = Vec::new(alloc);
    for cell in 0..k {
        words.push(open_cell(alloc, k, x, cell)?)?;
    }
    Ok(words)
}

/// Whether the cell is that of the key in field number n.
fn is_cell(cell: (u32, KeyAt), n: u64, key: KeyAt) -> bool
    ensures { result ≡ calls.is_cell cell n key }
{
    u64::from(cell.0) == n && is_key(cell.1, key)
}

/// The word of a cell among tracked ones.
fn tracked_word<'a>(
    cells: &[(u32, KeyAt)],
    words: &'a [Word],
    n: u64,
    key: KeyAt,
) -> Option<&'a Word>
    ensures { option_copied result ≡ calls.tracked_word cells.now words.now n key }
{
    for i in 0..cells.len().min(words.len()) {
        if is_cell(cells[i], n, key) {
            return Some(&words[i]);
        }
    }
    None
}

/// The same word once more, or any.
fn word_or_any(alloc: Global, ctx: &Tracked, word: Option<&Word>) -> Result<Word, NoMemory>
    ensures { IfOk result (λ r. r ≡ unwrap_or (option_copied word.entry) Any) }
{
    match word {
        Some(x) => Affine::copy(alloc, ctx, x),
        None => Ok(Word::Any),
    }
}

/// The cell of a key behind others, where the key is tracked.
fn push_cell(
    alloc: Global,
    ctx: &Tracked,
    out: &mut Vec<(u64, AbstractCell<Word, ()>)>,
    key: u64,
    word: Option<&Word>,
) -> Result<(), NoMemory>
    ensures { OnOk result (out.new.items ≡ out.old.items ++ calls.listed_cell (At key) (option_copied word.entry) []) }
{
    if let Some(x) = word {
        let word = Affine::copy(alloc, ctx, x)?;
        out.push((key, AbstractCell { word, note: () }))?;
    }
    Ok(())
}

/// The cells that a map lists: those of its keys that are tracked.
fn opened_cells(
    alloc: Global,
    ctx: &Tracked,
    words: &[Word],
    n: u64,
    keys: u64,
) -> Result<Vec<(u64, AbstractCell<Word, ()>)>, NoMemory>
    ensures { IfOk result (λ r. r.items ≡ calls.opened_cells ctx.now words.now n (map At (range_with_len 0 keys))) }
{
    let mut out = Vec::new(alloc);
    for k in 0..keys {
        let word = tracked_word(&ctx.cells, words, n, KeyAt::At(k));
        push_cell(alloc, ctx, &mut out, k, word)?;
    }
    Ok(out)
}

/// The cells that a map lists; none where its keys cannot be tracked.
fn listed_cells(
    alloc: Global,
    ctx: &Tracked,
    words: &[Word],
    n: u64,
    keys: u64,
    width: u32,
) -> Result<Vec<(u64, AbstractCell<Word, ()>)>, NoMemory>
    ensures { IfOk result (λ r. r.items ≡ calls.opened_cells ctx.now words.now n (map_cells keys width)) }
{
    if width == 32 && keys <= 64 {
        opened_cells(alloc, ctx, words, n, keys)
    } else {
        Ok(Vec::new(alloc))
    }
}

/// The map of these cells, whose rest is any.
fn opened_map(
    alloc: Global,
    ctx: &Tracked,
    width: u32,
    cells: Vec<(u64, AbstractCell<Word, ()>)>,
) -> Result<AbstractMap<Affine>, NoMemory>
    requires fits { MapFits affine ctx.now 256 (record { width = width; rest = calls.noted Any; cells = cells.items }) }
    ensures { IfOk result (λ r. r ≡ record { width = width; rest = calls.noted Any; cells = cells.items }) }
{
    let rest = AbstractCell {
        word: Word::Any,
        note: (),
    };
    AbstractMap::of_cells(alloc, ctx, width, rest, cells)
}

/// The value of field number n.
fn opened_value(
    alloc: Global,
    ctx: &Tracked,
    words: &[Word],
    n: u64,
    field: Field,
) -> Result<AbstractValue<Affine>, NoMemory>
    requires fits { Fits affine ctx.now 256 (calls.opened_value ctx.now words.now n field) }
    ensures { IfOk result (λ r. abs r ≡ calls.opened_value ctx.now words.now n field) }
{
    match field {
        Field::Word { w } => {
            let word = tracked_word(&ctx.cells, words, n, KeyAt::Whole);
            Ok(AbstractValue::Word {
                w,
                x: word_or_any(alloc, ctx, word)?,
            })
        }
        Field::Map {
            map,
            keys,
            width,
            default: _default,
        } => {
            let cells = listed_cells(alloc, ctx, words, n, keys, width)?;
            Ok(AbstractValue::Map {
                map,
                m: opened_map(alloc, ctx, width, cells)?,
            })
        }
    }
}

/// The state value at an address where the tracked cells have these words.
pub(crate) fn open_state(
    alloc: Global,
    ctx: &Tracked,
    number: u32,
    fields: &[Field],
    pc: u32,
    words: &[Word],
) -> Result<AbstractValue<Affine>, NoMemory>
    requires fits { PartsFit affine ctx.now 256 (calls.opened_values ctx.now words.now 1 fields.now) }
    ensures { IfOk result (λ r. abs r ≡ made_state number (Const pc) (calls.opened_values ctx.now words.now 1 fields.now)) }
{
    let mut values = Vec::new(alloc);
    values.push(AbstractValue::Word {
        w: 32,
        x: Word::Const(u64::from(pc)),
    })?;
    push_values(alloc, ctx, &mut values, words, fields)?;
    let cases = one_case(alloc, 1, 0, values)?;
    Ok(AbstractValue::Data { ty: number, cases })
}

/// The values of the fields behind the counter, behind others.
fn push_values(
    alloc: Global,
    ctx: &Tracked,
    out: &mut Vec<AbstractValue<Affine>>,
    words: &[Word],
    fields: &[Field],
) -> Result<(), NoMemory>
    requires fits { PartsFit affine ctx.now 256 (calls.opened_values ctx.now words.now 1 fields.now) }
    ensures { OnOk result (parts (map abs out.new.items) ≡ parts_onto (map abs out.old.items) (calls.opened_values ctx.now words.now 1 fields.now)) }
{
    for i in 0..fields.len() {
        out.push(opened_value(alloc, ctx, words, i as u64 + 1, fields[i])?)?;
    }
    Ok(())
}
