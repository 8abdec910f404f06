//! The second pass: faults of types.

ghost use Rattle.std.specs.Prelude.{◌≡◌, ◌+◌, ◌<◌, ◌^◌, IfOk, None, false, map, nat_lt, slice_get, slice_index_or};
ghost use Rattle.std.specs.List.{list_all};
ghost use Rattle.syntax_parser.specs.View as view;
ghost use Rattle.spec_ir.specs.Answers.{Agrees};
ghost use Rattle.spec_declarations.specs.Types as spec;

use crate::known::Facts;
use crate::type_names::{Meaning, TypeNames};
use spec_ir::{SpecError, Ty, number_text};
use std::alloc::Global;
use syntax_lexer::Text;
use syntax_parser::tree::{CaseDecl, DataDecl, FieldDecl, FunDecl, Item, MapDecl, Name};

/// A name of no type, or of a word that there isn't.
fn name_fault(alloc: Global, name: &Name, meaning: Meaning) -> Result<(), SpecError>
    ensures { Agrees result (spec.name_fault name.now meaning) }
{
    match meaning {
        Meaning::Known(_) => Ok(()),
        Meaning::BadWidth => Err(bad_width(alloc, name)?),
        Meaning::Unknown => Err(SpecError::Unknown {
            span: name.span,
            name: name.text.copy(alloc)?,
        }),
    }
}

/// A word that there isn't, or that is too wide.
fn bad_width(alloc: Global, name: &Name) -> Result<SpecError, SpecError>
    ensures answer { Agrees result None }
    ensures error { IfOk result (λ e. e ≡ SpecError.BadWidth name.now.span name.now.text) }
{
    Ok(SpecError::BadWidth {
        span: name.span,
        shown: name.text.copy(alloc)?,
    })
}

/// A type of another kind than the one that is wanted.
fn kind_fault(alloc: Global, want: &str, name: &Name) -> Result<(), SpecError>
    ensures { Agrees result (spec.kind_fault want.now name.now) }
{
    Err(SpecError::Mismatch {
        span: name.span,
        want: Text::from_str(alloc, want)?,
        got: name.text.copy(alloc)?,
    })
}

fn named_fault(alloc: Global, names: &TypeNames, name: &Name) -> Result<(), SpecError>
    ensures { Agrees result (spec.named_fault names.now name.now) }
{
    name_fault(alloc, name, names.meaning(&name.text))
}

/// Types of fields or parameters.
fn field_types_fault(
    alloc: Global,
    names: &TypeNames,
    fields: &[FieldDecl],
) -> Result<(), SpecError>
    ensures { Agrees result (spec.field_types_fault names.now fields.now) }
{
    for f in fields {
        named_fault(alloc, names, &f.ty)?;
    }
    Ok(())
}

/// Types of the fields of constructors.
fn case_types_fault(alloc: Global, names: &TypeNames, cases: &[CaseDecl]) -> Result<(), SpecError>
    ensures { Agrees result (spec.case_types_fault names.now (map view.constructor cases.now)) }
{
    for c in cases {
        field_types_fault(alloc, names, &c.fields)?;
    }
    Ok(())
}

/// A datatype that contains itself or has too many leaves, and the types of its fields.
fn datatype_fault(
    alloc: Global,
    names: &TypeNames,
    recursive: bool,
    large: bool,
    d: &DataDecl,
) -> Result<(), SpecError>
    ensures { Agrees result (spec.datatype_fault names.now recursive large (view.datatype d.now)) }
{
    if recursive {
        return Err(SpecError::RecursiveType {
            span: d.name.span,
            name: d.name.text.copy(alloc)?,
        });
    }
    if large {
        return Err(SpecError::TooMany {
            span: d.name.span,
            what: Text::from_str(alloc, "leaves")?,
        });
    }
    case_types_fault(alloc, names, &d.cases)
}

/// Types of parameters, and that of the result.
fn function_fault(alloc: Global, names: &TypeNames, f: &FunDecl) -> Result<(), SpecError>
    ensures { Agrees result (spec.function_fault names.now (view.function f.now)) }
{
    field_types_fault(alloc, names, &f.params)?;
    named_fault(alloc, names, &f.result)
}

/// A value of a map is a word.
fn value_fault(alloc: Global, name: &Name, meaning: Meaning) -> Result<(), SpecError>
    ensures { Agrees result (spec.value_fault name.now meaning) }
{
    match meaning {
        Meaning::Known(Ty::Word(_)) => Ok(()),
        Meaning::Known(Ty::Bool) => kind_fault(alloc, "word", name),
        Meaning::Known(Ty::Data(_)) => kind_fault(alloc, "word", name),
        Meaning::Known(Ty::Map(_)) => kind_fault(alloc, "word", name),
        Meaning::BadWidth => Ok(()),
        Meaning::Unknown => Ok(()),
    }
}

/// A default is a word of its map's values.
fn default_fault(alloc: Global, m: &MapDecl, meaning: Meaning) -> Result<(), SpecError>
    ensures { Agrees result (spec.default_fault m.now meaning) }
{
    match meaning {
        Meaning::Known(Ty::Word(w)) => width_fault(alloc, m, w),
        Meaning::Known(Ty::Bool) => Ok(()),
        Meaning::Known(Ty::Data(_)) => Ok(()),
        Meaning::Known(Ty::Map(_)) => Ok(()),
        Meaning::BadWidth => Ok(()),
        Meaning::Unknown => Ok(()),
    }
}

/// A default is below 2 to the width.
fn width_fault(alloc: Global, m: &MapDecl, w: u32) -> Result<(), SpecError>
    ensures { Agrees result (spec.width_fault m.now w) }
{
    if fits(m.default.v, w) {
        return Ok(());
    }
    Err(SpecError::BadWidth {
        span: m.span,
        shown: number_text(alloc, m.default.v)?,
    })
}

/// Whether a number is below 2 to a width.
fn fits(v: u64, w: u32) -> bool
    ensures { result ≡ nat_lt v (2 ^ w) }
{
    if w >= 64 {
        return true;
    }
    v < 1 << w
}

/// A key is a word of at most 32 bits or an enumeration.
fn key_fault(
    alloc: Global,
    datas: &[&DataDecl],
    name: &Name,
    meaning: Meaning,
) -> Result<(), SpecError>
    ensures { Agrees result (spec.key_fault (map (λ d. view.datatype d.now) datas.now) name.now meaning) }
{
    match meaning {
        Meaning::Known(Ty::Word(w)) => key_width_fault(alloc, name, w),
        Meaning::Known(Ty::Data(d)) => key_data_fault(alloc, datas, name, d),
        Meaning::Known(Ty::Bool) => kind_fault(alloc, "key", name),
        Meaning::Known(Ty::Map(_)) => kind_fault(alloc, "key", name),
        Meaning::BadWidth => Ok(()),
        Meaning::Unknown => Ok(()),
    }
}

/// A key that is a word has at most 32 bits.
fn key_width_fault(alloc: Global, name: &Name, w: u32) -> Result<(), SpecError>
    ensures { Agrees result (spec.key_width_fault name.now w) }
{
    if w <= 32 {
        return Ok(());
    }
    Err(bad_width(alloc, name)?)
}

/// A key that is a datatype is an enumeration.
fn key_data_fault(alloc: Global, datas: &[&DataDecl], name: &Name, d: u32) -> Result<(), SpecError>
    ensures { Agrees result (spec.key_data_fault (map (λ d. view.datatype d.now) datas.now) name.now d) }
{
    if is_enumeration(datas, d) {
        return Ok(());
    }
    kind_fault(alloc, "key", name)
}

/// Whether a datatype is an enumeration: its constructors have no fields.
fn is_enumeration(datas: &[&DataDecl], d: u32) -> bool
    ensures { result ≡ spec.is_enumeration (slice_get (map (λ d. view.datatype d.now) datas.now) d) }
{
    match datas.get(d as usize) {
        Some(d) => have_no_fields(&d.cases),
        None => false,
    }
}

fn have_no_fields(cases: &[CaseDecl]) -> bool
    ensures { result ≡ list_all spec.no_fields (map view.constructor cases.now) }
{
    for c in cases {
        if c.fields.len() > 0 {
            return false;
        }
    }
    true
}

/// The key, the value and the default of a map type.
fn map_fault(
    alloc: Global,
    names: &TypeNames,
    datas: &[&DataDecl],
    m: &MapDecl,
) -> Result<(), SpecError>
    ensures { Agrees result (spec.map_fault names.now (map (λ d. view.datatype d.now) datas.now) m.now) }
{
    let key = names.meaning(&m.key.text);
    name_fault(alloc, &m.key, key)?;
    key_fault(alloc, datas, &m.key, key)?;
    let value = names.meaning(&m.value.text);
    name_fault(alloc, &m.value, value)?;
    value_fault(alloc, &m.value, value)?;
    default_fault(alloc, m, value)
}

/// The first fault of types.
pub fn types_fault(
    alloc: Global,
    names: &TypeNames,
    datas: &[&DataDecl],
    facts: &Facts,
    items: &[Item],
) -> Result<(), SpecError>
    ensures { Agrees result (spec.items_types_fault names.now (map (λ d. view.datatype d.now) datas.now) facts.now.recursive.items
        facts.now.large.items 0 (map view.item items.now)) }
{
    let mut d = 0;
    for item in items {
        item_fault(alloc, names, datas, facts, d, item)?;
        d = datatypes_behind(d, item);
    }
    Ok(())
}

/// How many datatypes there are behind an item.
fn datatypes_behind(d: usize, item: &Item) -> usize
    requires { d + 1 < 2 ^ 64 }
    ensures { result ≡ spec.behind d (view.item item.now) }
{
    match item {
        Item::Data(_) => d + 1,
        Item::Map(_) => d,
        Item::Fun(_) => d,
        Item::Decode(_) => d,
    }
}

/// The first fault of types in an item.
fn item_fault(
    alloc: Global,
    names: &TypeNames,
    datas: &[&DataDecl],
    facts: &Facts,
    d: usize,
    item: &Item,
) -> Result<(), SpecError>
    ensures { Agrees result (spec.item_types_fault names.now (map (λ d. view.datatype d.now) datas.now) facts.now.recursive.items
        facts.now.large.items d (view.item item.now)) }
{
    match item {
        Item::Data(x) => {
            datatype_fault(
                alloc,
                names,
                flag(&facts.recursive, d),
                flag(&facts.large, d),
                x,
            )
        }
        Item::Map(m) => map_fault(alloc, names, datas, m),
        Item::Fun(f) => function_fault(alloc, names, f),
        Item::Decode(_) => Ok(()),
    }
}

/// A flag by its place.
fn flag(flags: &[bool], d: usize) -> bool
    ensures { result ≡ slice_index_or flags.now d false }
{
    flags.get(d).copied().unwrap_or(false)
}
