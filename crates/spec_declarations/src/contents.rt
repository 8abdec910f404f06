//! What datatypes hold.

ghost use Rattle.std.specs.Prelude.{◌≡◌, ◌++◌, IfOk, None, OnOk, Some, filter_map, map};
ghost use Rattle.spec_ir.specs.Answers.{Agrees};
ghost use Rattle.spec_declarations.specs.Counts as counts;
ghost use Rattle.spec_declarations.specs.Counts.{one_more, plain_cases, plain_fields, plain_with};
ghost use Rattle.spec_declarations.specs.Leaves as leaves;
ghost use Rattle.spec_declarations.specs.Leaves.{data_number};
ghost use Rattle.spec_declarations.specs.Views.{meanings};

use crate::type_names::Meaning;
use spec_ir::{SpecError, Ty};
use std::alloc::{AllocError, Global};
use support_lists::pushed;

/// For each datatype those that are types of its fields.
pub fn datatypes_in_fields(
    alloc: Global,
    datas: &[Vec<Vec<Meaning>>],
) -> Result<Vec<Vec<u32>>, AllocError>
    ensures { IfOk result (λ r. map (λ row. row.items) r.items ≡ map leaves.held (meanings datas.now)) }
{
    let mut graph = Vec::new(alloc);
    for cases in datas {
        graph = pushed(graph, datatypes_in_datatype(alloc, cases))?;
    }
    Ok(graph)
}

/// The datatypes that are types of fields of a datatype.
fn datatypes_in_datatype(alloc: Global, cases: &[Vec<Meaning>]) -> Result<Vec<u32>, AllocError>
    ensures { IfOk result (λ r. r.items ≡ leaves.held (map (λ c. c.items) cases.now)) }
{
    let mut held = Vec::new(alloc);
    for fields in cases {
        hold(&mut held, fields)?;
    }
    Ok(held)
}

/// The datatypes among the types of fields join those before them.
fn hold(held: &mut Vec<u32>, fields: &[Meaning]) -> Result<(), AllocError>
    ensures { OnOk result (held.new.items ≡ held.old.items ++ filter_map data_number fields.now) }
{
    for field in fields {
        if let Some(d) = number_of(*field) {
            held.push(d)?;
        }
    }
    Ok(())
}

/// The number of a datatype.
fn number_of(meaning: Meaning) -> Option<u32>
    ensures { result ≡ data_number meaning }
{
    match meaning {
        Meaning::Known(Ty::Data(d)) => Some(d),
        Meaning::Known(Ty::Bool) => None,
        Meaning::Known(Ty::Word(_)) => None,
        Meaning::Known(Ty::Map(_)) => None,
        Meaning::BadWidth => None,
        Meaning::Unknown => None,
    }
}

/// For each datatype its leaves but those of the datatypes in its fields; none where a type is
/// unknown.
pub fn plain(alloc: Global, datas: &[Vec<Vec<Meaning>>]) -> Result<Vec<Option<u32>>, SpecError>
    ensures answer { Agrees result None }
    ensures plain { IfOk result (λ r. r.items ≡ map counts.plain (meanings datas.now)) }
{
    let mut own = Vec::new(alloc);
    for cases in datas {
        own.push(plain_of(cases)?)?;
    }
    Ok(own)
}

/// Leaves of a datatype but those of the datatypes in its fields.
fn plain_of(cases: &[Vec<Meaning>]) -> Result<Option<u32>, SpecError>
    ensures answer { Agrees result None }
    ensures plain { IfOk result (λ r. r ≡ plain_cases (Some 0) (map (λ c. c.items) cases.now)) }
{
    let mut count = Some(0);
    for fields in cases {
        count = plain_in(one_more(count)?, fields)?;
    }
    Ok(count)
}

/// The leaves of fields join those before them.
fn plain_in(before: Option<u32>, fields: &[Meaning]) -> Result<Option<u32>, SpecError>
    ensures answer { Agrees result None }
    ensures plain { IfOk result (λ r. r ≡ plain_fields before fields.now) }
{
    let mut count = before;
    for field in fields {
        count = with_field(count, *field)?;
    }
    Ok(count)
}

/// The leaf of a field joins those before it.
fn with_field(count: Option<u32>, field: Meaning) -> Result<Option<u32>, SpecError>
    ensures answer { Agrees result None }
    ensures plain { IfOk result (λ r. r ≡ plain_with count field) }
{
    match field {
        Meaning::Known(Ty::Bool) => one_more(count),
        Meaning::Known(Ty::Word(_)) => one_more(count),
        Meaning::Known(Ty::Data(_)) => Ok(count),
        Meaning::Known(Ty::Map(_)) => one_more(count),
        Meaning::BadWidth => one_more(count),
        Meaning::Unknown => Ok(None),
    }
}

/// One leaf more. As many as 32 bits can't count take more memory than there is.
fn one_more(count: Option<u32>) -> Result<Option<u32>, SpecError>
    ensures answer { Agrees result None }
    ensures more { IfOk result (λ r. r ≡ one_more count) }
{
    match count {
        None => Ok(None),
        Some(n) => match n.checked_add(1) {
            Some(m) => Ok(Some(m)),
            None => Err(SpecError::NoMemory),
        },
    }
}
