//! Datatypes by the meanings of their fields' types.

ghost use Rattle.std.specs.Prelude.{◌≡◌, IfOk, map};
ghost use Rattle.syntax_parser.specs.View as view;
ghost use Rattle.spec_declarations.specs.Leaves as leaves;
ghost use Rattle.spec_declarations.specs.TypeNames.{type_named};
ghost use Rattle.spec_declarations.specs.Views.{meanings};

use crate::type_names::{Meaning, TypeNames};
use std::alloc::{AllocError, Global};
use support_lists::pushed;
use syntax_parser::tree::{CaseDecl, DataDecl, FieldDecl, Item};

/// The datatypes among items.
pub fn datatypes<'a>(alloc: Global, items: &'a [Item]) -> Result<Vec<&'a DataDecl>, AllocError>
    ensures { IfOk result (λ r. map (λ d. view.datatype d.now) r.items ≡ leaves.datatypes (map view.item items.now)) }
{
    let mut datas = Vec::new(alloc);
    for item in items {
        if let Item::Data(d) = item {
            datas.push(d)?;
        }
    }
    Ok(datas)
}

/// Datatypes by the meanings of their fields' types.
pub fn made_datatypes(
    alloc: Global,
    names: &TypeNames,
    datas: &[&DataDecl],
) -> Result<Vec<Vec<Vec<Meaning>>>, AllocError>
    ensures { IfOk result (λ r. meanings r.items ≡ map (leaves.made names.now) (map (λ d. view.datatype d.now) datas.now)) }
{
    let mut all = Vec::new(alloc);
    for d in datas {
        all = pushed(all, made_constructors(alloc, names, &d.cases))?;
    }
    Ok(all)
}

/// The constructors of a datatype.
fn made_constructors(
    alloc: Global,
    names: &TypeNames,
    cases: &[CaseDecl],
) -> Result<Vec<Vec<Meaning>>, AllocError>
    ensures { IfOk result (λ r. map (λ c. c.items) r.items ≡ map (λ c. map (λ f. type_named names.now f.ty.text) c.fields) (map view.constructor cases.now)) }
{
    let mut made = Vec::new(alloc);
    for c in cases {
        made = pushed(made, made_of_fields(alloc, names, &c.fields))?;
    }
    Ok(made)
}

/// What the types of fields mean.
fn made_of_fields(
    alloc: Global,
    names: &TypeNames,
    fields: &[FieldDecl],
) -> Result<Vec<Meaning>, AllocError>
    ensures { IfOk result (λ r. r.items ≡ map (λ f. type_named names.now f.ty.text) fields.now) }
{
    let mut meanings = Vec::new(alloc);
    for f in fields {
        meanings.push(names.meaning(&f.ty.text))?;
    }
    Ok(meanings)
}
