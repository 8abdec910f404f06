//! What items declare.

ghost use Rattle.std.specs.Prelude.{◌≡◌, ◌++◌, ◌∷◌, IfOk, List, OnOk, map};
ghost use Rattle.syntax_parser.specs.Tree as t;
ghost use Rattle.syntax_parser.specs.View as view;
ghost use Rattle.spec_ir.specs.Views.{case_of, data_of, environment, signature_of};
ghost use Rattle.spec_declarations.specs.Declarations as spec;

use crate::type_names::{Meaning, TypeNames};
use spec_ir::{Case, Data, Declarations, MapType, Signature, Ty};
use std::alloc::{AllocError, Global};
use support_lists::pushed;
use syntax_lexer::Text;
use syntax_parser::tree::{CaseDecl, DataDecl, FieldDecl, FunDecl, Item, MapDecl, Name};

/// What items declare.
pub fn declare(alloc: Global, names: &TypeNames, items: &[Item]) -> Result<Declarations, AllocError>
    ensures datas { IfOk result (λ r. map data_of r.datas.items ≡ spec.datas_from names.now (map view.item items.now)) }
    ensures maps { IfOk result (λ r. r.maps.items ≡ spec.maps_from names.now (map view.item items.now)) }
    ensures funs { IfOk result (λ r. map signature_of r.funs.items ≡ spec.signatures_from names.now (map view.item items.now)) }
{
    let mut declared = Declarations {
        datas: Vec::new(alloc),
        maps: Vec::new(alloc),
        funs: Vec::new(alloc),
    };
    for item in items {
        declare_item(alloc, names, &mut declared, item)?;
    }
    Ok(declared)
}

/// An item joins what was declared before.
#[tactic(auto, using(std::proofs::lemmas::List::append_assoc, std::proofs::lemmas::List::map_push))]
fn declare_item(
    alloc: Global,
    names: &TypeNames,
    before: &mut Declarations,
    declaration: &Item,
) -> Result<(), AllocError>
    ensures datas { OnOk result ((rest : List t.Item) → map data_of before.new.datas.items ++ spec.datas_from names.now rest
        ≡ map data_of before.old.datas.items ++ spec.datas_from names.now (view.item declaration.now ∷ rest)) }
    ensures maps { OnOk result ((rest : List t.Item) → before.new.maps.items ++ spec.maps_from names.now rest
        ≡ before.old.maps.items ++ spec.maps_from names.now (view.item declaration.now ∷ rest)) }
    ensures funs { OnOk result ((rest : List t.Item) → map signature_of before.new.funs.items ++ spec.signatures_from names.now rest
        ≡ map signature_of before.old.funs.items ++ spec.signatures_from names.now (view.item declaration.now ∷ rest)) }
{
    match declaration {
        Item::Data(d) => before.datas.push(data(alloc, names, d)?)?,
        Item::Map(m) => before.maps.push(map_ty(alloc, names, m)?)?,
        Item::Fun(f) => before.funs.push(signature(alloc, names, f)?)?,
        Item::Decode(_) => {}
    }
    Ok(())
}

/// The type of a name, where it has one.
pub fn type_in(names: &TypeNames, name: &Name) -> Ty
    ensures { result ≡ spec.type_in names.now name.now }
{
    match names.meaning(&name.text) {
        Meaning::Known(ty) => ty,
        Meaning::BadWidth => Ty::Bool,
        Meaning::Unknown => Ty::Bool,
    }
}

/// A datatype.
fn data(alloc: Global, names: &TypeNames, d: &DataDecl) -> Result<Data, AllocError>
    ensures { IfOk result (λ r. data_of r ≡ spec.data_declared names.now (view.datatype d.now)) }
{
    Ok(Data {
        name: d.name.text.copy(alloc)?,
        cases: cases(alloc, names, &d.cases)?,
    })
}

/// Constructors.
fn cases(alloc: Global, names: &TypeNames, cases: &[CaseDecl]) -> Result<Vec<Case>, AllocError>
    ensures { IfOk result (λ r. map case_of r.items ≡ map (spec.case_declared names.now) (map view.constructor cases.now)) }
{
    let mut declared = Vec::new(alloc);
    for c in cases {
        declared = pushed(declared, case(alloc, names, c))?;
    }
    Ok(declared)
}

/// A constructor.
fn case(alloc: Global, names: &TypeNames, c: &CaseDecl) -> Result<Case, AllocError>
    ensures { IfOk result (λ r. case_of r ≡ spec.case_declared names.now (view.constructor c.now)) }
{
    Ok(Case {
        name: c.name.text.copy(alloc)?,
        fields: fields(alloc, names, &c.fields)?,
    })
}

/// Fields with their types.
fn fields(
    alloc: Global,
    names: &TypeNames,
    fields: &[FieldDecl],
) -> Result<Vec<(Text, Ty)>, AllocError>
    ensures { IfOk result (λ r. r.items ≡ map (spec.field_in names.now) fields.now) }
{
    let mut declared = Vec::new(alloc);
    for f in fields {
        declared = pushed(declared, field(alloc, names, f))?;
    }
    Ok(declared)
}

/// A field with its type.
fn field(alloc: Global, names: &TypeNames, f: &FieldDecl) -> Result<(Text, Ty), AllocError>
    ensures { IfOk result (λ r. r ≡ spec.field_in names.now f.now) }
{
    Ok((f.name.text.copy(alloc)?, type_in(names, &f.ty)))
}

/// What a map type declares; the width is 0 where its cells are no words.
fn map_ty(alloc: Global, names: &TypeNames, m: &MapDecl) -> Result<MapType, AllocError>
    ensures { IfOk result (λ r. r ≡ spec.map_declared names.now m.now) }
{
    Ok(MapType {
        name: m.name.text.copy(alloc)?,
        key: type_in(names, &m.key),
        width: width(type_in(names, &m.value)),
        default: m.default.v,
    })
}

/// The width of a word's type in bits; of another type, 0.
fn width(ty: Ty) -> u32
    ensures { result ≡ spec.width_or ty }
{
    match ty {
        Ty::Word(w) => w,
        Ty::Bool => 0,
        Ty::Data(_) => 0,
        Ty::Map(_) => 0,
    }
}

/// A function's name, the types of its parameters and its result.
fn signature(alloc: Global, names: &TypeNames, f: &FunDecl) -> Result<Signature, AllocError>
    ensures { IfOk result (λ r. signature_of r ≡ spec.signature_declared names.now (view.function f.now)) }
{
    Ok(Signature {
        name: f.name.text.copy(alloc)?,
        params: parameters(alloc, names, &f.params)?,
        result: type_in(names, &f.result),
    })
}

/// The types of parameters.
fn parameters(alloc: Global, names: &TypeNames, fields: &[FieldDecl]) -> Result<Vec<Ty>, AllocError>
    ensures { IfOk result (λ r. r.items ≡ map (λ p. spec.type_in names.now p.ty) fields.now) }
{
    let mut types = Vec::new(alloc);
    for f in fields {
        types.push(type_in(names, &f.ty))?;
    }
    Ok(types)
}
