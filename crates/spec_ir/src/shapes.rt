//! Types as shapes of matches.

ghost use Rattle.std.specs.Prelude.{◌≡◌, IfOk, map};
ghost use Rattle.spec_match_compiler.specs.Views.{types};
ghost use Rattle.spec_ir.specs.Environment.{field_types, shape_of, shapes_of};
ghost use Rattle.spec_ir.specs.Views.{case_of, data_of, environment};

use crate::declared::{Case, Data, Declarations};
use crate::names::field_types;
use crate::ty::Ty;
use spec_match_compiler::{Shape, Sig};
use std::alloc::{AllocError, Global};

/// What a match sees of a type.
pub fn shape(ty: Ty) -> Shape
    ensures { result ≡ shape_of ty }
{
    match ty {
        Ty::Bool => Shape::Bool,
        Ty::Word(w) => Shape::Word(w),
        Ty::Data(t) => Shape::Data(t),
        Ty::Map(_map) => Shape::Opaque,
    }
}

/// The shapes of the fields of all constructors.
pub fn shapes(alloc: Global, declarations: &Declarations) -> Result<Sig, AllocError>
    ensures { IfOk result (λ r. types r ≡ shapes_of (environment declarations.now)) }
{
    let mut datas = Vec::new(alloc);
    for data in &declarations.datas {
        datas.push(case_shapes(alloc, data)?)?;
    }
    Ok(Sig { datas })
}

/// The shapes of the fields of each constructor of a datatype.
fn case_shapes(alloc: Global, data: &Data) -> Result<Vec<Vec<Shape>>, AllocError>
    ensures { IfOk result (λ r. map (λ fields. fields.items) r.items ≡ map (λ c. map shape_of (field_types c)) (data_of data.now).cases) }
{
    let mut cases = Vec::new(alloc);
    for case in &data.cases {
        cases.push(field_shapes(alloc, case)?)?;
    }
    Ok(cases)
}

/// The shapes of the fields of a constructor.
fn field_shapes(alloc: Global, case: &Case) -> Result<Vec<Shape>, AllocError>
    ensures { IfOk result (λ r. r.items ≡ map shape_of (field_types (case_of case.now))) }
{
    let types = field_types(alloc, &case.fields)?;
    types.iter().map(|ty| shape(*ty)).collect(alloc)
}
