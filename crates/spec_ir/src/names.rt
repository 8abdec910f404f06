//! What names of functions and constructors mean.

ghost use Rattle.std.specs.Prelude.{◌≡◌, IfOk, map, option_map};
ghost use Rattle.spec_ir.specs.Environment.{function_named, key_type, value_type};
ghost use Rattle.spec_ir.specs.Views.{environment};
ghost use Rattle.spec_ir.specs.Scopes.{function_of};

use crate::declared::{Declarations, Signature};
use crate::texts::same;
use crate::ty::Ty;
use std::alloc::{AllocError, Global};
use syntax_lexer::Text;

/// A function by its number.
#[derive(Clone, Copy, Drop)]
pub struct Function<'a> {
    pub fun: usize,
    pub signature: &'a Signature,
}

/// A constructor by the number of its datatype and its own.
#[derive(Clone, Copy, Drop)]
pub struct Constructor<'a> {
    pub ty: usize,
    pub case: usize,
    pub fields: &'a [(Text, Ty)],
}

/// The function of a name.
pub fn function_named<'a>(declarations: &'a Declarations, name: &Text) -> Option<Function<'a>>
    ensures { option_map function_of result ≡ function_named (environment declarations.now) name.now }
{
    for (fun, signature) in declarations.funs.as_slice().iter().enumerate() {
        if same(&signature.name, name) {
            return Some(Function { fun, signature });
        }
    }
    None
}

/// The types of the fields of a constructor.
pub fn field_types(alloc: Global, fields: &[(Text, Ty)]) -> Result<Vec<Ty>, AllocError>
    ensures { IfOk result (λ r. r.items ≡ map (λ f. f.1) fields.now) }
{
    fields.iter().map(|f| f.1).collect(alloc)
}

/// The type of the keys of a map type.
pub fn key_type(declarations: &Declarations, map: u32) -> Ty
    ensures { result ≡ key_type (environment declarations.now) map }
{
    match declarations.maps.get(map as usize) {
        Some(d) => d.key,
        None => Ty::Bool,
    }
}

/// The type of the values of a map type.
pub fn value_type(declarations: &Declarations, map: u32) -> Ty
    ensures { result ≡ value_type (environment declarations.now) map }
{
    match declarations.maps.get(map as usize) {
        Some(d) => Ty::Word(d.width),
        None => Ty::Bool,
    }
}
