//! Names in scope.

ghost use Rattle.std.specs.Prelude.{◌≡◌, [], ◌∷◌, ◌++◌, OnOk, length, option_map, take};
ghost use Rattle.spec_ir.specs.Environment.{variable_named};
ghost use Rattle.spec_ir.specs.Scopes.{variable_of};

use crate::texts::same;
use crate::ty::Ty;
use std::alloc::{AllocError, Global};
use std::marker::Model;
use syntax_lexer::Text;

/// A name in scope, with its type.
#[derive(Clone, Copy, Drop)]
struct Binding<'a> {
    name: &'a Text,
    ty: Ty,
}

/// A variable: its place in the scope, outermost first, and its type.
#[derive(Clone, Copy, Drop)]
pub struct Variable {
    pub place: usize,
    pub ty: Ty,
}

/// The names in scope, outermost first. Contracts see the list of names and types.
#[derive(Drop)]
pub struct Scope<'a> {
    bindings: Vec<Binding<'a>>,
}

impl<'a> Model for Scope<'a> {
    ghost use Rattle.spec_ir.specs.Environment as e;

    ghost Value = { e.Scope };

    ghost use Rattle.spec_ir.specs.Bindings.{bindings_of};

    ghost view = { bindings_of };
}

impl<'a> Scope<'a> {
    /// No names.
    pub fn new(alloc: Global) -> Scope<'a>
        ensures { result ≡ [] }
    {
        Scope {
            bindings: Vec::new(alloc),
        }
    }

    /// How many names are in scope.
    pub fn depth(&self) -> usize
        ensures { result ≡ length self.now }
    {
        self.bindings.len()
    }

    /// A name enters.
    pub fn enter(&mut self, name: &'a Text, ty: Ty) -> Result<(), AllocError>
        ensures { OnOk result (self.new ≡ self.old ++ (name.now, ty) ∷ []) }
    {
        self.bindings.push(Binding { name, ty })?;
        Ok(())
    }

    /// All names but the outermost `depth` leave.
    pub fn leave(&mut self, depth: usize)
        ensures { self.new ≡ take depth self.old }
    {
        self.bindings.truncate(depth);
    }

    /// The innermost variable of a name.
    pub fn innermost(&self, name: &Text) -> Option<Variable>
        ensures { option_map variable_of result ≡ variable_named self.now name.now }
    {
        let mut found = None;
        for (place, b) in self.bindings.as_slice().iter().enumerate() {
            if same(b.name, name) {
                found = Some(Variable { place, ty: b.ty });
            }
        }
        found
    }
}
