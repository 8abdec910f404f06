//! What terms may name.

ghost use Rattle.std.specs.Prelude.{◌≡◌, IfOk, option_map};
ghost use Rattle.spec_match_compiler.specs.Views.{pat, types};
ghost use Rattle.spec_ir.specs.Environment as e;
ghost use Rattle.spec_ir.specs.Environment.{constructor_named, function_named, key_type, shapes_of, value_type};
ghost use Rattle.spec_ir.specs.Scopes.{constructor_of, function_of};
ghost use Rattle.spec_ir.specs.Texts as texts;
ghost use Rattle.spec_ir.specs.Views.{environment};

use crate::declared::Declarations;
use crate::names::{Constructor, Function, function_named, key_type, value_type};
use crate::pattern_texts::pattern_text;
use crate::shapes::shapes;
use crate::table::constructors;
use crate::texts::type_text;
use crate::ty::Ty;
use spec_match_compiler::{Pattern, Sig};
use std::alloc::{AllocError, Global};
use std::collections::BTreeMap;
use std::marker::Model;
use syntax_lexer::Text;

/// The declarations of a specification, with what is looked up in them. Contracts see what is
/// declared.
#[derive(Drop)]
pub struct Environment<'a> {
    declarations: &'a Declarations,
    shapes: Sig,
    constructors: BTreeMap<&'a str, Constructor<'a>>,
}

impl<'a> Model for Environment<'a> {
    ghost use Rattle.spec_ir.specs.Environment as e;

    ghost Value = { e.Environment };

    ghost use Rattle.spec_ir.specs.Ready.{declared_of, IsReady};

    ghost view = { declared_of };

    ghost invariant = { IsReady };
}

impl<'a> Environment<'a> {
    /// What is declared, made ready for look-ups.
    pub fn new(alloc: Global, declarations: &'a Declarations) -> Result<Environment<'a>, AllocError>
        ensures { IfOk result (λ r. r ≡ environment declarations.now) }
    {
        Ok(Environment {
            declarations,
            shapes: shapes(alloc, declarations)?,
            constructors: constructors(alloc, declarations)?,
        })
    }

    /// The function of a name.
    pub fn function(&self, name: &Text) -> Option<Function<'a>>
        ensures { option_map function_of result ≡ function_named self.now name.now }
    {
        function_named(self.declarations, name)
    }

    /// The constructor of a name.
    pub fn constructor(&self, name: &Text) -> Option<Constructor<'a>>
        ensures { option_map constructor_of result ≡ constructor_named self.now name.now }
    {
        self.constructors.get(name.as_str()).copied()
    }

    /// The type of the keys of a map type.
    pub fn key_type(&self, map: u32) -> Ty
        ensures { result ≡ key_type self.now map }
    {
        key_type(self.declarations, map)
    }

    /// The type of the values of a map type.
    pub fn value_type(&self, map: u32) -> Ty
        ensures { result ≡ value_type self.now map }
    {
        value_type(self.declarations, map)
    }

    /// The name of a type.
    pub fn type_text(&self, alloc: Global, ty: Ty) -> Result<Text, AllocError>
        ensures { IfOk result (λ t. t ≡ texts.type_text self.now ty) }
    {
        type_text(alloc, self.declarations, ty)
    }

    /// An example, where values have a type.
    pub fn pattern_text(&self, alloc: Global, ty: Ty, p: &Pattern) -> Result<Text, AllocError>
        ensures { IfOk result (λ t. t ≡ texts.pattern_text self.now ty (pat p.now)) }
    {
        pattern_text(alloc, self.declarations, ty, p)
    }

    /// The shapes of the fields of all constructors, as matches see them.
    pub fn shapes(&self) -> &Sig
        ensures { types result.now ≡ shapes_of self.now }
    {
        &self.shapes
    }
}
