//! Tables of names, and counts.

ghost use Rattle.std.specs.Prelude.{◌≡◌, ◌++◌, ◌∷◌, [], IfOk, List, OnOk, length, map, not, true, ℕ};
ghost use Rattle.spec_ir.specs.Answers.{Agrees};
ghost use Rattle.spec_names.specs.Names as spec;

use indexmap::IndexSet;
use spec_ir::SpecError;
use std::alloc::{AllocFailed, Global};
use std::marker::Model;
use syntax_lexer::Text;
use syntax_parser::tree::{FieldDecl, Name, Span};

/// Most fields of a constructor, or parameters of a function.
const MOST_FIELDS: usize = 16;

/// Names in the order of their declaration. Contracts see it as the list of their texts.
#[derive(Drop)]
pub struct Names<'a> {
    texts: IndexSet<&'a str>,
}

impl<'a> Model for Names<'a> {
    ghost Value = { List (List ℕ) };

    ghost view = { λ names. map (λ text. text.now) names.texts.keys };
}

impl<'a> Names<'a> {
    /// No names.
    pub fn new(alloc: Global) -> Names<'a>
        ensures { result ≡ [] }
    {
        Names {
            texts: IndexSet::new(alloc),
        }
    }

    /// How many names there are.
    pub fn len(&self) -> usize
        ensures { result ≡ length self.now }
    {
        self.texts.len()
    }

    /// Puts a text behind the others, where it isn't one of them, and says whether it wasn't.
    #[tactic(auto, using(crate::proofs::Lists::any_of_map))]
    fn insert(&mut self, text: &'a str) -> Result<bool, AllocFailed<&'a str>>
        ensures added { IfOk result (λ added. added ≡ not (spec.has self.old text.now)) }
        ensures joined { IfOk result (λ added. added ≡ true → self.new ≡ self.old ++ text.now ∷ []) }
    {
        self.texts.insert(text)
    }

    /// Puts a name behind the others, where it isn't one of them.
    pub fn declare(&mut self, alloc: Global, name: &'a Name) -> Result<(), SpecError>
        ensures answer { Agrees result (spec.twice self.old name.now) }
        ensures joined { OnOk result (self.new ≡ self.old ++ name.now.text ∷ []) }
    {
        if self.insert(name.text.as_str())? {
            return Ok(());
        }
        Err(SpecError::Twice {
            span: name.span,
            name: name.text.copy(alloc)?,
        })
    }
}

/// An item is past a limit, by the count of those before it.
pub fn too_many(
    alloc: Global,
    limit: usize,
    before: usize,
    span: Span,
    what: &str,
) -> Result<(), SpecError>
    ensures { Agrees result (spec.too_many limit before span what.now) }
{
    if before < limit {
        return Ok(());
    }
    Err(SpecError::TooMany {
        span,
        what: Text::from_str(alloc, what)?,
    })
}

/// A name stands twice among these.
pub fn twice_among(alloc: Global, names: &[&Name]) -> Result<(), SpecError>
    ensures { Agrees result (spec.twice_among [] (map (λ n. n.now) names.now)) }
{
    let mut before = Names::new(alloc);
    for n in names {
        before.declare(alloc, n)?;
    }
    Ok(())
}

/// A field or parameter stands twice, or there are too many.
pub fn check_fields(alloc: Global, fields: &[FieldDecl]) -> Result<(), SpecError>
    ensures { Agrees result (spec.fields_fault [] fields.now) }
{
    let mut before = Names::new(alloc);
    for f in fields {
        let count = before.len();
        before.declare(alloc, &f.name)?;
        too_many(alloc, MOST_FIELDS, count, f.span, "fields")?;
    }
    Ok(())
}
