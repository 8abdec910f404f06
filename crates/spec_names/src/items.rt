//! Declarations.

ghost use Rattle.std.specs.Prelude.{◌≡◌, [], ◌++◌, OnOk, filter_map, map};
ghost use Rattle.syntax_parser.specs.View as view;
ghost use Rattle.spec_ir.specs.Answers.{Agrees};
ghost use Rattle.spec_names.specs.Names as spec;
ghost use Rattle.spec_names.specs.Views.{seen};

use crate::names::{Names, check_fields, too_many, twice_among};
use crate::patterns::check_patterns;
use spec_ir::SpecError;
use std::alloc::Global;
use syntax_lexer::Text;
use syntax_parser::tree::{CaseDecl, Item, PartDecl, RowDecl, Tree};

/// Most types and map types together.
const MOST_TYPES: usize = 256;

/// Most constructors of a type.
const MOST_CONSTRUCTORS: usize = 512;

/// Most functions.
const MOST_FUNCTIONS: usize = 1024;

/// Most decode rows.
const MOST_ROWS: usize = 512;

/// What was declared before.
#[derive(Drop)]
struct Seen<'a> {
    types: Names<'a>,
    cases: Names<'a>,
    funs: Names<'a>,
    decodes: bool,
}

/// The first fault of names and counts.
pub fn check_names(alloc: Global, tree: &Tree) -> Result<(), SpecError>
    ensures { Agrees result (spec.names_fault (view.tree tree.now)) }
{
    let mut seen = Seen {
        types: Names::new(alloc),
        cases: Names::new(alloc),
        funs: Names::new(alloc),
        decodes: false,
    };
    check_items(alloc, &mut seen, &tree.items)
}

/// The first fault of items behind what was declared before.
fn check_items<'a>(alloc: Global, before: &mut Seen<'a>, items: &'a [Item]) -> Result<(), SpecError>
    ensures { Agrees result (spec.items_fault (seen before.old) (map view.item items.now)) }
{
    for item in items {
        check_item(alloc, before, item)?;
    }
    Ok(())
}

/// The first fault of an item behind what was declared before, which it joins.
fn check_item<'a>(alloc: Global, before: &mut Seen<'a>, item: &'a Item) -> Result<(), SpecError>
    ensures answer { Agrees result (spec.item_fault (seen before.old) (view.item item.now)) }
    ensures joined { OnOk result (seen before.new ≡ spec.seen_with (seen before.old) (view.item item.now)) }
{
    match item {
        Item::Data(d) => {
            let count = before.types.len();
            before.types.declare(alloc, &d.name)?;
            check_cases(alloc, &mut before.cases, &d.cases)?;
            too_many(alloc, MOST_TYPES, count, d.span, "types")
        }
        Item::Map(m) => {
            let count = before.types.len();
            before.types.declare(alloc, &m.name)?;
            too_many(alloc, MOST_TYPES, count, m.span, "types")
        }
        Item::Fun(f) => {
            let count = before.funs.len();
            before.funs.declare(alloc, &f.name)?;
            check_fields(alloc, &f.params)?;
            check_patterns(alloc, &f.body)?;
            too_many(alloc, MOST_FUNCTIONS, count, f.span, "functions")
        }
        Item::Decode(d) => {
            if before.decodes {
                return Err(SpecError::Twice {
                    span: d.span,
                    name: Text::from_str(alloc, "decode")?,
                });
            }
            before.decodes = true;
            check_rows(alloc, &d.rows)
        }
    }
}

/// The first fault of constructors, whose names join those before.
fn check_cases<'a>(
    alloc: Global,
    before: &mut Names<'a>,
    cases: &'a [CaseDecl],
) -> Result<(), SpecError>
    ensures answer { Agrees result (spec.cases_fault before.old 0 (map view.constructor cases.now)) }
    ensures joined { OnOk result (before.new ≡ before.old ++ spec.case_names (map view.constructor cases.now)) }
{
    for (n, c) in cases.iter().enumerate() {
        before.declare(alloc, &c.name)?;
        check_fields(alloc, &c.fields)?;
        too_many(alloc, MOST_CONSTRUCTORS, n, c.span, "constructors")?;
    }
    Ok(())
}

/// The first fault of decode rows.
fn check_rows(alloc: Global, rows: &[RowDecl]) -> Result<(), SpecError>
    ensures { Agrees result (spec.rows_fault 0 (map view.row rows.now)) }
{
    for (n, r) in rows.iter().enumerate() {
        check_row(alloc, r)?;
        too_many(alloc, MOST_ROWS, n, r.span, "rows")?;
    }
    Ok(())
}

/// A field of a row stands twice.
fn check_row(alloc: Global, r: &RowDecl) -> Result<(), SpecError>
    ensures { Agrees result (spec.twice_among [] (filter_map spec.field_name r.now.parts.items)) }
{
    let mut names = Vec::new(alloc);
    for p in &r.parts {
        if let PartDecl::Named { name, .. } = p {
            names.push(name)?;
        }
    }
    twice_among(alloc, names.as_slice())
}
