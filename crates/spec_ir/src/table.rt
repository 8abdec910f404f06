//! Constructors by their names.

ghost use Rattle.std.specs.Prelude.{◌≡◌, List, ℕ, None, Some, IfOk, OnOk, bytes_eq, if◌then◌else◌, map};
ghost use Rattle.spec_ir.specs.Environment.{case_from, constructor_named, or_else};
ghost use Rattle.spec_ir.specs.Found.{found};
ghost use Rattle.spec_ir.specs.Scopes.{constructor_of};
ghost use Rattle.spec_ir.specs.Views.{case_of, environment};

use crate::declared::{Case, Declarations};
use crate::names::Constructor;
use std::alloc::{AllocError, Global};
use std::collections::BTreeMap;
use syntax_lexer::Text;

/// The first constructor of each name.
pub fn constructors<'a>(
    alloc: Global,
    declarations: &'a Declarations,
) -> Result<BTreeMap<&'a str, Constructor<'a>>, AllocError>
    ensures { IfOk result (λ table. (name : List ℕ) → found table name ≡ constructor_named (environment declarations.now) name) }
{
    let mut table = BTreeMap::new(alloc);
    for (ty, data) in declarations.datas.as_slice().iter().enumerate() {
        enter_cases(&mut table, ty, &data.cases)?;
    }
    Ok(table)
}

/// The constructors of datatype `ty` enter, where no constructor of their name is there.
fn enter_cases<'a>(
    table: &mut BTreeMap<&'a str, Constructor<'a>>,
    ty: usize,
    cases: &'a [Case],
) -> Result<(), AllocError>
    ensures { OnOk result ((name : List ℕ) → found table.new name ≡ or_else (found table.old name) (case_from ty 0 (map case_of cases.now) name)) }
{
    for (case, c) in cases.iter().enumerate() {
        let fields = c.fields.as_slice();
        enter_case(table, &c.name, Constructor { ty, case, fields })?;
    }
    Ok(())
}

/// A constructor enters, where none of its name is there.
fn enter_case<'a>(
    table: &mut BTreeMap<&'a str, Constructor<'a>>,
    name: &'a Text,
    constructor: Constructor<'a>,
) -> Result<(), AllocError>
    ensures { OnOk result ((other : List ℕ) → found table.new other ≡ or_else (found table.old other)
        (if bytes_eq name.now other then Some (constructor_of constructor.entry) else None)) }
{
    let name = name.as_str();
    if table.contains_key(name) {
        return Ok(());
    }
    table.insert(name, constructor)?;
    Ok(())
}
