//! The second pass, whole.

ghost use Rattle.std.specs.Prelude.{◌≡◌, IfOk, None, OnOk, map};
ghost use Rattle.syntax_parser.specs.View as view;
ghost use Rattle.spec_ir.specs.Answers.{Agrees};
ghost use Rattle.spec_ir.specs.Views.{environment};
ghost use Rattle.spec_ir.specs.WellFormed.{IsWellFormed};
ghost use Rattle.spec_declarations.specs.Declarations.{declared, HaveCases};
ghost use Rattle.spec_declarations.specs.Leaves as leaves;
ghost use Rattle.spec_declarations.specs.Leaves.{IsKnown};
ghost use Rattle.spec_declarations.specs.TypeNames.{types_of};
ghost use Rattle.spec_declarations.specs.Types.{TypesAnswer};

use crate::datatype_meanings::{datatypes, made_datatypes};
use crate::declare::declare;
use crate::known::{Facts, known};
use crate::sizes::check_sizes;
use crate::type_names::TypeNames;
use crate::types::types_fault;
use spec_ir::{Declarations, SpecError};
use std::alloc::Global;
use syntax_parser::tree::{DataDecl, Item};

/// What items declare, where no fault of their types stands.
pub fn declarations(alloc: Global, items: &[Item]) -> Result<Declarations, SpecError>
    ensures answer { TypesAnswer (map view.item items.now) result }
    ensures declared { IfOk result (λ r. environment r ≡ declared (map view.item items.now)) }
    ensures well_formed { OnOk result (HaveCases (map view.item items.now) → IsWellFormed (declared (map view.item items.now))) }
{
    let names = TypeNames::new(alloc, items)?;
    declarations_by(alloc, &names, items)
}

/// The same, by the names of types.
fn declarations_by(
    alloc: Global,
    names: &TypeNames,
    items: &[Item],
) -> Result<Declarations, SpecError>
    requires { names.now ≡ types_of (map view.item items.now) }
    ensures answer { TypesAnswer (map view.item items.now) result }
    ensures declared { IfOk result (λ r. environment r ≡ declared (map view.item items.now)) }
    ensures well_formed { OnOk result (HaveCases (map view.item items.now) → IsWellFormed (declared (map view.item items.now))) }
{
    check_types(alloc, names, items)?;
    Ok(declare(alloc, names, items)?)
}

/// The first fault of types.
fn check_types(alloc: Global, names: &TypeNames, items: &[Item]) -> Result<(), SpecError>
    requires { names.now ≡ types_of (map view.item items.now) }
    ensures answer { TypesAnswer (map view.item items.now) result }
    ensures well_formed { OnOk result (HaveCases (map view.item items.now) → IsWellFormed (declared (map view.item items.now))) }
{
    let datas = datatypes(alloc, items)?;
    check_datatypes(alloc, names, &datas, items)
}

/// The same, by the datatypes among the items.
fn check_datatypes(
    alloc: Global,
    names: &TypeNames,
    datas: &[&DataDecl],
    items: &[Item],
) -> Result<(), SpecError>
    requires names { names.now ≡ types_of (map view.item items.now) }
    requires datas { map (λ d. view.datatype d.now) datas.now ≡ leaves.datatypes (map view.item items.now) }
    ensures answer { TypesAnswer (map view.item items.now) result }
    ensures well_formed { OnOk result (HaveCases (map view.item items.now) → IsWellFormed (declared (map view.item items.now))) }
{
    check_sizes(datas)?;
    let facts = facts_of(alloc, names, datas)?;
    types_fault(alloc, names, datas, &facts, items)
}

/// What is known of datatypes.
fn facts_of(alloc: Global, names: &TypeNames, datas: &[&DataDecl]) -> Result<Facts, SpecError>
    ensures answer { Agrees result None }
    ensures known { IfOk result (λ r. IsKnown (map (leaves.made names.now) (map (λ d. view.datatype d.now) datas.now)) r.recursive.items r.large.items) }
{
    let made = made_datatypes(alloc, names, datas)?;
    known(alloc, &made)
}
