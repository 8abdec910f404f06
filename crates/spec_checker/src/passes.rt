//! All passes, in their order.

ghost use Rattle.std.specs.Prelude.{◌≡◌, ◌⊎◌, IfErr, IfOk, OnOk, length, map};
ghost use Rattle.syntax_parser.specs.View.{item, tree as tree_of};
ghost use Rattle.spec_ir.specs.Views.{environment, fun_of, row_of};
ghost use Rattle.spec_ir.specs.WellFormed.{IsWellFormed};
ghost use Rattle.spec_declarations.specs.Declarations.{declared};
ghost use Rattle.spec_decode_rows.specs.Decoded.{decoded};
ghost use Rattle.spec_decode_rows.specs.Rows.{rows_of};
ghost use Rattle.spec_checker.specs.Check.{Answers, AreFuns, IsChecked, IsParsed, later_passes, machine_passes, type_passes};
ghost use Rattle.spec_checker.specs.Functions.{functions};
ghost use Rattle.spec_checker.specs.Steps.{AnswersOf};

use crate::functions::check_functions;
use spec_declarations::{declarations, instr_of, machine};
use spec_decode_rows::check_rows;
use spec_ir::{Declarations, Environment, Fun, Row, Spec, SpecError, SpecUse};
use spec_names::check_names;
use std::alloc::Global;
use syntax_parser::tree::Tree;

/// The checked specification of a tree for a use, or its first fault.
pub fn check(alloc: Global, tree: &Tree, wanted: SpecUse) -> Result<Spec, SpecError>
    requires { IsParsed (tree_of tree.now) }
    ensures { IsChecked wanted (tree_of tree.now) result }
{
    all_passes(alloc, tree, wanted)
}

/// All passes.
fn all_passes(alloc: Global, tree: &Tree, wanted: SpecUse) -> Result<Spec, SpecError>
    requires { IsParsed (tree_of tree.now) }
    ensures { Answers wanted (tree_of tree.now) result }
{
    check_names(alloc, tree)?;
    behind_names(alloc, tree, wanted)
}

/// The passes behind that of names.
fn behind_names(alloc: Global, tree: &Tree, wanted: SpecUse) -> Result<Spec, SpecError>
    requires { IsParsed (tree_of tree.now) }
    ensures { AnswersOf (type_passes wanted (tree_of tree.now)) wanted (tree_of tree.now) result }
{
    let declarations = declarations(alloc, &tree.items)?;
    behind_types(alloc, tree, wanted, declarations)
}

/// The passes behind that of types.
fn behind_types(
    alloc: Global,
    tree: &Tree,
    wanted: SpecUse,
    declarations: Declarations,
) -> Result<Spec, SpecError>
    requires declared { environment declarations ≡ declared (map item tree.now.items.items) }
    requires well_formed { IsWellFormed (environment declarations) }
    requires count { length (functions (map item tree.now.items.items)) ≡ length declarations.funs.items }
    ensures { AnswersOf (machine_passes wanted (tree_of tree.now)) wanted (tree_of tree.now) result }
{
    let machine = machine(alloc, tree, wanted)?;
    match check_later(alloc, tree, &declarations) {
        Ok(later) => Ok(Spec {
            datas: declarations.datas,
            maps: declarations.maps,
            funs: later.funs,
            rows: later.rows,
            machine,
        }),
        Err(e) => Err(e),
    }
}

/// What the passes over terms and rows give.
#[derive(Drop)]
struct Later {
    funs: Vec<Fun>,
    rows: Vec<Row>,
}

/// The passes over terms and rows, where the declarations have no fault.
fn check_later(alloc: Global, tree: &Tree, declarations: &Declarations) -> Result<Later, SpecError>
    requires well_formed { IsWellFormed (environment declarations.now) }
    requires count { length (functions (map item tree.now.items.items)) ≡ length declarations.now.funs.items }
    ensures accepted { OnOk result (later_passes (environment declarations.now) (tree_of tree.now)).none }
    ensures funs { IfOk result (λ r. AreFuns (environment declarations.now) (map item tree.now.items.items) (map fun_of r.funs.items)) }
    ensures rows { IfOk result (λ r. map row_of r.rows.items ≡ map (decoded (environment declarations.now)) (rows_of (map item tree.now.items.items))) }
    ensures fault { IfErr result (λ e. (later_passes (environment declarations.now) (tree_of tree.now)).fault e ⊎ (e ≡ SpecError.NoMemory)) }
{
    let environment = Environment::new(alloc, declarations)?;
    let funs = check_functions(alloc, &environment, &tree.items, &declarations.funs)?;
    let instr = instr_of(tree)?;
    match check_rows(alloc, &environment, instr, tree) {
        Ok(rows) => Ok(Later { funs, rows }),
        Err(e) => Err(e),
    }
}
