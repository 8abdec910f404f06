//! Rows in their order.

ghost use Rattle.std.specs.Prelude.{◌≡◌, ◌++◌, ◌∷◌, [], IfOk, OnOk, map};
ghost use Rattle.syntax_parser.specs.View as view;
ghost use Rattle.spec_ir.specs.Answers.{Agrees, unless};
ghost use Rattle.spec_ir.specs.Views.{row_of};
ghost use Rattle.spec_decode_rows.specs.Decoded.{decoded};
ghost use Rattle.spec_decode_rows.specs.Fits.{row_fits};
ghost use Rattle.spec_decode_rows.specs.Rows as spec;
ghost use Rattle.spec_decode_rows.specs.Views.{earlier};

use crate::arguments::check_arguments;
use crate::bits::row_bits;
use crate::fields::fields_of;
use crate::guards::check_guards;
use crate::overlaps::{EarlierRow, check_overlaps};
use crate::parts::check_parts;
use spec_ir::{Environment, Row, SpecError, field_types, number};
use std::alloc::Global;
use syntax_parser::tree::{Item, RowDecl, Tree};

/// The decode rows of a specification, or its first wrong row. `instr` is the number of the datatype
/// of instructions, where there is one.
pub fn check_rows(
    alloc: Global,
    environment: &Environment,
    instr: Option<u32>,
    tree: &Tree,
) -> Result<Vec<Row>, SpecError>
    ensures answer { Agrees result (spec.decode_fault environment.now instr (view.tree tree.now)) }
    ensures rows { IfOk result (λ rows. map row_of rows.items ≡ map (decoded environment.now) (spec.rows_of (map view.item tree.now.items.items))) }
{
    let mut before = Vec::new(alloc);
    let mut out = Vec::new(alloc);
    for r in rows_of(tree) {
        out.push(check_next(alloc, environment, instr, &mut before, r)?)?;
    }
    Ok(out)
}

/// A row behind earlier ones, which it joins.
fn check_next<'a>(
    alloc: Global,
    environment: &Environment,
    instr: Option<u32>,
    before: &mut Vec<EarlierRow<'a>>,
    r: &'a RowDecl,
) -> Result<Row, SpecError>
    ensures answer { Agrees result (spec.row_fault environment.now instr (map earlier before.old.items) (view.row r.now)) }
    ensures row { IfOk result (λ x. row_of x ≡ decoded environment.now (view.row r.now)) }
    ensures joined { OnOk result (map earlier before.new.items ≡ map earlier before.old.items ++ spec.earlier_of (view.row r.now) ∷ []) }
{
    let row = check_row(alloc, environment, instr, r)?;
    let bits = row_bits(alloc, &r.parts)?;
    check_overlaps(alloc, before, r, &bits)?;
    before.push(EarlierRow {
        bits,
        case: &r.case.text,
    })?;
    Ok(row)
}

/// The rows of a tree.
fn rows_of(tree: &Tree) -> &[RowDecl]
    ensures { map view.row result.now ≡ spec.rows_of (map view.item tree.now.items.items) }
{
    for item in &tree.items {
        if let Item::Decode(d) = item {
            return &d.rows;
        }
    }
    &[]
}

/// A row by itself.
#[tactic(auto, using(crate::proofs::Steps::row_steps))]
fn check_row(
    alloc: Global,
    environment: &Environment,
    instr: Option<u32>,
    r: &RowDecl,
) -> Result<Row, SpecError>
    ensures answer { Agrees result (unless (row_fits environment.now instr (view.row r.now)) (SpecError.BadPattern r.now.span)) }
    ensures row { IfOk result (λ x. row_of x ≡ decoded environment.now (view.row r.now)) }
{
    let span = r.span;
    let parts = check_parts(alloc, &r.parts, span)?;
    let fields = fields_of(alloc, &r.parts)?;
    let guards = check_guards(alloc, &fields, &r.guards, span)?;
    match (instr, environment.constructor(&r.case.text)) {
        (Some(instr), Some(c)) if c.ty == instr as usize => {
            let types = field_types(alloc, c.fields)?;
            let args = check_arguments(alloc, &fields, &r.args, &types, span)?;
            Ok(Row {
                parts,
                guards,
                case: number(c.case)?,
                args,
            })
        }
        _ => Err(SpecError::BadPattern { span }),
    }
}
