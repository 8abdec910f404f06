//! Pieces of values over two bases.

ghost use Rattle.std.specs.Prelude.{◌≡◌, map, option_map, IfOk};
ghost use Rattle.abstract_value.specs.View.{abs};
ghost use Rattle.abstract_value_laws.specs.Abs.{parts};
ghost use Rattle.abstract_value_laws.specs.Fits.{PartsFit};
ghost use Rattle.fixpoint_cases.specs.Pieces.{both_there, pair_piece};
ghost use Rattle.domain_cell_pieces.specs.Pieces.{cell_piece};
ghost use Rattle.domain_product_states.specs.Views.{seen};

use crate::both::{Both, PairedValues};
use crate::parts::taken_apart;
use abstract_value::AbstractValue;
use base_cuts::CutBase;
use base_product::Pair;
use base_trait::Base;
use domain_cuts::cell_piece;
use domain_laws::{CellRange, Field};
use std::alloc::{AllocError as NoMemory, Global};

/// What is left of both parts where a cell lies between two numbers, apart, or none where nothing is of one.
pub(crate) fn piece_of_both<A: CutBase, B: CutBase>(
    alloc: Global,
    ctx: &Pair<A::Ctx, B::Ctx>,
    fields: &[Field],
    cut: CellRange,
    x: &PairedValues<A, B>,
) -> Result<Option<PairedValues<A, B>>, NoMemory>
    requires first { PartsFit A.algebra ctx.now.0 A.CAP (seen x.now).0 }
    requires second { PartsFit B.algebra ctx.now.1 B.CAP (seen x.now).1 }
    ensures { IfOk result (λ r. option_map (λ b. seen b) r ≡ pair_piece (cell_piece A.algebra A.cuts ctx.now.0 A.CAP fields.now)
        (cell_piece B.algebra B.cuts ctx.now.1 B.CAP fields.now) (cut.place, cut.key) cut.low cut.high (seen x.now)) }
{
    let both = taken_apart(alloc, ctx, x)?;
    let first = cell_piece(alloc, &ctx.0, fields, cut, &both.0)?;
    let second = cell_piece(alloc, &ctx.1, fields, cut, &both.1)?;
    Ok(both_there(first, second))
}

/// Both parts, apart, if both are there.
fn both_there<A: Base, B: Base>(
    first: Option<Vec<AbstractValue<A>>>,
    second: Option<Vec<AbstractValue<B>>>,
) -> Option<PairedValues<A, B>>
    ensures { option_map (λ b. seen b) result ≡ both_there (option_map (λ v. parts (map abs v.items)) first) (option_map (λ v. parts (map abs v.items)) second) }
{
    match (first, second) {
        (Some(xs), Some(ys)) => Some(Both::Apart(xs, ys)),
        _ => None,
    }
}
