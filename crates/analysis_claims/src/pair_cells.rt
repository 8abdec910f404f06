//! Single cells over two bases: what either part tells of their numbers.

ghost use Rattle.std.specs.Prelude.{◌≡◌, ◌||◌, IfOk};
ghost use Rattle.semantics_values.specs.declared.entry.GivenNumber.TheVariants.{One, Range};
ghost use Rattle.abstract_value_laws.specs.Fits.{PartsFit};
ghost use Rattle.analysis_query_laws.specs.Cells as told;
ghost use Rattle.analysis_query_laws.specs.Cells.{word_in};
ghost use Rattle.domain_product_states.specs.Views.{seen};
ghost use Rattle.analysis_claims.specs.Words.{HasWordFor};

use crate::cells::{cell_differs, cell_within};
use base_product::Pair;
use base_trait::Base;
use domain_product_states::{PairedValues, taken_apart};
use semantics_values::KeyAt;
use std::alloc::{AllocError as NoMemory, Global};

/// Whether either part has the numbers of a cell in a range, where these are the values of the fields behind the counter.
pub(crate) fn either_within<A: Base, B: Base>(
    alloc: Global,
    ctx: &Pair<A::Ctx, B::Ctx>,
    values: &PairedValues<A, B>,
    field: u32,
    key: KeyAt,
    lo: u64,
    hi: u64,
) -> Result<bool, NoMemory>
    requires first { PartsFit A.algebra ctx.now.0 A.CAP (seen values.now).0 }
    requires second { PartsFit B.algebra ctx.now.1 B.CAP (seen values.now).1 }
    requires left { HasWordFor A.algebra ctx.now.0 (Range lo hi) (word_in (seen values.now).0 field key) }
    requires right { HasWordFor B.algebra ctx.now.1 (Range lo hi) (word_in (seen values.now).1 field key) }
    ensures { IfOk result (λ r. r ≡ (told.is_within A.algebra ctx.now.0 lo hi (word_in (seen values.now).0 field key) || told.is_within B.algebra ctx.now.1 lo hi (word_in (seen values.now).1 field key))) }
{
    let apart = taken_apart(alloc, ctx, values)?;
    let first = cell_within::<A>(alloc, &ctx.0, &apart.0, field, key, lo, hi)?;
    if first {
        return Ok(true);
    }
    let second = cell_within::<B>(alloc, &ctx.1, &apart.1, field, key, lo, hi)?;
    Ok(second)
}

/// Whether a cell may not have a number in either part, where these are the values of the fields behind the counter.
pub(crate) fn either_differs<A: Base, B: Base>(
    alloc: Global,
    ctx: &Pair<A::Ctx, B::Ctx>,
    values: &PairedValues<A, B>,
    field: u32,
    key: KeyAt,
    value: u64,
) -> Result<bool, NoMemory>
    requires first { PartsFit A.algebra ctx.now.0 A.CAP (seen values.now).0 }
    requires second { PartsFit B.algebra ctx.now.1 B.CAP (seen values.now).1 }
    requires left { HasWordFor A.algebra ctx.now.0 (One value) (word_in (seen values.now).0 field key) }
    requires right { HasWordFor B.algebra ctx.now.1 (One value) (word_in (seen values.now).1 field key) }
    ensures { IfOk result (λ r. r ≡ (told.is_not A.algebra ctx.now.0 value (word_in (seen values.now).0 field key) || told.is_not B.algebra ctx.now.1 value (word_in (seen values.now).1 field key))) }
{
    let apart = taken_apart(alloc, ctx, values)?;
    let first = cell_differs::<A>(alloc, &ctx.0, &apart.0, field, key, value)?;
    if first {
        return Ok(true);
    }
    let second = cell_differs::<B>(alloc, &ctx.1, &apart.1, field, key, value)?;
    Ok(second)
}
