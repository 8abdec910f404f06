//! Values of `None | Some(INT8)` over any base, made of lists of numbers.

ghost use Rattle.std.specs.Prelude.{option_map, IfOk};
ghost use Rattle.abstract_value_laws.specs.Fits.{CaseFits, Fits};
ghost use Rattle.abstract_value.specs.View.{abs, case_of};

use abstract_value::{AbstractValue, Constructors, shared_list};
use base_trait::Base;
use std::alloc::{AllocError, Global};
use std::rc::Rc;

/// The word of these numbers, joined one by one; any, where there are none.
pub(crate) fn word<B: Base>(
    alloc: Global,
    ctx: &B::Ctx,
    numbers: &[u8],
) -> Result<B::Word, AllocError>
    ensures { IfOk result (λ r. B.algebra.words.fits ctx.now 8 r) }
{
    if numbers.is_empty() {
        return B::any(alloc, ctx, 8);
    }
    let mut out = B::constant(alloc, ctx, 8, u64::from(numbers[0]))?;
    for n in numbers {
        let one = B::constant(alloc, ctx, 8, u64::from(*n))?;
        out = B::join(alloc, ctx, 8, &out, &one)?;
    }
    Ok(out)
}

/// A byte.
pub(crate) fn byte<B: Base>(
    alloc: Global,
    ctx: &B::Ctx,
    numbers: &[u8],
) -> Result<AbstractValue<B>, AllocError>
    ensures { IfOk result (λ r. Fits B.algebra ctx.now B.CAP (abs r)) }
{
    Ok(AbstractValue::Word {
        w: 8,
        x: word::<B>(alloc, ctx, numbers)?,
    })
}

/// `None`, where it is present.
fn none_case<B: Base>(
    alloc: Global,
    _ctx: &B::Ctx,
    present: bool,
) -> Result<Option<Rc<Vec<AbstractValue<B>>>>, AllocError>
    ensures { IfOk result (λ r. CaseFits B.algebra _ctx.now B.CAP (case_of (option_map (λ f. f.value.items) r))) }
{
    if !present {
        return Ok(None);
    }
    Ok(Some(shared_list(alloc, Vec::new(alloc))?))
}

/// `Some` of a byte, where it is present.
fn some_case<B: Base>(
    alloc: Global,
    ctx: &B::Ctx,
    numbers: Option<&[u8]>,
) -> Result<Option<Rc<Vec<AbstractValue<B>>>>, AllocError>
    ensures { IfOk result (λ r. CaseFits B.algebra ctx.now B.CAP (case_of (option_map (λ f. f.value.items) r))) }
{
    match numbers {
        Some(numbers) => {
            let mut fields = Vec::new(alloc);
            fields.push(byte::<B>(alloc, ctx, numbers)?)?;
            Ok(Some(shared_list(alloc, fields)?))
        }
        None => Ok(None),
    }
}

/// `None` where it is present, and `Some` of a byte where that is.
pub(crate) fn optional<B: Base>(
    alloc: Global,
    ctx: &B::Ctx,
    none: bool,
    some: Option<&[u8]>,
) -> Result<AbstractValue<B>, AllocError>
    ensures { IfOk result (λ r. Fits B.algebra ctx.now B.CAP (abs r)) }
{
    let first = Constructors::none(alloc).grown(alloc, none_case::<B>(alloc, ctx, none))?;
    let cases = first.grown(alloc, some_case::<B>(alloc, ctx, some))?;
    Ok(AbstractValue::Data { ty: 0, cases })
}
