//! Concrete values of `None | Some(INT8)` and of a map of bytes by bytes.

ghost use Rattle.std.specs.Prelude.{◌≡◌, IfOk, slice_get};
ghost use Rattle.spec_ir.specs.Views.{specification};
ghost use Rattle.semantics_values.specs.Types.{environment_of};
ghost use Rattle.abstract_value_laws.specs.Fits.{Fits};
ghost use Rattle.abstract_value_laws.specs.OfValues.{case_count};
ghost use Rattle.abstract_value_laws.specs.TypeShapes.{width_of};
ghost use Rattle.abstract_value.specs.View.{abs};

use abstract_value::AbstractValue;
use base_trait::Base;
use semantics_values::{Cell, MapValue, Stamp, Value};
use spec_ir::{Case, Data, MapType, Spec, Ty};
use std::alloc::{AllocError, Global};
use syntax_lexer::Text;

/// The specification that declares both types.
pub(crate) fn declared(alloc: Global) -> Result<Spec, AllocError>
    ensures cases { IfOk result (λ s. case_count (environment_of (specification s)) 0 ≡ 2) }
    ensures width { IfOk result (λ s. width_of (slice_get (specification s).maps 0) ≡ 8) }
{
    let none = Case {
        name: Text::from_str(alloc, "None")?,
        fields: Vec::new(alloc),
    };
    let byte = (Text::from_str(alloc, "byte")?, Ty::Word(8));
    let some = Case {
        name: Text::from_str(alloc, "Some")?,
        fields: vec![in alloc; byte]?,
    };
    let optional = Data {
        name: Text::from_str(alloc, "Optional")?,
        cases: vec![in alloc; none, some]?,
    };
    let bytes = MapType {
        name: Text::from_str(alloc, "Bytes")?,
        key: Ty::Word(8),
        width: 8,
        default: 0,
    };
    Ok(Spec {
        datas: vec![in alloc; optional]?,
        maps: vec![in alloc; bytes]?,
        funs: Vec::new(alloc),
        rows: Vec::new(alloc),
        machine: None,
    })
}

/// The value of `Some` of a number.
pub(crate) fn of_some<B: Base>(
    alloc: Global,
    ctx: &B::Ctx,
    spec: &Spec,
    n: u8,
) -> Result<AbstractValue<B>, AllocError>
    requires cases { case_count (environment_of (specification spec.now)) 0 ≡ 2 }
    ensures { IfOk result (λ r. Fits B.algebra ctx.now B.CAP (abs r)) }
{
    let byte = Value::Word {
        w: 8,
        v: u64::from(n),
    };
    let some = Value::Made {
        ty: 0,
        case: 1,
        parts: vec![in alloc; byte]?,
    };
    AbstractValue::of_value(alloc, ctx, spec, &some)
}

/// The value of the map that has a number, written at 16, at the key 4, and 0 elsewhere.
pub(crate) fn of_map<B: Base>(
    alloc: Global,
    ctx: &B::Ctx,
    spec: &Spec,
    n: u8,
) -> Result<AbstractValue<B>, AllocError>
    requires width { width_of (slice_get (specification spec.now).maps 0) ≡ 8 }
    ensures { IfOk result (λ r. Fits B.algebra ctx.now B.CAP (abs r)) }
{
    let rest = Cell {
        v: 0,
        stamp: Stamp::Entry,
    };
    let cell = Cell {
        v: u64::from(n),
        stamp: Stamp::At(16),
    };
    let map = Value::Map(MapValue {
        map: 0,
        rest,
        cells: vec![in alloc; (4, cell)]?,
    });
    AbstractValue::of_value(alloc, ctx, spec, &map)
}
