//! Ranks of values.

ghost use Rattle.std.specs.Prelude.{◌≡◌, ◌+◌, ◌-◌, ◌^◌, min};
ghost use Rattle.abstract_map_laws.specs.Maps.{Fits};
ghost use Rattle.abstract_value_laws.specs.Fits as value;
ghost use Rattle.abstract_value_laws.specs.Shapes.{lacks};
ghost use Rattle.abstract_value_laws.specs.Ranks.{leaf_rank, map_rank};
ghost use Rattle.abstract_value.specs.View.{abs};

use super::value::AbstractValue;
use abstract_map::AbstractMap;
use base_trait::{Base, Tri};

/// What falls where words of a flag, a word or a map are widened, with each note counted as 0; of a constructor value 0.
pub(crate) fn rank<B: Base>(ctx: &B::Ctx, v: &AbstractValue<B>) -> u64
    requires fits { value.Fits B.algebra ctx.now B.CAP (abs v.now) }
    ensures { result ≡ min (leaf_rank B.algebra ctx.now (abs v.now)) (2 ^ 64 - 1) }
{
    match v {
        AbstractValue::Flag(t) => flag_rank(*t),
        AbstractValue::Word { w, x } => B::rank(ctx, *w, x),
        AbstractValue::Data {
            ty: _ty,
            cases: _cases,
        } => 0,
        AbstractValue::Map { map: _map, m } => map_rank(ctx, m),
    }
}

/// How many truth values the flag lacks.
fn flag_rank(t: Tri) -> u64
    ensures { result ≡ lacks t.may_true + lacks t.may_false }
{
    u64::from(!t.may_true) + u64::from(!t.may_false)
}

/// The sum over the rest and the listed cells, 2^64 - 1 where it is more than that.
fn map_rank<B: Base>(ctx: &B::Ctx, m: &AbstractMap<B>) -> u64
    requires fits { Fits B.algebra ctx.now B.CAP m.now }
    ensures { result ≡ min (map_rank B.algebra ctx.now m.now) (2 ^ 64 - 1) }
{
    let mut sum = B::rank(ctx, m.width(), m.rest().0);
    for place in 0..m.listed() {
        sum = sum.saturating_add(B::rank(ctx, m.width(), m.cell_at(place).0));
    }
    sum
}
