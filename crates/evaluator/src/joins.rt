//! Joins of what several branches give.

ghost use Rattle.std.specs.Prelude.{◌≡◌, map, option_map, All, IfOk, IfSome};
ghost use Rattle.eval_memo.specs.Ready.{IsReady, YieldFits};
ghost use Rattle.eval_memo.specs.Settings as of;
ghost use Rattle.eval_activation.specs.Views.{yield};
ghost use Rattle.evaluator.specs.Joins.{join_all};

use base_trait::Base;
use eval_activation::{TurnYield, join_given};
use eval_memo::{Known, Setting};
use std::alloc::{AllocError as NoMemory, Global};

/// The joins of what several branches and a last one give, from the last one on.
#[inline(never)]
pub(crate) fn joined_all<B: Base, K: Known<B>>(
    alloc: Global,
    setting: &Setting<B>,
    group: u32,
    mut firsts: Vec<Option<TurnYield<B>>>,
    last: Option<TurnYield<B>>,
) -> Result<Option<TurnYield<B>>, NoMemory>
    requires setting { IsReady B.algebra B.CAP setting.now K.spec (K.calls setting.now.ctx.now) }
    requires firsts { All (λ x. IfSome x (λ v. YieldFits B.algebra B.CAP setting.now group (yield v))) firsts.items }
    requires last { IfSome last (λ v. YieldFits B.algebra B.CAP setting.now group (yield v)) }
    ensures value { IfOk result (λ r. option_map yield r ≡ join_all (of.join_yields B.algebra B.CAP (K.calls setting.now.ctx.now) setting.now) (map (option_map yield) firsts.items) (option_map yield last)) }
    ensures fits { IfOk result (λ r. IfSome r (λ v. YieldFits B.algebra B.CAP setting.now group (yield v))) }
{
    let mut out = last;
    while let Some(first) = firsts.pop() {
        out = join_given::<B, K>(alloc, setting, group, first, out)?;
    }
    Ok(out)
}
