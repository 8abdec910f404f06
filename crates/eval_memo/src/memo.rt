//! The memo of calls that were evaluated.

ghost use Rattle.std.specs.Prelude.{◌≡◌, [], None, length, map, option_map, IfSome, OnErr, OnOk};
ghost use Rattle.base_trait.specs.Uses.{uses_of};
ghost use Rattle.support_tail_fixpoint.specs.Answer.{gives};
ghost use Rattle.abstract_value.specs.View.{abs};
ghost use Rattle.eval_memo.specs.Memos.{Holds, IsNew, Keeps, Stands, Tells, entries, gave};

use crate::call::Call;
use crate::setting::{Known, Setting};
use abstract_value::AbstractValue;
use base_trait::{Base, Log};
use indexmap::IndexMap;
use std::alloc::{AllocError as NoMemory, Global};
use std::sync::ledger::Ledger;
use support_step_counter::Steps;

/// What a call gave: its value, or none, and its own reads.
#[derive(Drop)]
pub struct Outcome<B: Base> {
    pub(crate) value: Option<AbstractValue<B>>,
    pub(crate) reads: Log,
}

/// The calls that were evaluated for one specification, context, address and policy, in the order in which they were kept. They
/// are found by the hash of the function's number and the arguments.
pub struct Memo<B: Base> {
    calls: IndexMap<Call<Vec<AbstractValue<B>>>, Outcome<B>>,
}

/// Written out, so that what lets a memo go stands once for each base, and not once more in each crate where one is let go.
impl<B: Base> Drop for Memo<B> {
    fn drop(self) {
        self.let_go();
    }
}

impl<B: Base> Memo<B> {
    /// Lets go what it holds.
    fn let_go(self) {
        let Memo { calls: _calls } = self;
    }
}

/// A memo of no calls.
pub fn memo_new<B: Base>(alloc: Global) -> Memo<B>
    ensures { entries result ≡ [] }
{
    Memo {
        calls: IndexMap::new(alloc),
    }
}

/// How many calls it holds.
pub fn memo_len<B: Base>(memo: &Memo<B>) -> u64
    ensures { result ≡ length (entries memo.now) }
{
    memo.calls.len() as u64
}

/// What a call gave, where it was kept.
pub(crate) fn find<'m, B: Base>(
    memo: &'m Memo<B>,
    function: u32,
    args: &[AbstractValue<B>],
) -> Option<&'m Outcome<B>>
    ensures there { IfSome result (λ o. Tells (entries memo.now) function (map abs args.now) (gave function args.now o.now)) }
    ensures held { IfSome result (λ _. Holds function (map abs args.now) (entries memo.now)) }
    ensures new { result ≡ None → IsNew function (map abs args.now) (entries memo.now) }
{
    memo.calls.get(Call { function, args })
}

/// Keeps a call that was evaluated, where it is new, and ticks its step then. A call that is held already gave the same.
pub(crate) fn keep<B: Base, K: Known<B>, L: Ledger>(
    setting: &Setting<B>,
    memo: &mut Memo<B>,
    steps: &mut Steps<L>,
    call: Call<Vec<AbstractValue<B>>>,
    outcome: Outcome<B>,
) -> Result<(), NoMemory>
    requires memo { Stands (K.calls setting.now.ctx.now) K.before K.ticked (entries memo.old) steps.old }
    requires value { K.calls setting.now.ctx.now call.function (map abs call.args.items) ≡ gives (option_map abs outcome.value) (uses_of outcome.reads) }
    ensures memo { Stands (K.calls setting.now.ctx.now) K.before K.ticked (entries memo.new) steps.new }
    ensures kept { OnOk result (Keeps (entries memo.old) (gave call.function call.args.items outcome) (entries memo.new)) }
    ensures unchanged { OnErr result (entries memo.new ≡ entries memo.old) }
{
    if memo.calls.insert(call, outcome)?.is_none() {
        steps.tick();
    }
    Ok(())
}
