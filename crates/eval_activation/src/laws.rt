//! When an evaluation may take place.

ghost use Rattle.eval_activation.specs.Laws.{MayBeEvaluated};

use base_trait::Base;
use eval_memo::Setting;

/// A specification that is accepted, with its own code, is evaluated as any right reinterpretation says: the calls then
/// give what fits.
pub fn may_be_evaluated<B: Base>(_setting: &Setting<B>)
    ensures { MayBeEvaluated B.algebra B.CAP _setting.now }
{}
