//! Laws of plans, stated in specs/Laws.antt. Nothing runs.

ghost use Rattle.eval_plans.specs.Laws.{PlansBranch, PlansDecide, PlansFit};

use base_trait::Base;

/// The arms of the plan of a decision give what the decision gives.
pub fn plans_decide<B: Base>()
    ensures { PlansDecide B.algebra }
{}

/// The two arms of a condition give what it gives.
pub fn plans_branch<B: Base>()
    ensures { PlansBranch B.algebra }
{}

/// What a plan of a value that fits names fits.
pub fn plans_fit<B: Base>()
    ensures { PlansFit B.algebra }
{}
