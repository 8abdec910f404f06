//! Laws of the turns of a group, stated in specs/Laws.antt. Nothing runs.

ghost use Rattle.eval_group_turns.specs.Laws.{ArgumentsAreTold, RanksAreBounded, WideningLowers};

use base_trait::Base;

/// Group arguments fit exactly where each list is one of arguments of its function, a function of the group, and lists no
/// stamps but those at hand.
pub fn arguments_are_told<B: Base>()
    ensures { ArgumentsAreTold B.algebra }
{}

/// Over a base that joins, the widening of arguments that do not absorb the new ones lowers their rank.
pub fn widening_lowers<B: Base>()
    ensures { WideningLowers B.algebra }
{}

/// No rank is greater than that of no arguments at all.
pub fn ranks_are_bounded<B: Base>()
    ensures { RanksAreBounded B.algebra }
{}
