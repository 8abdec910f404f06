//! The driver of self calls.
//!
//! # Turns
//!
//! A function whose self calls are in tail position is evaluated turn by turn. A turn evaluates the
//! body on some arguments and gives two things, either of which may be missing:
//!
//! - the join of its leaves, the values of the branches that do not call the function again;
//! - the join of the next arguments, those of its self calls.
//!
//! On concrete numbers one branch is taken, and a turn gives one of the two. On abstract values a
//! condition may be both true and false, and a turn may give both. All turns that one call of a
//! function takes are an activation. The driver decides on which arguments each turn of an
//! activation is evaluated, when there is none any more, and what the activation's result is. It
//! knows nothing of functions: arguments may as well be those of several functions at once.
//!
//! # The rule
//!
//! The first turn, number 1, is on the given arguments.
//!
//! Under `Stop { turns }` the next arguments replace the old at each turn. A turn without next
//! arguments ends the activation. Turn number `turns` is the last: where it asks for another, the
//! activation is too deep.
//!
//! Under `Widen { unroll, delay }` the next arguments replace the old in the first `unroll` turns,
//! which keeps the turns of a short chain of calls apart. From then on the arguments only grow.
//! After each turn that asks for another:
//!
//! - where the arguments absorb the next ones, nothing new would be seen, and the activation ends;
//! - else, the first `delay` times, the join of both is evaluated;
//! - and afterwards their widening, which jumps past all that further turns could still add.
//!
//! A turn without next arguments ends the activation here too.
//!
//! The result is the join of the leaves of all turns, in their order, or none where no turn has
//! leaves. It needs those of the first turns too: arguments that were replaced need not be among
//! those of a later turn, so no later turn sees the same leaves again.
//!
//! # An example
//!
//! Take `count(i) = if i < 10 then count(i + 1) else i` over intervals of the numbers 0 to 99, on
//! the interval from 0 to 0. A widening sends an end that moved to 0 or to 99. Under
//! `Widen { unroll: 2, delay: 1 }` the turns are these:
//!
//! | turn | arguments | leaves | next arguments | what follows |
//! |---|---|---|---|---|
//! | 1 | 0 to 0 | none | 1 to 1 | they replace the old |
//! | 2 | 1 to 1 | none | 2 to 2 | they replace the old |
//! | 3 | 2 to 2 | none | 3 to 3 | not absorbed: the join, 2 to 3 |
//! | 4 | 2 to 3 | none | 3 to 4 | not absorbed: the widening, 2 to 99 |
//! | 5 | 2 to 99 | 10 to 99 | 3 to 10 | absorbed: the end |
//!
//! The result is 10 to 99. It holds 10, which the concrete turns give. Under `Stop { turns: 11 }`
//! each turn is on one number, turn 11 on 10, and the result is 10; under `Stop { turns: 10 }`
//! turn 10, on 9, still asks for another, and the activation is too deep.
//!
//! # Why it ends
//!
//! Each further turn lowers a pair of numbers, the first of which counts more. The first is how many
//! turns are left: all under `Stop`, and under `Widen` those of the first `unroll` turns and the
//! `delay` joins. The second is the rank of the arguments: a widening of arguments that do not
//! absorb the next ones is of lesser rank. Above, the rank may be how many ends are not at 0 or 99.
//! That widening lowers the rank is for the user to know, and only under `Widen`.
//!
//! Where no rank is above a height, both are one number, `measure` of `specs/Measure.antt`: in the
//! example, with height 2, it is 3 times the turns that are left, and the rank. A loop that drives an
//! activation has it as its measure.
//!
//! # What is proved, and what is not
//!
//! Contracts see arguments and results as the plain data that a `Turn` names, and an activation by
//! `specs/Views.antt`. `give` answers by the step that `specs/Activation.antt` defines, from what is left
//! of the policy. The driver runs exactly after `Turn`; then what it holds fits, what is left can end,
//! and the measure is lower. The leaves of `Out` fit.
//!
//! `specs/Rule.antt` says the rule once more, of whole lists of turns and by their numbers, and the
//! law `drivers_follow_the_rule` says that a driver takes a list of turns exactly where the rule has
//! them. The rule looks at four operations alone, `specs/Moves.antt`; laws that need to know which
//! arguments and results fit, or a rank, take these apart. Their lemmas in proofs/ hold of every
//! property, where a contract can range over tests alone.
//!
//! Six laws are for proofs that the result of an activation describes whatever its turns
//! stand for. `turns_are_in_order` says the rule by the numbers of turns. `last_arguments_absorb`
//! says that under `Widen` the arguments of the last turn absorb those of each turn past the first
//! `unroll`. `arguments_are_met` says that whatever a turn asks for, some turn of an activation that is
//! not too deep is on that or on what absorbs it. `leaves_are_part` says that the leaves of each such
//! turn are part of the result. Two of them ask that joins and widenings absorb both of what they are
//! made of, `arguments_are_met` only under `Widen`; `last_arguments_absorb` also asks that absorption
//! is reflexive and transitive. `turns_fit` and `results_fit` say that all turns are on arguments that
//! fit, and that the result fits. The tests have turns of which all this holds.
//!
//! # Turns as a function
//!
//! What a turn gives may be a function of its arguments and of a state that goes from turn to turn, as
//! the log of an evaluation. `specs/Evaluation.antt` says what an activation of such turns gives
//! (`IsAnswer`): the joined leaves and the state behind the last turn; or a failure, which is that of
//! the first turn that fails itself, or `deep` where no turn is left. There is one answer at most
//! (`answers_are_one`), and there is one: under `Stop` always (`stopped_answers_exist`), under `Widen`
//! where the widening lowers the rank (`widened_answers_exist`). It looks at turns on arguments that
//! fit alone (`answers_carry_over`), it fits (`answers_fit`), under `Widen` it fails only where a turn
//! does (`widened_answers_succeed`), and each turn of an activation that does not fail was evaluated
//! (`turns_are_evaluated`). For a loop over a driver, `answers_are_driven` gives its invariant at the
//! start, `Remaining` of `specs/Driving.antt`, and `turns_go_on` carries it through each turn.
//!
//! After `AllocError` of `give` nothing is said of the driver, and a body that answers nothing but
//! this error is not refused by any contract: the tests call each function with ample memory.
//!
//! # Arguments of several functions at once
//!
//! Functions of a group may call each other as the last thing that they do. A turn of an activation
//! then evaluates each function of the group that has arguments, and asks for arguments of several
//! functions. Group arguments hold for each function, by its number, an argument list or none.
//!
//! Of functions 0 and 2 of a group, the group arguments `[a, none, b]` hold `a` and `b`. Past the end
//! there is none, so `[a]` holds for function 0 alone. Joined with `[c]` they are `[a join c, none, b]`:
//! a list that one side lacks comes as it is. They absorb `[c]` where `a` absorbs `c`; what is missing
//! absorbs only what is missing.
//!
//! The rank of group arguments is the sum over all functions of the program. A missing list counts one
//! more than the greatest rank that it can have, so that a list that comes new lowers the sum. With two
//! functions, greatest ranks 5 and 7, and `a` of rank 4, `[a]` has the rank 4 + 8, and where all are
//! missing it is 6 + 8, the greatest there is.
//!
//! `group_moves` of specs/Groups makes the moves of turns on group arguments of those on the arguments of one
//! function. The laws say that what the driver asks of moves carries over: joins and widenings
//! keep what fits and absorb both, absorption is reflexive and transitive, and widening lowers the
//! rank. The lemmas in proofs/ hold of every property, where a contract can range over tests alone.
//!
//! # Turns that give what they give by their numbers
//!
//! In the laws on answers, what a turn gives is a function of its arguments and of a
//! state. Here it is whatever two sequences say: the leaves and the next arguments of turn number 1, of
//! turn number 2, and so on. For such turns there is one activation and no other:
//!
//! - `drivers_end`: a driver asks for finitely many turns, whatever they give. The next arguments, joins
//!   and widenings are to fit, and under `Widen` the widening is to lower the rank. This is a corollary
//!   of `stopped_answers_exist` and `widened_answers_exist`: the state is the number of the next turn.
//! - `activations_are_settled`: the rule has no second list of turns, and no second answer. Here nothing
//!   needs to fit.
#![tactic(auto)]

mod after;
mod driver;
mod driver_request;
mod laws;
mod leaves;
mod policy;
mod turn;

pub use driver::Driver;
pub use driver_request::DriverRequest;
pub use laws::{
    absorbed_holds, activations_are_settled, answers_are_driven, answers_are_one,
    answers_carry_over, answers_fit, arguments_are_met, drivers_end, drivers_follow_the_rule,
    group_absorption_orders, group_ranks_fall, groups_absorb, groups_keep_fits, held_are_such,
    joins_hold, last_arguments_absorb, leaves_are_part, measures_fall, one_is_held, results_fit,
    stopped_answers_exist, tests_tell, turns_are_evaluated, turns_are_in_order, turns_fit,
    turns_go_on, widened_answers_exist, widened_answers_succeed,
};
pub use policy::Policy;
pub use turn::Turn;
