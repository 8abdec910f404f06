//! What holds of every driver and of every activation.

ghost use Rattle.std.specs.Prelude.{Bool, IsTrue};
ghost use Rattle.support_tail_fixpoint.specs.Laws.{AnswersAreDriven, AnswersAreOne, AnswersCarryOver, AnswersFit, ArgumentsAreMet, DriversFollowTheRule, LastArgumentsAbsorb, LeavesArePart, MeasuresFall, ResultsFit, StoppedAnswersExist, TurnsAreEvaluated, TurnsAreInOrder, TurnsFit, TurnsGoOn, WidenedAnswersExist, WidenedAnswersSucceed};
ghost use Rattle.std.specs.Prelude.{ℕ, Bool, IsTrue};
ghost use Rattle.support_tail_fixpoint.specs.GroupLaws.{AbsorbedHolds, GroupAbsorptionOrders, GroupRanksFall, GroupsAbsorb, GroupsKeepFits, HeldAreSuch, JoinsHold, OneIsHeld, TestsTell};
ghost use Rattle.support_tail_fixpoint.specs.DriverLaws.{ActivationsAreSettled, DriversEnd};

/// The turns that a driver asks for are those of the rule, on the rule's arguments. Its `Out` has
/// the join of the leaves of all turns, and `Deep` comes exactly where under `Stop` turn number
/// `turns` still asks for another.
pub fn drivers_follow_the_rule<A, O>()
    ensures { DriversFollowTheRule A O }
{}

/// Where no rank is above a height, what falls with each turn is one number: the turns that are
/// left, times one more than the height, and the rank of the arguments.
pub fn measures_fall<A, O>()
    ensures { MeasuresFall A O }
{}

/// The turns of an activation by their numbers: the first is on its arguments, each other follows the one
/// before it, and the last ends it.
pub fn turns_are_in_order<A, O>()
    ensures { TurnsAreInOrder A O }
{}

/// Where each turn that is on arguments that fit asks for such, all turns are on such.
pub fn turns_fit<A, O>()
    ensures { (fits : A → Bool) → TurnsFit A O (λ x. IsTrue (fits x)) }
{}

/// Where the leaves of each turn fit, so do those of the activation.
pub fn results_fit<A, O>()
    ensures { (fits : O → Bool) → ResultsFit A O (λ x. IsTrue (fits x)) }
{}

/// Under `Widen` the arguments of the last turn absorb those of each turn past the first `unroll`, and
/// those that each such turn asks for. Joins and widenings of arguments that fit are to absorb both,
/// and absorption is to be reflexive and transitive.
pub fn last_arguments_absorb<A, O>()
    ensures { (fits : A → Bool) → LastArgumentsAbsorb A O (λ x. IsTrue (fits x)) }
{}

/// Where an activation ends with `Out`, a turn is on its arguments, and whatever a turn asks for, some
/// turn is on that or on what absorbs it. Under `Widen` joins and widenings of arguments that fit are
/// to absorb both.
pub fn arguments_are_met<A, O>()
    ensures { (fits : A → Bool) → ArgumentsAreMet A O (λ x. IsTrue (fits x)) }
{}

/// Where an activation ends with `Out`, the leaves of each turn are part of its leaves. So what holds
/// of a turn's leaves, and of a join wherever it holds of one side, holds of them: the lemma
/// `leaves_hold` of `proofs/Parts.antt`. Where a join is its first side alone, as of single numbers, this
/// says little: there only the last turn has leaves.
pub fn leaves_are_part<A, O>()
    ensures { (fits : O → Bool) → LeavesArePart A O (λ x. IsTrue (fits x)) }
{}

/// Where turns are a function of arguments and a state, an activation has one answer at most.
pub fn answers_are_one<F, S, A, O>()
    ensures { AnswersAreOne F S A O }
{}

/// Under `Stop` an activation has an answer.
pub fn stopped_answers_exist<F, S, A, O>()
    ensures { StoppedAnswersExist F S A O }
{}

/// Under `Widen` an activation has an answer, where each widening that does not absorb lowers the rank.
pub fn widened_answers_exist<F, S, A, O>()
    ensures { (fits : A → Bool) → WidenedAnswersExist F S A O (λ x. IsTrue (fits x)) }
{}

/// The answer of an activation looks at its turns on arguments that fit alone.
pub fn answers_carry_over<F, S, A, O>()
    ensures { (fits : A → Bool) → AnswersCarryOver F S A O (λ x. IsTrue (fits x)) }
{}

/// Where turns give what fits, so does the activation.
pub fn answers_fit<F, S, A, O>()
    ensures { (fits_args : A → Bool) (fits_out : O → Bool) → AnswersFit F S A O (λ x. IsTrue (fits_args x)) (λ x. IsTrue (fits_out x)) }
{}

/// Under `Widen` an activation fails only where a turn does.
pub fn widened_answers_succeed<F, S, A, O>()
    ensures { (fits : A → Bool) → WidenedAnswersSucceed F S A O (λ x. IsTrue (fits x)) }
{}

/// Where an activation does not fail, each of its turns was evaluated, from some state to one that the
/// last state goes on from.
pub fn turns_are_evaluated<F, S, A, O>()
    ensures { (fits : A → Bool) (before : S → S → Bool) → TurnsAreEvaluated F S A O (λ x. IsTrue (fits x)) (λ x y. IsTrue (before x y)) }
{}

/// The answer of an activation is what the turns of a driver come to.
pub fn answers_are_driven<F, S, A, O>()
    ensures { AnswersAreDriven F S A O }
{}

/// With each turn that a driver takes, what is left comes to the same answer.
pub fn turns_go_on<F, S, A, O>()
    ensures { TurnsGoOn F S A O }
{}

/// The arguments of one function alone are held for it, and none for another.
pub fn one_is_held<A>()
    ensures { OneIsHeld A }
{}

/// Each argument list is such exactly where what is held for each function is.
pub fn held_are_such<A>()
    ensures { (test : ℕ → A → Bool) → HeldAreSuch A (λ i x. IsTrue (test i x)) }
{}

/// Each argument list passes its function's test exactly where each is such.
pub fn tests_tell<A>()
    ensures { TestsTell A }
{}

/// What a join of two argument lists has of either, a join of group arguments has for each function.
pub fn joins_hold<A>()
    ensures { (fits : ℕ → A → Bool) (holds : A → Bool) → JoinsHold A (λ i x. IsTrue (fits i x)) (λ x. IsTrue (holds x)) }
{}

/// What an argument list has of one that it absorbs, group arguments have for each function of those that
/// they absorb.
pub fn absorbed_holds<A>()
    ensures { (fits : ℕ → A → Bool) (holds : A → Bool) → AbsorbedHolds A (λ i x. IsTrue (fits i x)) (λ x. IsTrue (holds x)) }
{}

/// Joins and widenings of group arguments keep what fits, where those of argument lists do.
pub fn groups_keep_fits<A, O>()
    ensures { (fits : ℕ → A → Bool) → GroupsKeepFits A O (λ i x. IsTrue (fits i x)) }
{}

/// Joins and widenings of group arguments absorb both, where those of argument lists do, and each argument
/// list absorbs itself.
pub fn groups_absorb<A, O>()
    ensures { (fits : ℕ → A → Bool) → GroupsAbsorb A O (λ i x. IsTrue (fits i x)) }
{}

/// Absorption of group arguments is reflexive and transitive, where that of argument lists is.
pub fn group_absorption_orders<A, O>()
    ensures { (fits : ℕ → A → Bool) → GroupAbsorptionOrders A O (λ i x. IsTrue (fits i x)) }
{}

/// Widening lowers the rank of group arguments that do not absorb the new ones, where it raises no rank of
/// an argument list and lowers that of one that does not absorb. No rank is greater than that of no
/// arguments at all.
pub fn group_ranks_fall<A, O>()
    ensures { (fits : ℕ → A → Bool) → GroupRanksFall A O (λ i x. IsTrue (fits i x)) }
{}

/// Whatever turns give, a driver asks for finitely many. Under `Widen` the widening is to lower the
/// rank of arguments that fit. A corollary of `stopped_answers_exist` and `widened_answers_exist` of
/// `support_tail_fixpoint`.
pub fn drivers_end<A, O>()
    ensures { (fits : A → Bool) → DriversEnd A O (λ x. IsTrue (fits x)) }
{}

/// The rule has at most one list of turns, and one answer, for what turns give.
pub fn activations_are_settled<A, O>()
    ensures { ActivationsAreSettled A O }
{}
