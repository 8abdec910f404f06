ghost use Rattle.std.specs.Prelude.{◌≤◌, IfSome, IsTrue};
ghost use Rattle.support_tail_fixpoint.specs.Absorbing.{Absorbing, AbsorptionOrders};
ghost use Rattle.support_tail_fixpoint.specs.Activation.{HasTurn};
ghost use Rattle.support_tail_fixpoint.specs.Fitting.{WideningLowersRank};
ghost use Rattle.support_tail_fixpoint.specs.Meaning.{ArgsFit};

use std::alloc::{AllocError, Global};
use std::test::Fail;
use support_tail_fixpoint::{
    Driver, DriverRequest, Policy, Turn, answers_are_driven, answers_are_one, answers_carry_over,
    answers_fit, arguments_are_met, drivers_follow_the_rule, last_arguments_absorb,
    leaves_are_part, measures_fall, results_fit, stopped_answers_exist, turns_are_evaluated,
    turns_are_in_order, turns_fit, turns_go_on, widened_answers_exist, widened_answers_succeed,
};

/// The numbers are 0 to 99.
const TOP: u32 = 99;

/// The numbers from `low` to `high`.
#[derive(Clone, Copy, Debug, PartialEq, Eq)]
struct Interval {
    low: u32,
    high: u32,
}

/// Turns on one interval that give one interval.
#[derive(Drop)]
struct Intervals;

impl Turn for Intervals {
    ghost use Rattle.std.proofs.Common.{arith};
    ghost use Rattle.std.proofs.lemmas.Bool.Decides.{nat_tests};
    ghost use Rattle.std.specs.Prelude.{ℕ, true, refl, min, max, nat_le, nat_lt, ◌&&◌, ◌==◌, ◌+◌, if◌then◌else◌};

    type Args = Interval;

    type Out = Interval;

    ghost PlainArgs = { ℕ × ℕ };

    ghost PlainOut = { ℕ × ℕ };

    ghost args_view = { λ x. (x.low, x.high) };

    ghost out_view = { λ x. (x.low, x.high) };

    ghost meaning = { λ _. record {
      moves = record {
        join_out = λ x y. (min x.0 y.0, max x.1 y.1);
        join_args = λ x y. (min x.0 y.0, max x.1 y.1);
        widen_args = λ old new. ((if nat_lt new.0 old.0 then 0 else old.0), (if nat_lt old.1 new.1 then 99 else old.1));
        absorbs = λ old new. nat_le old.0 new.0 && nat_le new.1 old.1;
      };
      fits_args = λ x. nat_le x.1 99;
      fits_out = λ _. true;
      rank = λ x. (if x.0 == 0 then 0 else 1) + (if x.1 == 99 then 0 else 1);
    } };

    fn join_out(
        &mut self,
        _alloc: Global,
        x: &Interval,
        y: &Interval,
    ) -> Result<Interval, AllocError> {
        Ok(Interval {
            low: x.low.min(y.low),
            high: x.high.max(y.high),
        })
    }

    fn join_args(
        &mut self,
        _alloc: Global,
        x: &Interval,
        y: &Interval,
    ) -> Result<Interval, AllocError> {
        Ok(Interval {
            low: x.low.min(y.low),
            high: x.high.max(y.high),
        })
    }

    // An end that moved goes to the last number on its side.
    fn widen_args(
        &mut self,
        _alloc: Global,
        old: &Interval,
        new: &Interval,
    ) -> Result<Interval, AllocError> {
        Ok(Interval {
            low: if new.low < old.low { 0 } else { old.low },
            high: if old.high < new.high { TOP } else { old.high },
        })
    }

    fn absorbs(&self, old: &Interval, new: &Interval) -> bool {
        old.low <= new.low && new.high <= old.high
    }

    ghost keeps_fit = { λ _. record {
      args = record {
        join_args = λ x y p q. Prim.grind (arith, nat_tests);
        widen_args = λ x y p q. Prim.grind (arith, nat_tests);
      };
      out = record { join_out = λ _ _ _ _. refl };
    } };
}

/// The first and the last of some numbers.
type Ends = (u32, u32);

/// The leaves that a turn gives and the arguments on which it calls again, each if there are some.
type Given = (Option<Ends>, Option<Ends>);

/// What a driver is to answer at last.
#[derive(Clone, Copy)]
enum Answer {
    Turn,
    Out(Option<Ends>),
    OutOfFuel,
}

fn numbers(ends: Option<Ends>) -> Option<Interval> {
    match ends {
        Some((low, high)) => Some(Interval { low, high }),
        None => None,
    }
}

fn is_answer(asked: DriverRequest<Interval>, wanted: Answer) -> bool {
    match (asked, wanted) {
        (DriverRequest::Turn, Answer::Turn) => true,
        (DriverRequest::OutOfFuel, Answer::OutOfFuel) => true,
        (DriverRequest::Out(out), Answer::Out(wanted)) => out == numbers(wanted),
        _ => false,
    }
}

/// Whether the numbers are at most the last one.
fn is_within(x: &Option<Interval>) -> bool
    ensures { IsTrue result → IfSome x.now (λ x. x.high ≤ 99) }
{
    match x {
        Some(x) => x.high <= TOP,
        None => true,
    }
}

/// Whether a policy allows a turn.
fn has_turn(policy: Policy) -> bool
    ensures { IsTrue result → HasTurn policy }
{
    match policy {
        Policy::Stop { turns } => turns >= 1,
        Policy::Widen {
            unroll: _unroll,
            delay: _delay,
        } => true,
    }
}

/// Whether a driver asks for turns on just these arguments, of which it begins with the first, where the turns give these, and then
/// answers so: `Turn` where it asks for more turns than are given.
fn drives(
    alloc: Global,
    policy: Policy,
    given: &[Given],
    on: &[Ends],
    answer: Answer,
) -> Result<bool, AllocError> {
    if on.len() != given.len() || on.is_empty() || on[0].1 > TOP || !has_turn(policy) {
        return Ok(false);
    }
    let (low, high) = on[0];
    let mut driver: Driver<Intervals> = Driver::new(Interval { low, high }, policy);
    for i in 0..given.len() {
        let leaves = numbers(given[i].0);
        let next = numbers(given[i].1);
        let args = *driver.args();
        if args.low != on[i].0 || args.high != on[i].1 || !is_within(&next) {
            return Ok(false);
        }
        match driver.give(alloc, &mut Intervals, leaves, next)? {
            DriverRequest::Turn => {}
            end => return Ok(is_answer(end, answer) && i == given.len() - 1),
        }
    }
    Ok(is_answer(DriverRequest::Turn, answer))
}

/// What is shown, a policy, what the turns give, the arguments that are asked for, and the answer.
type Case = (
    &'static str,
    Policy,
    &'static [Given],
    &'static [Ends],
    Answer,
);

const CASES: &[Case] = &[
    (
        "a last turn with leaves",
        Policy::Stop { turns: 1 },
        &[(Some((5, 5)), None)],
        &[(0, 9)],
        Answer::Out(Some((5, 5))),
    ),
    (
        "a last turn without leaves",
        Policy::Stop { turns: 1 },
        &[(None, None)],
        &[(0, 9)],
        Answer::Out(None),
    ),
    (
        "a last turn asks for another",
        Policy::Stop { turns: 1 },
        &[(None, Some((1, 9)))],
        &[(0, 9)],
        Answer::OutOfFuel,
    ),
    (
        "the next arguments replace the old, also where these would absorb them",
        Policy::Stop { turns: 3 },
        &[
            (None, Some((1, 9))),
            (None, Some((40, 50))),
            (Some((3, 4)), None),
        ],
        &[(0, 9), (1, 9), (40, 50)],
        Answer::Out(Some((3, 4))),
    ),
    (
        "the last turn has leaves and asks for another",
        Policy::Stop { turns: 3 },
        &[
            (None, Some((1, 9))),
            (None, Some((40, 50))),
            (Some((3, 4)), Some((0, 9))),
        ],
        &[(0, 9), (1, 9), (40, 50)],
        Answer::OutOfFuel,
    ),
    (
        "a turn is left",
        Policy::Stop { turns: 3 },
        &[(None, Some((1, 9))), (None, Some((40, 50)))],
        &[(0, 9), (1, 9)],
        Answer::Turn,
    ),
    (
        "a chain ends before the last unrolled turn",
        Policy::Widen {
            unroll: 2,
            delay: 0,
        },
        &[(Some((8, 8)), None)],
        &[(9, 9)],
        Answer::Out(Some((8, 8))),
    ),
    (
        "a chain ends with the last unrolled turn",
        Policy::Widen {
            unroll: 2,
            delay: 0,
        },
        &[(None, Some((1, 1))), (Some((8, 8)), None)],
        &[(9, 9), (1, 1)],
        Answer::Out(Some((8, 8))),
    ),
    (
        "a chain ends one turn later",
        Policy::Widen {
            unroll: 2,
            delay: 0,
        },
        &[
            (None, Some((1, 1))),
            (None, Some((2, 2))),
            (Some((7, 7)), None),
        ],
        &[(9, 9), (1, 1), (2, 2)],
        Answer::Out(Some((7, 7))),
    ),
    (
        "nothing is absorbed in unrolled turns, and then at once",
        Policy::Widen {
            unroll: 2,
            delay: 0,
        },
        &[
            (None, Some((3, 4))),
            (None, Some((3, 4))),
            (Some((6, 6)), Some((4, 4))),
        ],
        &[(0, 50), (3, 4), (3, 4)],
        Answer::Out(Some((6, 6))),
    ),
    (
        "with no unrolled turn the first arguments grow",
        Policy::Widen {
            unroll: 0,
            delay: 2,
        },
        &[
            (None, Some((1, 1))),
            (None, Some((1, 2))),
            (None, Some((1, 3))),
            (Some((5, 5)), Some((1, 99))),
        ],
        &[(0, 0), (0, 1), (0, 2), (0, 99)],
        Answer::Out(Some((5, 5))),
    ),
    (
        "the first arguments absorb the next",
        Policy::Widen {
            unroll: 0,
            delay: 2,
        },
        &[(Some((5, 5)), Some((0, 0)))],
        &[(0, 0)],
        Answer::Out(Some((5, 5))),
    ),
    (
        "`count` of the crate's documentation",
        Policy::Widen {
            unroll: 2,
            delay: 1,
        },
        &[
            (None, Some((1, 1))),
            (None, Some((2, 2))),
            (None, Some((3, 3))),
            (None, Some((3, 4))),
            (Some((10, 99)), Some((3, 10))),
        ],
        &[(0, 0), (1, 1), (2, 2), (2, 3), (2, 99)],
        Answer::Out(Some((10, 99))),
    ),
    (
        "what absorbs the old arguments is not absorbed by them",
        Policy::Widen {
            unroll: 2,
            delay: 1,
        },
        &[
            (None, Some((6, 6))),
            (None, Some((20, 30))),
            (None, Some((19, 31))),
            (None, Some((20, 32))),
            (None, Some((20, 50))),
        ],
        &[(5, 5), (6, 6), (20, 30), (19, 31), (19, 99)],
        Answer::Out(None),
    ),
    (
        "each end is widened in its turn",
        Policy::Widen {
            unroll: 0,
            delay: 0,
        },
        &[
            (None, Some((6, 6))),
            (None, Some((4, 5))),
            (None, Some((0, 98))),
        ],
        &[(5, 5), (5, 99), (0, 99)],
        Answer::Out(None),
    ),
    (
        "two ends are widened",
        Policy::Widen {
            unroll: 0,
            delay: 0,
        },
        &[(None, Some((6, 6))), (None, Some((4, 5)))],
        &[(5, 5), (5, 99)],
        Answer::Turn,
    ),
    (
        "leaves of two turns are joined",
        Policy::Widen {
            unroll: 1,
            delay: 1,
        },
        &[
            (None, Some((1, 1))),
            (Some((7, 8)), Some((2, 2))),
            (None, Some((1, 3))),
            (Some((4, 5)), None),
        ],
        &[(0, 0), (1, 1), (1, 2), (1, 99)],
        Answer::Out(Some((4, 8))),
    ),
    (
        "the first turn alone has leaves",
        Policy::Widen {
            unroll: 1,
            delay: 1,
        },
        &[
            (Some((40, 40)), Some((1, 1))),
            (None, Some((2, 2))),
            (None, Some((1, 3))),
            (None, None),
        ],
        &[(0, 0), (1, 1), (1, 2), (1, 99)],
        Answer::Out(Some((40, 40))),
    ),
    (
        "no turn has leaves",
        Policy::Widen {
            unroll: 1,
            delay: 1,
        },
        &[
            (None, Some((1, 1))),
            (None, Some((2, 2))),
            (None, Some((1, 3))),
            (None, Some((50, 60))),
        ],
        &[(0, 0), (1, 1), (1, 2), (1, 99)],
        Answer::Out(None),
    ),
    (
        "leaves are joined where turns are counted",
        Policy::Stop { turns: 2 },
        &[(Some((40, 41)), Some((1, 1))), (Some((3, 3)), None)],
        &[(0, 0), (1, 1)],
        Answer::Out(Some((3, 41))),
    ),
];

#[test]
fn drivers(rt: HostRuntime) -> Result<(), Fail> {
    for (name, policy, given, on, answer) in CASES {
        assert!(rt; drives(rt.alloc(), *policy, given, on, *answer)?, "{name}");
    }
    Ok(())
}

/// What the laws ask of turns holds of these.
fn intervals_absorb(turns: &Intervals)
    ensures absorbing { let m = ⟦<Intervals as Turn>⟧.meaning turns.now in Absorbing m.moves (ArgsFit m) }
    ensures orders { let m = ⟦<Intervals as Turn>⟧.meaning turns.now in AbsorptionOrders m.moves (ArgsFit m) }
    ensures falls { let m = ⟦<Intervals as Turn>⟧.meaning turns.now in WideningLowersRank m.moves (ArgsFit m) m.rank }
{}

#[test]
fn has_laws() {
    intervals_absorb(&Intervals);
    drivers_follow_the_rule::<Interval, Interval>();
    measures_fall::<Interval, Interval>();
    turns_are_in_order::<Interval, Interval>();
    turns_fit::<Interval, Interval>();
    results_fit::<Interval, Interval>();
    last_arguments_absorb::<Interval, Interval>();
    arguments_are_met::<Interval, Interval>();
    leaves_are_part::<Interval, Interval>();
    answers_are_one::<u32, u64, Interval, Interval>();
    stopped_answers_exist::<u32, u64, Interval, Interval>();
    widened_answers_exist::<u32, u64, Interval, Interval>();
    answers_carry_over::<u32, u64, Interval, Interval>();
    answers_fit::<u32, u64, Interval, Interval>();
    widened_answers_succeed::<u32, u64, Interval, Interval>();
    turns_are_evaluated::<u32, u64, Interval, Interval>();
    answers_are_driven::<u32, u64, Interval, Interval>();
    turns_go_on::<u32, u64, Interval, Interval>();
}
