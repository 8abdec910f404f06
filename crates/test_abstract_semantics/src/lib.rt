//! The laws of the reinterpretation at three bases: sets of at most 16 numbers, pairs of such a set and an interval, and single numbers.
//!
//! Each function says what a law comes to for a base, with nothing left open: that the base joins, or has room for each key of a map, is told.
#![tactic(auto)]

ghost use Rattle.base_concrete.specs.Meaning.{concrete};
ghost use Rattle.base_interval.specs.Meaning.{interval};
ghost use Rattle.base_kset.specs.Meaning.{kset};
ghost use Rattle.base_product.specs.Meaning.{paired};
ghost use Rattle.abstract_semantics.specs.Laws.{CallsAreSettled, CallsAreSound, CallsAreTheMeaning, CallsKeepTypes, CallsListStamps, StoppedCallsExist, WidenedCallsExist, WidenedCallsSucceed};

use abstract_semantics::laws::{
    calls_are_settled, calls_are_sound, calls_are_the_meaning, calls_keep_types, calls_list_stamps,
    stopped_calls_exist, widened_calls_exist, widened_calls_succeed,
};
use base_concrete::Concrete;
use base_interval::Interval;
use base_kset::KSet;
use base_product::Paired;

/// Over sets, calls have a reinterpretation, one alone, which is sound at every bound, typed, and lists few stamps.
pub fn sets()
    ensures sound { CallsAreSound (kset 16) }
    ensures there { WidenedCallsExist (kset 16) }
    ensures one { CallsAreSettled (kset 16) }
    ensures typed { CallsKeepTypes (kset 16) }
    ensures shallow { WidenedCallsSucceed (kset 16) }
    ensures stamps { CallsListStamps (kset 16) }
{
    calls_are_sound::<KSet<16>>();
    widened_calls_exist::<KSet<16>>();
    calls_are_settled::<KSet<16>>();
    calls_keep_types::<KSet<16>>();
    widened_calls_succeed::<KSet<16>>();
    calls_list_stamps::<KSet<16>>();
}

/// So it is over pairs.
pub fn pairs()
    ensures sound { CallsAreSound (paired (kset 16) interval) }
    ensures there { WidenedCallsExist (paired (kset 16) interval) }
    ensures one { CallsAreSettled (paired (kset 16) interval) }
    ensures typed { CallsKeepTypes (paired (kset 16) interval) }
    ensures shallow { WidenedCallsSucceed (paired (kset 16) interval) }
    ensures stamps { CallsListStamps (paired (kset 16) interval) }
{
    calls_are_sound::<Paired<KSet<16>, Interval>>();
    widened_calls_exist::<Paired<KSet<16>, Interval>>();
    calls_are_settled::<Paired<KSet<16>, Interval>>();
    calls_keep_types::<Paired<KSet<16>, Interval>>();
    widened_calls_succeed::<Paired<KSet<16>, Interval>>();
    calls_list_stamps::<Paired<KSet<16>, Interval>>();
}

/// Over single numbers, calls under a bound on turns have a reinterpretation, which is the direct meaning.
pub fn numbers()
    ensures meaning { CallsAreTheMeaning concrete }
    ensures there { StoppedCallsExist concrete }
    ensures one { CallsAreSettled concrete }
{
    calls_are_the_meaning::<Concrete>();
    stopped_calls_exist::<Concrete>();
    calls_are_settled::<Concrete>();
}
