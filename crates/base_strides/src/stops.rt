//! Widening of strided intervals, and their ranks.

ghost use Rattle.std.specs.Prelude.{◌≡◌, ◌≤◌, ◌<◌, ◌^◌, ◌+◌, ◌-◌, length};
ghost use Rattle.word_operations.specs.Width.{IsWidth};
ghost use Rattle.base_strides.specs.Meaning.{halvings, high_stops, low_stops, stop_above, stop_below, stretch_rank, widened, widened_high, widened_low};
ghost use Rattle.base_strides.specs.Words.{IsEnds};

use super::stretch::{Stretch, whole_steps};
use super::width::greatest;

/// The greatest stop that is at most `n`, or 0.
fn stop_below(stops: &[u64], n: u64) -> u64
    ensures value { result ≡ stop_below stops.now n }
    ensures less { result ≤ n }
{
    let mut best = 0;
    let mut left = stops.len();
    while left > 0 {
        left = left - 1;
        let stop = stops[left];
        if stop <= n && best <= stop {
            best = stop;
        }
    }
    best
}

/// The least stop that is at least `n`, or the greatest word.
fn stop_above(w: u32, stops: &[u64], n: u64) -> u64
    requires width { IsWidth w }
    requires word { n < 2 ^ w }
    ensures value { result ≡ stop_above (2 ^ w - 1) stops.now n }
    ensures more { n ≤ result }
    ensures fits { result < 2 ^ w }
{
    let mut best = greatest(w);
    let mut left = stops.len();
    while left > 0 {
        left = left - 1;
        let stop = stops[left];
        if n <= stop && stop <= best {
            best = stop;
        }
    }
    best
}

fn widened_low(stops: &[u64], step: u64, old: u64, new: u64) -> u64
    ensures value { result ≡ widened_low stops.now step old new }
    ensures less { result ≤ old }
{
    if old <= new {
        old
    } else {
        new - whole_steps(new - stop_below(stops, new), step)
    }
}

fn widened_high(w: u32, stops: &[u64], old: u64, new: u64) -> u64
    requires width { IsWidth w }
    requires word { new < 2 ^ w }
    ensures value { result ≡ widened_high w stops.now old new }
    ensures more { old ≤ result }
{
    if new <= old {
        old
    } else {
        stop_above(w, stops, new)
    }
}

/// Each end that the new stretch passes goes to the next stop.
pub(crate) fn widened(stops: &[u64], w: u32, old: Stretch, new: Stretch) -> Stretch
    requires width { IsWidth w }
    requires left { IsEnds w old }
    requires right { IsEnds w new }
    ensures { result ≡ widened stops.now w old new }
{
    let step = old.common_step(new);
    Stretch::new(
        widened_low(stops, step, old.lo, new.lo),
        step,
        widened_high(w, stops, old.hi, new.hi),
    )
}

/// How many stops the low end can still go to, 0 among them.
fn low_stops(stops: &[u64], x: Stretch) -> u64
    requires { length stops.now ≤ 64 }
    ensures value { result ≡ low_stops stops.now x }
    ensures few { result ≤ 65 }
{
    let step = x.step as u128;
    let mut count = if step <= x.lo as u128 { 1 } else { 0 };
    for stop in stops {
        if *stop as u128 + step <= x.lo as u128 {
            count = count + 1;
        }
    }
    count
}

/// How many stops the high end can still go to, the greatest word among them.
fn high_stops(stops: &[u64], w: u32, x: Stretch) -> u64
    requires width { IsWidth w }
    requires few { length stops.now ≤ 64 }
    ensures value { result ≡ high_stops stops.now w x }
    ensures few { result ≤ 65 }
{
    let least = x.hi as u128 + x.step as u128;
    let mut count = if least <= greatest(w) as u128 { 1 } else { 0 };
    for stop in stops {
        if least <= *stop as u128 {
            count = count + 1;
        }
    }
    count
}

/// How often the number can be halved, as far as it is below 2^w.
fn halvings(w: u32, n: u64) -> u64
    requires { w ≤ 64 }
    ensures value { result ≡ halvings w n }
    ensures few { result ≤ w }
{
    if w == 0 || n < 2 {
        return 0;
    }
    1 + halvings(w - 1, n / 2)
}

/// What falls where a stretch is widened and changes.
pub(crate) fn rank(stops: &[u64], w: u32, x: Stretch) -> u64
    requires width { IsWidth w }
    requires few { length stops.now ≤ 64 }
    ensures { result ≡ stretch_rank stops.now w x }
{
    131 * halvings(w, x.step) + (low_stops(stops, x) + high_stops(stops, w, x))
}
