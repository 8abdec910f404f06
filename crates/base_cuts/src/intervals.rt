//! Intervals are cut exactly.

use super::cut_base::CutBase;
use base_interval::{Interval, Range};
use std::alloc::{AllocError as NoMemory, Global};

impl CutBase for Interval {
    ghost use Rattle.base_cuts.specs.IntervalLaws.{intervals_are_cut};
    ghost use Rattle.base_cuts.specs.Intervals.{interval_cuts};

    ghost cuts = { interval_cuts };

    /// The numbers that lie between: `[3, 9]` between 0 and 5 is `[3, 5]`.
    fn meet(
        _alloc: Global,
        _ctx: &(),
        _w: u32,
        x: &Range,
        low: u64,
        high: u64,
    ) -> Result<Option<Range>, NoMemory> {
        let (low, high) = (x.lo.max(low), x.hi.min(high));
        if low <= high {
            Ok(Some(Range { lo: low, hi: high }))
        } else {
            Ok(None)
        }
    }

    ghost cut_laws = { intervals_are_cut };
}
