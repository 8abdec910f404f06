//! Laws of cutting words, stated in specs/Cuts.antt and specs/Laws.antt. Nothing runs.

ghost use Rattle.base_interval.specs.Meaning as intervals;
ghost use Rattle.base_kset.specs.Meaning as sets;
ghost use Rattle.base_strides.specs.Meaning as strides;
ghost use Rattle.base_cuts.specs.Cuts.{CutLaws};
ghost use Rattle.base_cuts.specs.Intervals.{interval_cuts};
ghost use Rattle.base_cuts.specs.Laws.{PairsAreCut, WordsMayStayUncut};
ghost use Rattle.base_cuts.specs.Sets.{set_cuts};
ghost use Rattle.base_cuts.specs.Strides.{stride_cuts};

use base_trait::Base;

/// Sets of at most K numbers are cut.
pub fn sets_are_cut<const K: usize>()
    ensures { CutLaws (sets.words K) (set_cuts K) }
{}

/// Intervals are cut.
pub fn intervals_are_cut()
    ensures { CutLaws intervals.words interval_cuts }
{}

/// Sets of at most 16 numbers and strided intervals are cut.
pub fn strides_are_cut()
    ensures { CutLaws strides.words stride_cuts }
{}

/// Words of any base may stay uncut.
pub fn words_may_stay_uncut<B: Base>()
    ensures { WordsMayStayUncut B.algebra }
{}

/// Pairs are cut as their parts are.
pub fn pairs_are_cut<A: Base, B: Base>()
    ensures { PairsAreCut A.algebra B.algebra }
{}
