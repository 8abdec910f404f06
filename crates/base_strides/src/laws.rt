//! Laws of sets and strided intervals: each contract is a law, and nothing runs.

ghost use Rattle.std.specs.Prelude.{ℕ, List};
ghost use Rattle.base_trait.specs.Laws.{Laws};
ghost use Rattle.base_strides.specs.Best.{ExactAbsorption, LeastJoins, LeastResults};
ghost use Rattle.base_strides.specs.Meaning.{strides};
ghost use Rattle.base_strides.specs.Words.{Word};

/// The laws of a base: operations, comparisons and casts hold each result, the join is the least word that absorbs
/// both sides, and widening ends.
pub fn laws_of_strides()
    ensures { Laws Word (Unit {0}) (List ℕ) strides }
{}

/// Operations and casts of sets give the least word that has all results.
pub fn least_results()
    ensures { LeastResults }
{}

/// One word absorbs another exactly where it has each of its numbers.
pub fn exact_absorption()
    ensures { ExactAbsorption }
{}

/// A join is the least word that has the numbers of both sides.
pub fn least_joins()
    ensures { LeastJoins }
{}
