//! Laws of sets: each contract is a law, stated in specs/Best.antt, and nothing runs.

ghost use Rattle.base_kset.specs.Best.{BestResults, ExactComparisons, NoNumbers};

/// Operations and casts of sets give exactly the set of results where that has at most K numbers, and
/// joins and ranges exactly the union and the range.
pub fn best_results<const K: usize>()
    ensures { BestResults K }
{}

/// A comparison of sets may have exactly the truth values that it has of some pair of numbers.
pub fn exact_comparisons()
    ensures { ExactComparisons }
{}

/// Where sets have at most 0 numbers every word is any.
pub fn no_numbers()
    ensures { NoNumbers }
{}
