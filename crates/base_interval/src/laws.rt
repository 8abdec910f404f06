//! Laws of intervals: each contract is a law, stated in specs/Best.antt, and nothing runs.

ghost use Rattle.base_interval.specs.Best.{ExactComparisons, LeastCasts, LeastOnes, LeastResults, LeastWrapped};

/// Negations, complements, sums and differences give the least interval of the results.
pub fn least_results()
    ensures { LeastResults }
{}

/// Casts give the least interval of the results.
pub fn least_casts()
    ensures { LeastCasts }
{}

/// A comparison may have exactly the truth values that it has of some two numbers.
pub fn exact_comparisons()
    ensures { ExactComparisons }
{}

/// The words of successive whole numbers give the least interval of them.
pub fn least_wrapped()
    ensures { LeastWrapped }
{}

/// The number of ones that bounds disjunctions is the least.
pub fn least_ones()
    ensures { LeastOnes }
{}
