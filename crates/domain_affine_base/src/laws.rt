//! Laws of forms: each contract is a law, stated in specs/Exact.antt, and nothing runs.

ghost use Rattle.domain_affine_base.specs.Exact.{DifferencesTell, ExactResults, LinearValues, OneNumber, StandsByValue};

/// Each word but any stands for one number in each valuation.
pub fn one_number()
    ensures { OneNumber }
{}

/// Where words stand for one number each, their negation, complement, sum and difference, the product with a constant
/// and the shift by a constant stand for the result on these numbers, and for no other.
pub fn exact_results()
    ensures { ExactResults }
{}

/// Over each vector, the value of a sum is the sum of the values, and that of a multiple the multiple.
pub fn linear_values()
    ensures { LinearValues }
{}

/// A word of 32 bits stands for a number exactly where the number is the value of its form over 1 and the valuation.
pub fn stands_by_value()
    ensures { StandsByValue }
{}

/// A comparison of forms tells what their difference does: where that is 0 they are equal, where it is another constant
/// they are not, and else nothing is told.
pub fn differences_tell()
    ensures { DifferencesTell }
{}
