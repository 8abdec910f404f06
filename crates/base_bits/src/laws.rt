//! Laws of known bits: each contract is a law, stated in specs/Best.antt, and nothing runs.

ghost use Rattle.base_bits.specs.Best.{BestBitByBit, BestCasts, BestJoins, BestShifts, ExactResults};

/// And, Or, Xor and Not know each bit that all results have alike.
pub fn best_bit_by_bit()
    ensures { BestBitByBit }
{}

/// So do shifts and rotations by an exact number.
pub fn best_shifts()
    ensures { BestShifts }
{}

/// So do casts.
pub fn best_casts()
    ensures { BestCasts }
{}

/// A join knows each bit that all numbers of both have alike.
pub fn best_joins()
    ensures { BestJoins }
{}

/// Exact words give the exact result.
pub fn exact_results()
    ensures { ExactResults }
{}
