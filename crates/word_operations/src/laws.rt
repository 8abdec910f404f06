//! Laws of the definitions: each contract is a law, stated in specs/Laws.antt, and nothing runs.

ghost use Rattle.word_operations.specs.Laws.{BitByBit, DivisionByZero, Equality, LeastByMinusOne, LeftShift, NegationUndoes, ReadingsAreWords, Rotation, SameForBothReadings, ShiftByWidth, SignExtension, SignedDivision, SignedHalves, SignedOrder, SignedRemainder, SignedRightShift, Truncation, UnsignedDivision, UnsignedHalves, UnsignedOrder, UnsignedRightShift, WordsAreRemainders, ZeroExtension};

/// Words and signed readings go with each other, one by one.
pub fn readings_are_words()
    ensures { ReadingsAreWords }
{}

/// The word of an integer differs from it by a multiple of 2^w.
pub fn words_are_remainders()
    ensures { WordsAreRemainders }
{}

/// Sums, differences and products are those of the signed readings too.
pub fn same_for_both_readings()
    ensures { SameForBothReadings }
{}

/// A word and its negation add up to 0; to subtract is to add the negation.
pub fn negation_undoes()
    ensures { NegationUndoes }
{}

/// The high and the low half put the unsigned product together.
pub fn unsigned_halves()
    ensures { UnsignedHalves }
{}

/// The high and the low half put the signed product together.
pub fn signed_halves()
    ensures { SignedHalves }
{}

/// Unsigned quotient and remainder put the dividend together again.
pub fn unsigned_division()
    ensures { UnsignedDivision }
{}

/// Signed quotient and remainder put the dividend together again.
pub fn signed_division()
    ensures { SignedDivision }
{}

/// The signed remainder is small, and has the sign of the dividend.
pub fn signed_remainder()
    ensures { SignedRemainder }
{}

/// The least number by -1 is the least number, with remainder 0.
pub fn least_by_minus_one()
    ensures { LeastByMinusOne }
{}

/// Quotients and remainders by 0 are 0.
pub fn division_by_zero()
    ensures { DivisionByZero }
{}

/// And, Or, Xor and Not go bit by bit.
pub fn bit_by_bit()
    ensures { BitByBit }
{}

/// A left shift is multiplication.
pub fn left_shift()
    ensures { LeftShift }
{}

/// A right shift is division.
pub fn unsigned_right_shift()
    ensures { UnsignedRightShift }
{}

/// An arithmetic right shift is division, rounded down.
pub fn signed_right_shift()
    ensures { SignedRightShift }
{}

/// What is left after a shift by the width or more.
pub fn shift_by_width()
    ensures { ShiftByWidth }
{}

/// A rotation moves each bit to its place.
pub fn rotation()
    ensures { Rotation }
{}

/// Zero extension keeps the number.
pub fn zero_extension()
    ensures { ZeroExtension }
{}

/// Sign extension keeps the signed reading.
pub fn sign_extension()
    ensures { SignExtension }
{}

/// Truncation keeps the lowest bits.
pub fn truncation()
    ensures { Truncation }
{}

/// Eq and Ne tell whether two words are one.
pub fn equality()
    ensures { Equality }
{}

/// The unsigned order is total, and that of the numbers.
pub fn unsigned_order()
    ensures { UnsignedOrder }
{}

/// The signed order is total, and that of the signed readings.
pub fn signed_order()
    ensures { SignedOrder }
{}
