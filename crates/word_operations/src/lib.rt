//! Operations on machine words of 1 to 64 bits, each exactly as specs/ defines it.
//!
//! A word of w bits is a whole number below 2^w in the lowest bits of a `u64`. Its signed reading is
//! two's complement. No call takes memory or fails: a quotient or remainder by 0 is 0, a shift by
//! the width or more leaves no bit or, where it is arithmetic, the sign in every bit, and a rotation
//! takes its count modulo the width.
//!
//! The functions of `laws` say what holds of the definitions. Proofs elsewhere cite these lemmas,
//! each of which is over the width:
//!
//! - proofs/Fits: a result is a word (`op2_of_fits`, `op1_of_fits`, `zext_of_fits`, `sext_of_fits`,
//!   `trunc_of_fits`).
//! - proofs/Readings: the signed reading by cases on the sign (`signed_low`, `signed_negative`), its
//!   range (`signed_reading`, `signed_abs`), and the way back (`unsigned-signed`, `signed-unsigned`,
//!   `unsigned_fits`, `unsigned_from`).
//! - proofs/Bounds, for intervals: when a result is exact (`add_exact`, `add_past`, `sub_exact`,
//!   `sub_past`, `mul_exact`, `neg_exact`, `neg_zero`, `shl_exact`, `rot_l_exact`, `rem_u_exact`),
//!   what bounds it (`and_le`, `or_ge`, `or_below`, `xor_below`, `div_u_le`, `rem_u_below`,
//!   `rem_u_le`), in what it grows (`shr_u_mono`, `shr_s_mono`, `div_u_mono`, `mul_hi_u_mono`,
//!   `signed_mono`), and signed operations by the sign bits (`shr_s_low`, `shr_s_high`, `div_s_low`,
//!   `rem_s_low`, `mul_hi_s_low`, `signed_apart`, `sext_low`, `sext_high`), and truncation
//!   (`trunc_exact`, `trunc_mono`).
//! - proofs/Modular, for affine forms: an operation as a sum or a product modulo 2^w
//!   (`neg_product`, `sub_product`, `not_product`, `shl_product`).
//! - proofs/ReadingLaws, ArithmeticLaws, DivisionLaws, ShiftLaws, BitLaws, CastLaws and OrderLaws:
//!   each law of `laws` under its name there.
#![tactic(auto)]

mod arithmetic;
mod bits;
mod casts;
mod compare;
mod division;
mod kinds;
pub mod laws;
mod operations;
mod products;
mod shifts;
mod signed;
mod width;

pub use casts::{sext, trunc, zext};
pub use compare::cmp;
pub use kinds::{BinaryOperation, UnaryOperation, WordComparison};
pub use operations::{op1, op2};
pub use width::greatest;
