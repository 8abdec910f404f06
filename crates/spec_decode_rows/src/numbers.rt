//! Numbers and their widths.

ghost use Rattle.std.specs.Prelude.{◌≡◌, ◌^◌, nat_lt};
ghost use Rattle.spec_ir.specs.Environment.{same_type};
ghost use Rattle.spec_ir.specs.declared.ty.Ty.TheVariants.{Word};
ghost use Rattle.spec_decode_rows.specs.Bits as spec;

use spec_ir::Ty;

/// Whether a width has room for a number.
#[tactic(auto, using(crate::proofs::Steps::row_steps))]
pub fn fits(v: u64, w: u64) -> bool
    ensures { result ≡ nat_lt v (2 ^ w) }
{
    w >= 64 || v < 1 << w
}

/// Bit `n` of a number, the least significant being bit 0.
#[tactic(auto, using(crate::proofs::Steps::row_steps))]
pub fn bit(v: u64, n: u64) -> bool
    ensures { result ≡ spec.bit v n }
{
    n < 64 && (v >> n) % 2 == 1
}

/// Whether a type is that of words of a width.
pub fn is_word(ty: Ty, w: u64) -> bool
    ensures { result ≡ same_type ty (Word w) }
{
    match ty {
        Ty::Word(n) => n as u64 == w,
        _ => false,
    }
}
