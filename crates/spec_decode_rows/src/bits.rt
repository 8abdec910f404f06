//! The bits that a row fixes.

ghost use Rattle.std.specs.Prelude.{◌≡◌, ◌++◌, IfOk, None, OnOk, replicate};
ghost use Rattle.spec_decode_rows.specs.Bits as spec;

use crate::numbers::bit;
use std::alloc::{AllocError, Global};
use syntax_parser::tree::PartDecl;

/// The bits of a row, the most significant first: the value of a fixed one, none for a free one.
pub fn row_bits(alloc: Global, parts: &[PartDecl]) -> Result<Vec<Option<bool>>, AllocError>
    ensures { IfOk result (λ r. r.items ≡ spec.row_bits parts.now) }
{
    let mut out = Vec::new(alloc);
    for p in parts {
        match p {
            PartDecl::Fixed { v, w, .. } => push_bits(&mut out, v.v, w.v)?,
            PartDecl::Named { w, .. } => push_free(&mut out, w.v)?,
        }
    }
    Ok(out)
}

/// Puts the `w` low bits of a number behind others, the most significant first.
#[tactic(auto, using(crate::proofs::Steps::row_steps))]
fn push_bits(out: &mut Vec<Option<bool>>, v: u64, w: u64) -> Result<(), AllocError>
    ensures { OnOk result (out.new.items ≡ out.old.items ++ spec.bits_of v w) }
{
    let mut left = w;
    while left > 0 {
        left -= 1;
        out.push(Some(bit(v, left)))?;
    }
    Ok(())
}

/// Puts `w` free bits behind others.
fn push_free(out: &mut Vec<Option<bool>>, w: u64) -> Result<(), AllocError>
    ensures { OnOk result (out.new.items ≡ out.old.items ++ replicate w None) }
{
    let mut left = w;
    while left > 0 {
        left -= 1;
        out.push(None)?;
    }
    Ok(())
}

/// Whether two rows agree on every bit that both fix.
#[tactic(auto, using(crate::proofs::Steps::row_steps))]
pub fn all_agree(a: &[Option<bool>], b: &[Option<bool>]) -> bool
    ensures { result ≡ spec.all_agree a.now b.now }
{
    for i in 0..a.len().min(b.len()) {
        if !bits_agree(a[i], b[i]) {
            return false;
        }
    }
    true
}

/// Whether two bits agree: they don't where both are fixed, to different values.
fn bits_agree(a: Option<bool>, b: Option<bool>) -> bool
    ensures { result ≡ spec.bits_agree a b }
{
    match (a, b) {
        (Some(x), Some(y)) => x == y,
        _ => true,
    }
}
