//! Why a table is rejected.

ghost use Rattle.std.specs.Prelude.{◌≡◌, IfOk};
ghost use Rattle.std.specs.String.{string_bytes};
ghost use Rattle.program_common.specs.Lines.{rejected_open_line, rejected_targets_line, rejected_use_line, rejection_line};

use state_cell_text::push_hex;
use std::alloc::{AllocError, Global};

/// The first part of a closed table that a table lacks. What has no decoding, or too many targets, is refused otherwise.
#[derive(Clone, Copy, Debug, PartialEq, Eq, Drop)]
pub enum Rejection {
    /// No element at the entry's counter absorbs that of the entry.
    Entry,
    /// The instruction at an address leads to another, where no element absorbs the one behind the instruction.
    Open { from: u32, to: u32 },
    /// The next addresses or the exits that are listed are not those of the instruction.
    Targets { at: u32 },
    /// The uses that are listed are not those of the instruction.
    Use { at: u32 },
}

impl Rejection {
    /// The line that says so: `rejected open FROM TO`.
    pub fn line(&self, alloc: Global) -> Result<String, AllocError>
        ensures { IfOk result (λ text. string_bytes text ≡ rejection_line self.now) }
    {
        match self {
            Rejection::Entry => String::from_str(alloc, "rejected entry\n"),
            Rejection::Open { from, to } => open_line(alloc, *from, *to),
            Rejection::Targets { at } => targets_line(alloc, *at),
            Rejection::Use { at } => use_line(alloc, *at),
        }
    }
}

/// `rejected open FROM TO`.
fn open_line(alloc: Global, from: u32, to: u32) -> Result<String, AllocError>
    ensures { IfOk result (λ text. string_bytes text ≡ rejected_open_line from to) }
{
    let mut out = String::from_str(alloc, "rejected open ")?;
    push_hex(&mut out, 8, u64::from(from))?;
    out.push_str(" ")?;
    push_hex(&mut out, 8, u64::from(to))?;
    out.push_str("\n")?;
    Ok(out)
}

/// `rejected targets AT`.
fn targets_line(alloc: Global, at: u32) -> Result<String, AllocError>
    ensures { IfOk result (λ text. string_bytes text ≡ rejected_targets_line at) }
{
    let mut out = String::from_str(alloc, "rejected targets ")?;
    push_hex(&mut out, 8, u64::from(at))?;
    out.push_str("\n")?;
    Ok(out)
}

/// `rejected use AT`.
fn use_line(alloc: Global, at: u32) -> Result<String, AllocError>
    ensures { IfOk result (λ text. string_bytes text ≡ rejected_use_line at) }
{
    let mut out = String::from_str(alloc, "rejected use ")?;
    push_hex(&mut out, 8, u64::from(at))?;
    out.push_str("\n")?;
    Ok(out)
}
