//! Why a run stopped, as a line.

ghost use Rattle.std.specs.Prelude.{◌≡◌, ◌++◌, IfOk, OnOk, codes};
ghost use Rattle.std.specs.String.{string_bytes};
ghost use Rattle.spec_ir.specs.Views.{specification};
ghost use Rattle.semantics_values.specs.Views as values;
ghost use Rattle.state_text.specs.Stops as defined;

use crate::writer::push_state;
use semantics_values::State;
use spec_ir::Spec;
use state_cell_text::push_hex;
use std::alloc::{AllocError, Global};

/// Why a run stopped: all steps that were asked for are done; the program counter left the code; the word at an
/// address meets no row; or a function had no turn left at an address.
#[derive(Clone, Copy, Debug, PartialEq, Eq)]
pub enum Stop {
    Bound,
    Left,
    Undecodable { at: u32, word: u32 },
    Turns { at: u32 },
}

/// The name of a stop.
fn stop_name(stop: Stop) -> &'static str
    ensures { result.now ≡ defined.stop_name stop }
{
    match stop {
        Stop::Bound => "bound",
        Stop::Left => "left",
        Stop::Undecodable { .. } => "undecodable",
        Stop::Turns { .. } => "calls",
    }
}

/// Appends an address or a word, in hex digits.
#[tactic(auto, unfolding(crate::specs::Stops::word_digits))]
fn push_digits(out: &mut String, v: u32) -> Result<(), AllocError>
    ensures { OnOk result (string_bytes out.new ≡ string_bytes out.old ++ defined.word_digits v) }
{
    push_hex(out, 8, u64::from(v))
}

/// Appends an address.
fn push_address(out: &mut String, at: u32) -> Result<(), AllocError>
    ensures { OnOk result (string_bytes out.new ≡ string_bytes out.old ++ (codes " at " ++ defined.word_digits at)) }
{
    out.push_str(" at ")?;
    push_digits(out, at)
}

/// Appends an address, and the word there.
fn push_word(out: &mut String, at: u32, word: u32) -> Result<(), AllocError>
    ensures { OnOk result (string_bytes out.new ≡ string_bytes out.old
        ++ (codes " at " ++ (defined.word_digits at ++ (codes " word " ++ defined.word_digits word)))) }
{
    out.push_str(" at ")?;
    push_digits(out, at)?;
    out.push_str(" word ")?;
    push_digits(out, word)
}

/// Appends where a stop is, and what stands there.
fn push_place(out: &mut String, stop: Stop) -> Result<(), AllocError>
    ensures { OnOk result (string_bytes out.new ≡ string_bytes out.old ++ defined.stop_place stop) }
{
    match stop {
        Stop::Bound => Ok(()),
        Stop::Left => Ok(()),
        Stop::Undecodable { at, word } => push_word(out, at, word),
        Stop::Turns { at } => push_address(out, at),
    }
}

/// Appends the line of a stop after so many steps.
fn push_stop(out: &mut String, stop: Stop, done: u64) -> Result<(), AllocError>
    ensures { OnOk result (string_bytes out.new ≡ string_bytes out.old ++ defined.stop_line stop done) }
{
    out.push_str("# stop ")?;
    out.push_str(stop_name(stop))?;
    write!(out, " steps {done}")?;
    push_place(out, stop)?;
    out.push_str("\n")
}

/// The line of a stop after so many steps, and the text of the state there.
pub fn stopped_text(
    alloc: Global,
    spec: &Spec,
    stop: Stop,
    done: u64,
    state: &State,
) -> Result<Vec<u8>, AllocError>
    ensures { IfOk result (λ r. r.items ≡ defined.stopped_text (specification spec.now) stop done (values.state state.now)) }
{
    let mut out = String::new(alloc);
    push_stop(&mut out, stop, done)?;
    push_state(&mut out, spec, state)?;
    Ok(out.into_bytes())
}
