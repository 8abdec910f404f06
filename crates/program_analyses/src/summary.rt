//! The summary of a stress.

ghost use Rattle.std.specs.Prelude.{◌≡◌, IfOk};
ghost use Rattle.state_text.specs.Stops as stops;
ghost use Rattle.program_stress_code.specs.Summary.{summary_text};

use program_stress_code::summary_text;
use state_text::Stop;
use std::alloc::{AllocError, Global};

/// The name of a stop.
fn stop_name(stop: Stop) -> &'static str
    ensures { result.now ≡ stops.stop_name stop }
{
    match stop {
        Stop::Bound => "bound",
        Stop::Left => "left",
        Stop::Undecodable { .. } => "undecodable",
        Stop::Turns { .. } => "calls",
    }
}

/// The summary of code of so many words, whose run stops so after so many steps.
pub(crate) fn stopped_summary(
    alloc: Global,
    words: u32,
    measured: &[u8],
    steps: u64,
    stop: Stop,
) -> Result<Vec<u8>, AllocError>
    ensures { IfOk result (λ text. text.items ≡ summary_text words measured.now steps (stops.stop_name stop)) }
{
    summary_text(alloc, words, measured, steps, stop_name(stop))
}
