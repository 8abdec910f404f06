//! The lines that tell of made code.

ghost use Rattle.std.specs.Prelude.{◌≡◌, IfOk};
ghost use Rattle.program_stress_code.specs.Summary as defined;

use std::alloc::{AllocError, Global};

/// The lines of an analysis: how many transfers it makes, how many elements its table has, and the verdict on that.
pub fn measure_text(
    alloc: Global,
    transfers: usize,
    elements: usize,
    verdict: &str,
) -> Result<Vec<u8>, AllocError>
    ensures { IfOk result (λ text. text.items ≡ defined.measure_text transfers elements verdict.now) }
{
    let text = format!(in alloc;
        "transfers {transfers}\nelements {elements}\nverdict {verdict}\n"
    )?;
    Ok(text.into_bytes())
}

/// The summary of code of so many words: behind the lines of its analysis how many steps its run takes, and why that ends.
pub fn summary_text(
    alloc: Global,
    words: u32,
    measured: &[u8],
    steps: u64,
    stop: &str,
) -> Result<Vec<u8>, AllocError>
    ensures { IfOk result (λ text. text.items ≡ defined.summary_text words measured.now steps stop.now) }
{
    let mut text = format!(in alloc; "words {words}\n")?.into_bytes();
    text.extend_from_slice(measured)?;
    let run = format!(in alloc; "steps {steps}\nstop {stop}\n")?;
    text.extend_from_slice(run.as_bytes())?;
    Ok(text)
}
