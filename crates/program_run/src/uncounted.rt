//! A run on a counter of its own.

ghost use Rattle.std.specs.Prelude.{◌≡◌, ◌<◌};
ghost use Rattle.support_io.specs.Faults.{RoseByOne};
ghost use Rattle.program_run.specs.Output.{Ends};
ghost use Rattle.support_command_line.specs.Views.{texts};

use crate::run;
use program_common::Status;
use std::alloc::Global;
use std::marker::Brand;
use std::sync::ledger::{Blank, Ledger};
use support_io::{Inputs, Sink};
use support_step_counter::Steps;

/// The run, where the counter of transfers is of this blank.
fn run_counted<I: Inputs, S: Sink, L: Ledger>(
    alloc: Global,
    words: &[String],
    inputs: &mut I,
    sink: &mut S,
    blank: Blank,
) -> Status
    requires name { blank.name ≡ L.name }
    requires parts { blank.parts ≡ L.parts }
    requires some { 0 < blank.parts }
    ensures ends { Ends (texts words.now) (I.state inputs.old) (I.state inputs.new) (S.state sink.old) (S.state sink.new) result }
    ensures write_fault { result ≡ Status.WriteFault → RoseByOne (S.state sink.old).faults (S.state sink.new).faults }
{
    let mut steps: Steps<L> = Steps::new(blank);
    run::<I, S, L>(alloc, words, inputs, sink, &mut steps)
}

/// `run`, for a caller that counts no transfers.
pub fn run_uncounted<I: Inputs, S: Sink>(
    alloc: Global,
    words: &[String],
    inputs: &mut I,
    sink: &mut S,
) -> Status
    ensures ends { Ends (texts words.now) (I.state inputs.old) (I.state inputs.new) (S.state sink.old) (S.state sink.new) result }
    ensures write_fault { result ≡ Status.WriteFault → RoseByOne (S.state sink.old).faults (S.state sink.new).faults }
{
    run_counted::<I, S, Brand>(alloc, words, inputs, sink, Blank::new(1))
}
