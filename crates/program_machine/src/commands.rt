//! The chains of the commands.

ghost use Rattle.std.specs.Prelude.{◌≤◌, length};
ghost use Rattle.support_command_line.specs.Views.{emulate_of, list_of};
ghost use Rattle.program_common.specs.Outcomes.{Gives, answer_of};
ghost use Rattle.program_common.specs.Reading.{Gave, ReadsOnly};
ghost use Rattle.program_machine.specs.Steps.{EmulateSteps, ListSteps, emulate_inputs, list_inputs};

use crate::code::image_of;
use crate::entry::start_of;
use crate::machine::machine_of;
use crate::running::{listing, run_machine};
use program_common::{Answer, Halt};
use std::alloc::Global;
use support_command_line::{EmulateRequest, ListRequest};
use support_io::Inputs;

/// The run of a machine from an entry: why it ended, after how many steps, and its last state.
pub fn emulate_request<'a, I: Inputs>(
    alloc: Global,
    inputs: &mut I,
    request: &EmulateRequest<'a>,
) -> Result<Answer, Halt<'a>>
    requires few { length request.now.code.parts.items ≤ 16 }
    ensures reads { ReadsOnly I.state (emulate_inputs (emulate_of request.now)) inputs.old inputs.new result }
    ensures gives { Gives (EmulateSteps (Gave (I.state inputs.old) (I.state inputs.new)) (emulate_of request.now))
        answer_of result }
{
    let spec = machine_of(alloc, inputs, request.spec)?;
    let image = image_of(alloc, inputs, &request.code)?;
    let start = start_of(alloc, inputs, &spec, request.entry)?;
    Ok(run_machine(alloc, &spec, &image, start, request.calls, request.steps)?)
}

/// The listing of code.
pub fn list_request<'a, I: Inputs>(
    alloc: Global,
    inputs: &mut I,
    request: &ListRequest<'a>,
) -> Result<Answer, Halt<'a>>
    requires few { length request.now.code.parts.items ≤ 16 }
    ensures reads { ReadsOnly I.state (list_inputs (list_of request.now)) inputs.old inputs.new result }
    ensures gives { Gives (ListSteps (Gave (I.state inputs.old) (I.state inputs.new)) (list_of request.now))
        answer_of result }
{
    let spec = machine_of(alloc, inputs, request.spec)?;
    let image = image_of(alloc, inputs, &request.code)?;
    Ok(listing(alloc, &spec, &image)?)
}
