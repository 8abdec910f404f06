//! The code of a machine.

ghost use Rattle.std.specs.Prelude.{◌≡◌, ◌≤◌, suc, IfOk, length, map};
ghost use Rattle.support_command_line.specs.Views.{code_of, part_of};
ghost use Rattle.code_image.specs.Views.{segment_of};
ghost use Rattle.program_common.specs.Outcomes.{Gives};
ghost use Rattle.program_common.specs.Reading.{Gave, ReadsOnly};
ghost use Rattle.program_machine.specs.Code.{CodeOf, Images, Joins, SegmentsOf, order_of, part_inputs};

use code_image::{Image, Order, Segment};
use program_common::{Halt, read_input};
use std::alloc::Global;
use support_command_line::{Code, CodePart};
use support_io::Inputs;

/// How many bytes a part of the code may have.
const CODE_CAP: u32 = 1_048_576;

/// The image of code: its parts are read in their order, and imaged together.
pub fn image_of<'a, I: Inputs>(
    alloc: Global,
    inputs: &mut I,
    code: &Code<'a>,
) -> Result<Image, Halt<'a>>
    requires few { length code.now.parts.items ≤ 16 }
    ensures reads { ReadsOnly I.state (part_inputs (map part_of code.now.parts.items)) inputs.old inputs.new result }
    ensures gives { Gives (CodeOf (Gave (I.state inputs.old) (I.state inputs.new)) (code_of code.now))
        (λ image. image) result }
{
    let segments = segments_of(alloc, inputs, &code.parts)?;
    image_of_segments(alloc, order_of(code.order), &segments)
}

/// The segments of parts, which are read in their order.
fn segments_of<'a, I: Inputs>(
    alloc: Global,
    inputs: &mut I,
    parts: &[CodePart<'a>],
) -> Result<Vec<Segment>, Halt<'a>>
    ensures reads { ReadsOnly I.state (part_inputs (map part_of parts.now)) inputs.old inputs.new result }
    ensures gives { Gives (SegmentsOf (Gave (I.state inputs.old) (I.state inputs.new)) (map part_of parts.now))
        (λ segments. map segment_of segments.items) result }
    ensures count { IfOk result (λ segments. length segments.items ≡ length parts.now) }
{
    match parts {
        [] => Ok(Vec::new(alloc)),
        [part, rest @ ..] => {
            let bytes = read_input(alloc, inputs, part.name, CODE_CAP)?;
            let segments = segments_of(alloc, inputs, rest)?;
            with_segment(part.base, bytes, segments)
        }
    }
}

/// A segment before others.
fn with_segment<'a>(
    base: u32,
    bytes: Vec<u8>,
    segments: Vec<Segment>,
) -> Result<Vec<Segment>, Halt<'a>>
    ensures joins { Gives (Joins base bytes.items (map segment_of segments.items)) (λ all. map segment_of all.items) result }
    ensures count { IfOk result (λ all. length all.items ≡ suc (length segments.items)) }
{
    let mut all = segments;
    all.insert(0, Segment { base, bytes })?;
    Ok(all)
}

/// The order of the bytes of a word.
fn order_of(order: support_command_line::Order) -> Order
    ensures { result ≡ order_of order }
{
    match order {
        support_command_line::Order::Big => Order::Big,
        support_command_line::Order::Little => Order::Little,
    }
}

/// The image of segments.
fn image_of_segments<'a>(
    alloc: Global,
    order: Order,
    segments: &[Segment],
) -> Result<Image, Halt<'a>>
    requires { length segments.now ≤ 16 }
    ensures { Gives (Images order (map segment_of segments.now)) (λ image. image) result }
{
    Ok(Image::new(alloc, order, segments)?)
}
