//! Inputs as a whole, and from the name of a specification to the checked specification.

ghost use Rattle.std.specs.Prelude.{◌≡◌, ◌≤◌, ◌<◌, ◌^◌, [], ◌∷◌, IfOk, IsTrue, length};
ghost use Rattle.spec_ir.specs.Views.{specification};
ghost use Rattle.support_io.specs.InputState.{InputsKept};
ghost use Rattle.support_command_line.specs.Views.{spec_of};
ghost use Rattle.program_common.specs.Faultless.{NoOtherFault};
ghost use Rattle.program_common.specs.Outcomes.{Gives};
ghost use Rattle.program_common.specs.Reading.{Gave, IsTakenFrom, ReadsOnly};
ghost use Rattle.program_common.specs.Shipped.{power_pc_text, risc_v_text};
ghost use Rattle.program_common.specs.Sources.{SourceOf, Specifies, source_cap, source_inputs};

use crate::outcome::{Halt, Refusal};
use spec_checker::{Spec, SpecUse, check};
use std::alloc::{AllocError, Global};
use support_command_line::SpecName;
use support_io::{Inputs, ReadError, read_whole};
use syntax_lexer::lex;
use syntax_parser::parse;

/// How many bytes a source may have.
const SOURCE_CAP: u32 = 262_144;

/// The source of a specification: what its input holds, or the text that is shipped.
pub fn source_of<'a, I: Inputs>(
    alloc: Global,
    inputs: &mut I,
    spec: SpecName<'a>,
) -> Result<Vec<u8>, Halt<'a>>
    ensures reads { ReadsOnly I.state (source_inputs (spec_of spec.entry)) inputs.old inputs.new result }
    ensures gives { Gives (SourceOf (Gave (I.state inputs.old) (I.state inputs.new)) (spec_of spec.entry))
        (λ source. source.items) result }
    ensures cap { IfOk result (λ source. length source.items ≤ source_cap) }
{
    match spec {
        SpecName::Input(name) => read_input(alloc, inputs, name, SOURCE_CAP),
        SpecName::PowerPc => Ok(shipped_bytes(alloc, power_pc())?),
        SpecName::RiscV => Ok(shipped_bytes(alloc, risc_v())?),
    }
}

/// The bytes of a text.
fn shipped_bytes(alloc: Global, text: &str) -> Result<Vec<u8>, AllocError>
    ensures { IfOk result (λ bytes. bytes.items ≡ text.now) }
{
    Vec::from_slice(alloc, text.as_bytes())
}

/// The specification of PowerPC.
#[tactic(auto, unfolding(crate::specs::Shipped::power_pc_text))]
fn power_pc() -> &'static str
    ensures text { result.now ≡ power_pc_text }
    ensures cap { length result.now ≤ source_cap }
{
    program_spec_powerpc::text()
}

/// The specification of RV32I.
#[tactic(auto, unfolding(crate::specs::Shipped::risc_v_text))]
fn risc_v() -> &'static str
    ensures text { result.now ≡ risc_v_text }
    ensures cap { length result.now ≤ source_cap }
{
    program_spec_riscv::text()
}

/// All bytes that the input of a name holds, of which there may be so many.
pub fn read_input<'a, I: Inputs>(
    alloc: Global,
    inputs: &mut I,
    name: &'a str,
    cap: u32,
) -> Result<Vec<u8>, Halt<'a>>
    requires { cap < 2 ^ 31 }
    ensures kept { InputsKept (I.state inputs.old) (I.state inputs.new) }
    ensures gives { Gives (Gave (I.state inputs.old) (I.state inputs.new) cap name.now)
        (λ source. source.items) result }
    ensures cap { IfOk result (λ source. length source.items ≤ cap) }
    ensures no_other_fault { NoOtherFault (I.state inputs.old) (I.state inputs.new) result }
    ensures taken { IsTrue (I.state inputs.old).tells → IsTrue (I.state inputs.new).is_open
        → IsTakenFrom ((name.now, cap) ∷ []) (I.state inputs.old) (I.state inputs.new) }
{
    match read_whole(alloc, inputs, name, cap) {
        Ok(source) => Ok(source),
        Err(ReadError::ReadFault) => Err(Halt::Refused(Refusal::CannotRead(name))),
        Err(ReadError::TooLong) => Err(Halt::Refused(Refusal::TooLong(name))),
        Err(ReadError::NoMemory) => Err(Halt::NoMemory),
    }
}

/// The specification of a source that breaks no static rule for a use.
pub fn specification_of<'a>(alloc: Global, source: &[u8], wanted: SpecUse) -> Result<Spec, Halt<'a>>
    requires { length source.now ≤ source_cap }
    ensures { Gives (Specifies wanted source.now) specification result }
{
    let tokens = lex(alloc, source)?;
    let tree = parse(alloc, &tokens, source.len() as u32)?;
    Ok(check(alloc, &tree, wanted)?)
}
