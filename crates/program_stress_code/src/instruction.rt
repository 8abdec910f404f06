//! The instruction that a state of the generator chooses.

ghost use Rattle.std.specs.Prelude.{◌≡◌, ◌+◌, ◌<◌, ◌≤◌};
ghost use Rattle.program_stress_code.specs.Words as defined;

/// A conditional branch past the word behind it.
const BRANCH: u32 = 0x4182_0008;

/// The word that does nothing.
const NOTHING: u32 = 0x6000_0000;

/// The register that a state names in five of its bits, from a bit on.
fn register(state: u32, from: u32) -> u32
    requires { from < 32 }
    ensures value { result ≡ defined.register state from }
    ensures below { result < 32 }
{
    (state >> from) % 32
}

/// The number that it names.
fn immediate(state: u32) -> u32
    ensures value { result ≡ defined.immediate state }
    ensures below { result < 1024 }
{
    (state >> 4) % 1024
}

/// The field D of a word.
fn field_d(state: u32) -> u32
    ensures value { result ≡ defined.field_d state }
    ensures most { result ≤ 65011712 }
{
    register(state, 24) << 21
}

/// The fields D and A.
fn fields_d_a(state: u32) -> u32
    ensures value { result ≡ defined.field_d state + defined.field_a state }
    ensures most { result ≤ 67043328 }
{
    field_d(state) + (register(state, 19) << 16)
}

/// The fields D, A and B.
fn fields_d_a_b(state: u32) -> u32
    ensures value { result ≡ defined.field_d state + defined.field_a state + defined.field_b state }
    ensures most { result ≤ 67106816 }
{
    fields_d_a(state) + (register(state, 14) << 11)
}

/// The instruction, where two more words follow or not.
pub(crate) fn instruction(two_follow: bool, state: u32) -> u32
    ensures { result ≡ defined.instruction two_follow state }
{
    match state >> 29 {
        0 => 0x3800_0000 + fields_d_a(state) + immediate(state),
        1 => 0x7C00_0214 + fields_d_a_b(state),
        2 => 0x5400_003E + fields_d_a_b(state),
        3 => 0x7C00_0278 + fields_d_a_b(state),
        4 => 0x7C00_01D6 + fields_d_a_b(state),
        5 => 0x9000_0000 + field_d(state) + 4 * immediate(state),
        6 => 0x8000_0000 + field_d(state) + 4 * immediate(state),
        _ if two_follow => BRANCH,
        _ => NOTHING,
    }
}
