//! The generator of numbers.

ghost use Rattle.std.specs.Prelude.{◌≡◌};
ghost use Rattle.program_stress_code.specs.Words as defined;

/// The state behind a state.
pub(crate) fn next_state(state: u32) -> u32
    ensures { result ≡ defined.next_state state }
{
    ((1_664_525 * u64::from(state) + 1_013_904_223) % (1 << 32)) as u32
}
