//! Where made code begins.

ghost use Rattle.std.specs.Prelude.{◌≡◌, ◌≤◌, length};
ghost use Rattle.program_stress_code.specs.Entry as defined;

/// The address of the first word.
pub const CODE_BASE: u32 = 0x0001_0000;

/// The entry that made code is analysed from, as text.
pub fn entry_text() -> &'static str
    ensures text { result.now ≡ defined.entry_text }
    ensures short { length result.now ≤ 65536 }
{
    "pc 00010000\ngpr[3] any\ncr[2] any\nspr[LR] fffffffc\n"
}

/// The entry that it runs from: the same, with 0 in place of any.
pub fn start_text() -> &'static str
    ensures text { result.now ≡ defined.start_text }
    ensures short { length result.now ≤ 65536 }
{
    "pc 00010000\ngpr[3] 0\ncr[2] 0\nspr[LR] fffffffc\n"
}
