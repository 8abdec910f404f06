//! The word SPEC.

ghost use Rattle.std.specs.Prelude.{◌≡◌};
ghost use Rattle.support_command_line.specs.SpecNames.{spec_in};
ghost use Rattle.support_command_line.specs.Views.{spec_of};

/// A specification.
#[derive(Clone, Copy)]
pub enum SpecName<'a> {
    /// What the input of this name holds.
    Input(&'a str),
    /// The shipped text of PowerPC.
    PowerPc,
    /// The shipped text of RV32I.
    RiscV,
}

impl<'a> SpecName<'a> {
    /// The specification of a word.
    pub fn of(word: &'a str) -> SpecName<'a>
        ensures { spec_of result ≡ spec_in word.entry.now }
    {
        match word {
            "@ppc" => SpecName::PowerPc,
            "@rv" => SpecName::RiscV,
            _ => SpecName::Input(word),
        }
    }
}
