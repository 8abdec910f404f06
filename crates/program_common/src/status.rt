//! The statuses that a run ends with.

ghost use Rattle.std.specs.Prelude.{◌≡◌};
ghost use Rattle.program_common.specs.Statuses.{exit_status};

/// How a run ends.
#[derive(Clone, Copy, Debug, PartialEq, Eq)]
pub enum Status {
    /// The answer was written.
    Ok,
    /// A table is not closed.
    Rejected,
    /// The words have no meaning.
    BadWords,
    /// An input could not be read.
    ReadFault,
    /// The output could not be written.
    WriteFault,
    /// The specification is refused.
    SpecRefused,
    /// The code is refused.
    CodeRefused,
    /// The entry is refused.
    EntryRefused,
    /// The table is refused.
    TableRefused,
    /// A word of the code has no decoding.
    Undecodable,
    /// The counter has too many values.
    TooManyTargets,
    /// The calls ran out.
    CallsSpent,
    /// An input is longer than its cap.
    TooLong,
    /// Memory ran out.
    NoMemory,
    /// The claims are refused.
    ClaimsRefused,
}

impl Status {
    /// The exit status of the program.
    pub fn code(self) -> u8
        ensures { result ≡ exit_status self }
    {
        self as u8
    }
}
