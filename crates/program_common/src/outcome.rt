//! What a run comes to, and what is written of it.

ghost use Rattle.std.specs.Prelude.{◌≡◌, Err, IfOk};
ghost use Rattle.std.specs.String.{string_bytes};
ghost use Rattle.program_common.specs.Lines.{targets_line, undecodable_line};
ghost use Rattle.program_common.specs.Outcome.{line_of, status_of};
ghost use Rattle.program_common.specs.Outcomes.{halt_of_claims, halt_of_entry, halt_of_imaging, halt_of_table, halt_of_words, outcome_of, refusal_of};
ghost use Rattle.program_common.specs.declared.outcome.Halt.TheVariants.{NoMemory, Refused};

use crate::rejection::Rejection;
use crate::spec_fault::SpecFault;
use crate::status::Status;
use code_image::ImageError;
use state_cell_text::push_hex;
use state_text::EntryError;
use std::alloc::{AllocError, AllocFailed, Global};
use support_command_line::WordsError;
use text_faults::{ClaimError, TableError};

/// The text that the words ask for. Where it tells of a machine that stopped for want of a decoding or of calls, the status says so.
#[derive(Debug, Drop)]
pub enum Answer {
    /// The run ends with the status `Ok`.
    Text(Vec<u8>),
    /// A machine stopped at a word that is no instruction.
    Undecodable(Vec<u8>),
    /// A machine stopped at a step in which a function had no turn left.
    CallsEnded(Vec<u8>),
}

/// Why a run has no text to give, with what it names.
#[derive(Debug, Drop)]
pub enum Refusal<'a> {
    /// The words have no meaning.
    BadWords,
    /// The input of this name could not be read.
    CannotRead(&'a str),
    /// The input of this name is longer than its cap.
    TooLong(&'a str),
    /// The specification has this fault first.
    SpecRefused(SpecFault),
    /// The code has this fault first.
    CodeRefused(ImageError),
    /// The entry has this fault first.
    EntryRefused(EntryError),
    /// A function had no turn left.
    CallsSpent,
    /// The code word at an address is no instruction.
    UndecodableAt { at: u32, word: u32 },
    /// The instruction at an address may lead to too many addresses: the counter behind it, as text.
    TooManyTargets { at: u32, shown: String },
    /// The text of the table has this fault first.
    TableRefused(TableError),
    /// The text of the claims has this fault first.
    ClaimsRefused(ClaimError),
    /// The table is not closed: its first part that fails.
    Rejected(Rejection),
}

/// What a run comes to.
#[derive(Debug, Drop)]
pub enum Outcome<'a> {
    /// The text that the words ask for.
    Answered(Answer),
    /// There is none.
    Refused(Refusal<'a>),
}

impl Outcome<'_> {
    /// The status that a run ends with.
    pub fn status(&self) -> Status
        ensures { result ≡ status_of (outcome_of self.now) }
    {
        match self {
            Outcome::Answered(Answer::Text(_)) => Status::Ok,
            Outcome::Answered(Answer::Undecodable(_)) => Status::Undecodable,
            Outcome::Answered(Answer::CallsEnded(_)) => Status::CallsSpent,
            Outcome::Refused(Refusal::BadWords) => Status::BadWords,
            Outcome::Refused(Refusal::CannotRead(_)) => Status::ReadFault,
            Outcome::Refused(Refusal::TooLong(_)) => Status::TooLong,
            Outcome::Refused(Refusal::SpecRefused(_)) => Status::SpecRefused,
            Outcome::Refused(Refusal::CodeRefused(_)) => Status::CodeRefused,
            Outcome::Refused(Refusal::EntryRefused(_)) => Status::EntryRefused,
            Outcome::Refused(Refusal::CallsSpent) => Status::CallsSpent,
            Outcome::Refused(Refusal::UndecodableAt { .. }) => Status::Undecodable,
            Outcome::Refused(Refusal::TooManyTargets { .. }) => Status::TooManyTargets,
            Outcome::Refused(Refusal::TableRefused(_)) => Status::TableRefused,
            Outcome::Refused(Refusal::ClaimsRefused(_)) => Status::ClaimsRefused,
            Outcome::Refused(Refusal::Rejected(_)) => Status::Rejected,
        }
    }

    /// What is written: the text, or the line that says why there is none.
    pub fn line(self, alloc: Global) -> Result<Vec<u8>, AllocError>
        ensures { IfOk result (λ line. line.items ≡ line_of (outcome_of self.entry)) }
    {
        match self {
            Outcome::Answered(Answer::Text(text)) => Ok(text),
            Outcome::Answered(Answer::Undecodable(text)) => Ok(text),
            Outcome::Answered(Answer::CallsEnded(text)) => Ok(text),
            Outcome::Refused(refusal) => Ok(refusal.line(alloc)?.into_bytes()),
        }
    }
}

impl Refusal<'_> {
    /// The line that says why there is no text.
    fn line(&self, alloc: Global) -> Result<String, AllocError>
        ensures { IfOk result (λ text. string_bytes text ≡ line_of (Err (refusal_of self.now))) }
    {
        match self {
            Refusal::BadWords => String::from_str(alloc, "bad words\n"),
            Refusal::CannotRead(name) => { format!(in alloc; "cannot read {name}\n") }
            Refusal::TooLong(name) => format!(in alloc; "too long {name}\n"),
            Refusal::SpecRefused(fault) => fault.line(alloc),
            Refusal::CodeRefused(fault) => fault.fault_line(alloc),
            Refusal::EntryRefused(fault) => fault.fault_line(alloc),
            Refusal::CallsSpent => String::from_str(alloc, "calls spent\n"),
            Refusal::UndecodableAt { at, word } => undecodable_line(alloc, *at, *word),
            Refusal::TooManyTargets { at, shown } => targets_line(alloc, *at, shown),
            Refusal::TableRefused(fault) => fault.fault_line(alloc),
            Refusal::ClaimsRefused(fault) => fault.fault_line(alloc),
            Refusal::Rejected(rejection) => rejection.line(alloc),
        }
    }
}

/// `undecodable ADDRESS WORD`.
fn undecodable_line(alloc: Global, at: u32, word: u32) -> Result<String, AllocError>
    ensures { IfOk result (λ text. string_bytes text ≡ undecodable_line at word) }
{
    let mut out = String::from_str(alloc, "undecodable ")?;
    push_hex(&mut out, 8, u64::from(at))?;
    out.push_str(" ")?;
    push_hex(&mut out, 8, u64::from(word))?;
    out.push_str("\n")?;
    Ok(out)
}

/// `targets ADDRESS SHOWN`.
fn targets_line(alloc: Global, at: u32, shown: &str) -> Result<String, AllocError>
    ensures { IfOk result (λ text. string_bytes text ≡ targets_line at shown.now) }
{
    let mut out = String::from_str(alloc, "targets ")?;
    push_hex(&mut out, 8, u64::from(at))?;
    out.push_str(" ")?;
    out.push_str(shown)?;
    out.push_str("\n")?;
    Ok(out)
}

/// Why a step of a run gives nothing to the next one.
#[derive(Debug, Drop)]
pub enum Halt<'a> {
    /// The run is refused.
    Refused(Refusal<'a>),
    /// Memory ran out.
    NoMemory,
}

impl<'a> From<Refusal<'a>> for Halt<'a> {
    ghost from_gives = { λ refusal halt. halt ≡ Refused refusal };

    fn from(refusal: Refusal<'a>) -> Self {
        Halt::Refused(refusal)
    }
}

impl From<WordsError> for Halt<'_> {
    ghost from_gives = { λ error halt. halt ≡ halt_of_words error };

    fn from(error: WordsError) -> Self {
        match error {
            WordsError::BadWords => Halt::Refused(Refusal::BadWords),
            WordsError::NoMemory => Halt::NoMemory,
        }
    }
}

impl From<ImageError> for Halt<'_> {
    ghost from_gives = { λ error halt. halt ≡ halt_of_imaging error };

    fn from(error: ImageError) -> Self {
        match error {
            ImageError::NoMemory => Halt::NoMemory,
            fault => Halt::Refused(Refusal::CodeRefused(fault)),
        }
    }
}

impl From<EntryError> for Halt<'_> {
    ghost from_gives = { λ error halt. halt ≡ halt_of_entry error };

    fn from(error: EntryError) -> Self {
        match error {
            EntryError::NoMemory => Halt::NoMemory,
            fault => Halt::Refused(Refusal::EntryRefused(fault)),
        }
    }
}

impl From<TableError> for Halt<'_> {
    ghost from_gives = { λ error halt. halt ≡ halt_of_table error };

    fn from(error: TableError) -> Self {
        match error {
            TableError::NoMemory => Halt::NoMemory,
            fault => Halt::Refused(Refusal::TableRefused(fault)),
        }
    }
}

impl From<ClaimError> for Halt<'_> {
    ghost from_gives = { λ error halt. halt ≡ halt_of_claims error };

    fn from(error: ClaimError) -> Self {
        match error {
            ClaimError::NoMemory => Halt::NoMemory,
            fault => Halt::Refused(Refusal::ClaimsRefused(fault)),
        }
    }
}

impl From<AllocError> for Halt<'_> {
    ghost from_gives = { λ _ halt. halt ≡ NoMemory };

    fn from(_: AllocError) -> Self {
        Halt::NoMemory
    }
}

impl<T: Drop> From<AllocFailed<T>> for Halt<'_> {
    ghost from_gives = { λ _ halt. halt ≡ NoMemory };

    fn from(_: AllocFailed<T>) -> Self {
        Halt::NoMemory
    }
}
