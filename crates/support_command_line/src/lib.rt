//! What the words of the command line ask for.
//!
//! The words are one simple command of `clap`: the command's name, its positional words, options that each take a value, and a flag
//! (specs/CommandLine). Which words such a command takes, and what they give, is said by clap's own definitions; this crate
//! cites them and adds what each command needs beyond that: the number of its words, the options that it takes, and the form of
//! each value (specs/Words, one place for each command).
//!
//! | command | positional words | options |
//! |---|---|---|
//! | `call` | SPEC FUN, and any number of numbers | `--calls` |
//! | `emulate` | SPEC CODE ENTRY | `--at`, `--order`, `--steps`, `--calls` |
//! | `analyse` | SPEC CODE ENTRY | `--at`, `--order`, `--base`, `--limit`, `--widen`, `--cases`, `--open` |
//! | `check` | SPEC CODE ENTRY TABLE | `--at`, `--order`, `--base`, `--limit`, `--cases`, `--open` |
//! | `convert` | SPEC CODE TABLE | `--at`, `--order`, `--base` |
//! | `list` | SPEC CODE | `--at`, `--order` |
//! | `slice` | SPEC CODE ENTRY TABLE ADDRESS CELL, over a base with stamps | those of `check` |
//! | `claims` | SPEC CODE ENTRY TABLE CLAIMS | those of `check` |
//! | `stress` | NUMBER COUNT | `--base` |
//!
//! What is proved: `read_words` answers a request exactly where the words have a form, and it is the one that they ask for; it
//! answers `BadWords` only where they have none. Want of memory alone is free.
#![tactic(auto)]

ghost use Rattle.support_command_line.specs.Giving.{Gives};
ghost use Rattle.support_command_line.specs.Views.{given_of, request_of, texts};
ghost use Rattle.support_command_line.specs.Words.{asked, asked_by, takes_all};
ghost use Rattle.std.specs.Prelude.{◌≡◌};

mod bases;
mod code_word;
mod commands;
mod defaults;
mod given_words;
mod numbers;
mod option_values;
mod options;
mod orders;
mod request_words;
mod requests;
mod spec_word;
mod words_error;

pub use bases::BaseName;
pub use code_word::{Code, CodePart};
use commands::CommandName;
pub use defaults::{DEFAULT_CALLS, DEFAULT_CASES, DEFAULT_JOINS, DEFAULT_LIMIT};
use given_words::{GivenWords, read_given};
use options::OptionName;
pub use orders::Order;
use request_words::request;
pub use requests::{
    AnalyseRequest, CallRequest, CheckRequest, ClaimsRequest, ConvertRequest, EmulateRequest,
    ListRequest, Request, SliceRequest, StressRequest,
};
pub use spec_word::SpecName;
use std::alloc::Global;
pub use words_error::WordsError;

/// What the words after the program's name ask for.
#[tactic(auto, unfolding(crate::specs::Words::asked))]
pub fn read_words<'a>(alloc: Global, words: &'a [String]) -> Result<Request<'a>, WordsError>
    ensures { Gives (asked (texts words.entry.now)) request_of result }
{
    let given = read_given(alloc, words)?;
    asked_by(alloc, &given)
}

/// What is given asks for.
#[tactic(auto, unfolding(crate::specs::Words::asked_by))]
fn asked_by<'a>(alloc: Global, given: &GivenWords<'a>) -> Result<Request<'a>, WordsError>
    ensures { Gives (asked_by (given_of given.now)) request_of result }
{
    let Some(name) = given.command else {
        return Err(WordsError::BadWords);
    };
    let Some(command) = CommandName::named(name) else {
        return Err(WordsError::BadWords);
    };
    if !takes_all(command, given) {
        return Err(WordsError::BadWords);
    }
    request(alloc, command, given)
}

/// Whether no other option is given than those that the command takes.
fn takes_all(command: CommandName, given: &GivenWords) -> bool
    ensures { result ≡ takes_all command (given_of given.now) }
{
    OptionName::ALL.iter().all(|option| !given.is_given(*option) || command.takes(*option))
}
