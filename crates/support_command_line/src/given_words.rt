//! What the words give, by the command line as `clap` reads it.

ghost use Rattle.std.specs.Prelude.{◌≡◌, [], IfOk, codes, false, unwrap_or};
ghost use Rattle.clap.specs.Words.{all_of, app_of, first_of, found_of, rows_of, rule_of, with_rule};
ghost use Rattle.support_command_line.specs.CommandLine.{bare_line, command_line, flag_of, flag_rule, given_by, given_in, is_given, option_rule, value_rule};
ghost use Rattle.support_command_line.specs.Giving.{Gives};
ghost use Rattle.support_command_line.specs.Options.{option_text};
ghost use Rattle.support_command_line.specs.Views.{borrowed, borrowed_text, given_of, texts};

use crate::options::OptionName;
use crate::words_error::WordsError;
use clap::error::ErrorKind;
use clap::{Arg, ArgAction, ArgMatches, Command};
use std::alloc::{AllocError, Global};

/// What words give: the command's name, the positional words after it, the value of each option, and each flag.
#[derive(Drop)]
pub struct GivenWords<'a> {
    pub command: Option<&'a str>,
    pub words: Vec<&'a str>,
    pub at: Option<&'a str>,
    pub order: Option<&'a str>,
    pub steps: Option<&'a str>,
    pub calls: Option<&'a str>,
    pub limit: Option<&'a str>,
    pub base: Option<&'a str>,
    pub widen: Option<&'a str>,
    pub cases: Option<&'a str>,
    pub open: bool,
}

impl<'a> GivenWords<'a> {
    /// Whether an option is given.
    pub fn is_given(&self, option: OptionName) -> bool
        ensures { result ≡ is_given (given_of self.now) option }
    {
        match option {
            OptionName::At => self.at.is_some(),
            OptionName::Order => self.order.is_some(),
            OptionName::Steps => self.steps.is_some(),
            OptionName::Calls => self.calls.is_some(),
            OptionName::Limit => self.limit.is_some(),
            OptionName::Base => self.base.is_some(),
            OptionName::Widen => self.widen.is_some(),
            OptionName::Cases => self.cases.is_some(),
            OptionName::Open => self.open,
        }
    }
}

/// What the words after the program's name give.
pub fn read_given<'a>(alloc: Global, words: &'a [String]) -> Result<GivenWords<'a>, WordsError>
    ensures { Gives (given_in (texts words.entry.now)) given_of result }
{
    let command = command_line(alloc)?;
    match command.try_get_matches_from(words) {
        Ok(matches) => {
            let given = given_by(alloc, &matches);
            drop(matches);
            Ok(given?)
        }
        Err(error) => {
            let kind = error.kind();
            drop(error);
            match kind {
                ErrorKind::OutOfMemory => Err(WordsError::NoMemory),
                _ => Err(WordsError::BadWords),
            }
        }
    }
}

/// The command line: one simple command with all options.
fn command_line<'a>(alloc: Global) -> Result<Command<'a>, AllocError>
    ensures { IfOk result (λ command. app_of command ≡ command_line) }
{
    let mut command = bare_line(alloc);
    for option in OptionName::ALL {
        command = with_option(alloc, command, option)?;
    }
    let command = command.arg(Arg::new(alloc, "command"))?;
    command.arg(Arg::new(alloc, "words").action(ArgAction::Append))
}

/// A command without arguments, of which all words come after the program's name.
fn bare_line<'a>(alloc: Global) -> Command<'a>
    ensures { app_of result ≡ bare_line }
{
    Command::new(alloc, "tsl_cli")
        .no_binary_name(true)
        .disable_help_flag(true)
        .disable_version_flag(true)
}

/// A command with one option more.
fn with_option<'a>(
    alloc: Global,
    command: Command<'a>,
    option: OptionName,
) -> Result<Command<'a>, AllocError>
    ensures { IfOk result (λ more. app_of more ≡ with_rule (app_of command.entry) (option_rule option)) }
{
    command.arg(argument(alloc, option))
}

/// The argument of an option.
fn argument<'a>(alloc: Global, option: OptionName) -> Arg<'a>
    ensures rule { rule_of result ≡ option_rule option }
    ensures local { result.global ≡ false }
{
    if option.has_value() {
        value_argument(alloc, option)
    } else {
        flag_argument(alloc, option)
    }
}

/// An option that takes one value.
fn value_argument<'a>(alloc: Global, option: OptionName) -> Arg<'a>
    ensures rule { rule_of result ≡ value_rule option }
    ensures local { result.global ≡ false }
{
    let name: &'a str = option.name();
    Arg::new(alloc, name).long(name)
}

/// A flag.
fn flag_argument<'a>(alloc: Global, option: OptionName) -> Arg<'a>
    ensures rule { rule_of result ≡ flag_rule option }
    ensures local { result.global ≡ false }
{
    let name: &'a str = option.name();
    Arg::new(alloc, name).action(ArgAction::SetTrue).long(name)
}

/// What a parse found.
fn given_by<'a>(alloc: Global, matches: &ArgMatches<'a>) -> Result<GivenWords<'a>, AllocError>
    ensures { IfOk result (λ given. given_of given ≡ given_by (rows_of (found_of matches.now))) }
{
    Ok(GivenWords {
        command: matches.get_str("command"),
        words: words_after(alloc, matches)?,
        at: option_value(matches, OptionName::At),
        order: option_value(matches, OptionName::Order),
        steps: option_value(matches, OptionName::Steps),
        calls: option_value(matches, OptionName::Calls),
        limit: option_value(matches, OptionName::Limit),
        base: option_value(matches, OptionName::Base),
        widen: option_value(matches, OptionName::Widen),
        cases: option_value(matches, OptionName::Cases),
        open: flag(matches, OptionName::Open),
    })
}

/// The positional words that a parse found after the command's name.
fn words_after<'a>(alloc: Global, matches: &ArgMatches<'a>) -> Result<Vec<&'a str>, AllocError>
    ensures { IfOk result (λ words. borrowed words.items
        ≡ unwrap_or (all_of (codes "words") (rows_of (found_of matches.now))) []) }
{
    match matches.get_raw("words") {
        Some(words) => Vec::from_slice(alloc, words),
        None => Ok(Vec::new(alloc)),
    }
}

/// The value that a parse found for an option.
fn option_value<'a>(matches: &ArgMatches<'a>, option: OptionName) -> Option<&'a str>
    ensures { borrowed_text result ≡ first_of (option_text option) (rows_of (found_of matches.now)) }
{
    matches.get_str(option.name())
}

/// Whether a parse found a flag.
fn flag(matches: &ArgMatches, option: OptionName) -> bool
    ensures { result ≡ flag_of (option_text option) (rows_of (found_of matches.now)) }
{
    match matches.get_str(option.name()) {
        Some(text) => text == "true",
        None => false,
    }
}
