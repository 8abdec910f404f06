//! What is wrong with words.

use crate::forms::{CommandForm, OptionForm, command_named, option_named};
use crate::trial::{is_word, takes, takes_value};
use std::alloc::{AllocError, AllocFailed, Global};

/// What is wrong with words, as far as they show it themselves.
#[derive(Clone, Copy)]
pub enum WordsFault<'a> {
    /// There is no command.
    NoCommand,
    /// No command has this name.
    UnknownCommand(&'a str),
    /// No option has this name.
    UnknownOption(&'a str),
    /// The option has no value.
    NoValue(OptionForm),
    /// The flag has a value.
    FlagWithValue(OptionForm),
    /// The option is given twice.
    Twice(OptionForm),
    /// The command does not take the option.
    NotTaken(CommandForm, OptionForm),
    /// The command does not take the option with the value.
    BadValue(CommandForm, OptionForm, &'a str),
    /// The command wants a word of this name more.
    Missing(CommandForm, &'static str),
    /// The command wants no such word more.
    TooMany(CommandForm, &'a str),
    /// The word has not the form of that of this name.
    BadWord(&'static str, &'a str),
    /// The command has to have an option.
    Needs(CommandForm),
    /// The words have a form.
    None(CommandForm),
}

/// Why a search for a fault ends: it is found, or memory ran out.
#[derive(Clone, Copy)]
pub enum SearchEnd<'a> {
    Fault(WordsFault<'a>),
    NoMemory,
}

impl From<AllocError> for SearchEnd<'_> {
    fn from(_: AllocError) -> Self {
        SearchEnd::NoMemory
    }
}

impl<T: Drop> From<AllocFailed<T>> for SearchEnd<'_> {
    fn from(_: AllocFailed<T>) -> Self {
        SearchEnd::NoMemory
    }
}

/// An option that is given, with its value. A flag has the empty one.
#[derive(Clone, Copy)]
struct GivenOption<'a> {
    option: OptionForm,
    value: &'a str,
}

/// What the words before a place give.
#[derive(Drop)]
struct Walk<'a> {
    words: Vec<&'a str>,
    options: Vec<GivenOption<'a>>,
    /// The option whose value comes next.
    pending: Option<OptionForm>,
    /// Whether a word `--` came, behind which no word is an option.
    is_past_options: bool,
}

impl<'a> Walk<'a> {
    /// Goes over all words.
    fn take_all(&mut self, words: &'a [String]) -> Result<(), SearchEnd<'a>> {
        for word in words {
            self.take(word.as_str())?;
        }
        match self.pending {
            Some(option) => Err(SearchEnd::Fault(WordsFault::NoValue(option))),
            None => Ok(()),
        }
    }

    /// Goes on to the next word.
    fn take(&mut self, word: &'a str) -> Result<(), SearchEnd<'a>> {
        if let Some(option) = self.pending {
            self.pending = None;
            if word.starts_with("--") {
                return Err(SearchEnd::Fault(WordsFault::NoValue(option)));
            }
            return self.give(option, word);
        }
        if self.is_past_options || word == "-" || !word.starts_with('-') {
            self.words.push(word)?;
            return Ok(());
        }
        if word == "--" {
            self.is_past_options = true;
            return Ok(());
        }
        self.take_option(word)
    }

    /// Takes a word that names an option, with its value or without.
    fn take_option(&mut self, word: &'a str) -> Result<(), SearchEnd<'a>> {
        let Some(text) = word.strip_prefix("--") else {
            return Err(SearchEnd::Fault(WordsFault::UnknownOption(word)));
        };
        let parted = text.split_once('=');
        let (name, value) = parted.unwrap_or((text, ""));
        let Some(option) = option_named(name) else {
            return Err(SearchEnd::Fault(WordsFault::UnknownOption(word)));
        };
        if parted.is_some() {
            if option.has_value() {
                return self.give(option, value);
            }
            return Err(SearchEnd::Fault(WordsFault::FlagWithValue(option)));
        }
        if option.has_value() {
            self.pending = Some(option);
            return Ok(());
        }
        self.give(option, value)
    }

    /// Notes an option with its value.
    fn give(&mut self, option: OptionForm, value: &'a str) -> Result<(), SearchEnd<'a>> {
        if self
            .options
            .iter()
            .any(|given| given.option.name == option.name)
        {
            return Err(SearchEnd::Fault(WordsFault::Twice(option)));
        }
        self.options.push(GivenOption { option, value })?;
        Ok(())
    }
}

/// The first fault of words that have no meaning.
pub fn words_fault<'a>(alloc: Global, words: &'a [String]) -> Result<WordsFault<'a>, AllocError> {
    match search(alloc, words) {
        Ok(command) => Ok(WordsFault::None(command)),
        Err(SearchEnd::Fault(fault)) => Ok(fault),
        Err(SearchEnd::NoMemory) => Err(AllocError),
    }
}

/// Looks for a fault, and answers the command where there is none.
fn search<'a>(alloc: Global, words: &'a [String]) -> Result<CommandForm, SearchEnd<'a>> {
    let mut walk = Walk {
        words: Vec::new(alloc),
        options: Vec::new(alloc),
        pending: None,
        is_past_options: false,
    };
    walk.take_all(words)?;
    look_at(alloc, walk.words.as_slice(), walk.options.as_slice())
}

/// Looks at the positional words and the options, and answers the command.
fn look_at<'a>(
    alloc: Global,
    words: &[&'a str],
    options: &[GivenOption<'a>],
) -> Result<CommandForm, SearchEnd<'a>> {
    let [name, others @ ..] = words else {
        return Err(SearchEnd::Fault(WordsFault::NoCommand));
    };
    let Some(command) = command_named(name) else {
        return Err(SearchEnd::Fault(WordsFault::UnknownCommand(name)));
    };
    look_at_options(alloc, command, options)?;
    look_at_words(alloc, command, others)?;
    look_at_needs(command, options)?;
    Ok(command)
}

/// Looks at the options and their values.
fn look_at_options<'a>(
    alloc: Global,
    command: CommandForm,
    options: &[GivenOption<'a>],
) -> Result<(), SearchEnd<'a>> {
    for given in options {
        if !takes(alloc, command, given.option)? {
            return Err(SearchEnd::Fault(WordsFault::NotTaken(command, given.option)));
        }
        if !takes_value(alloc, command, given.option, given.value)? {
            return Err(SearchEnd::Fault(WordsFault::BadValue(command, given.option, given.value)));
        }
    }
    Ok(())
}

/// Looks at the positional words behind the command's name.
fn look_at_words<'a>(
    alloc: Global,
    command: CommandForm,
    words: &[&'a str],
) -> Result<(), SearchEnd<'a>> {
    let mut rest = words;
    for name in command.words.split(' ') {
        let [word, others @ ..] = rest else {
            return Err(SearchEnd::Fault(WordsFault::Missing(command, name)));
        };
        if !is_word(alloc, name, word)? {
            return Err(SearchEnd::Fault(WordsFault::BadWord(name, word)));
        }
        rest = others;
    }
    match rest {
        [word, ..] if command.name != "call" => {
            Err(SearchEnd::Fault(WordsFault::TooMany(command, word)))
        }
        _ => Ok(()),
    }
}

/// Looks whether the option is given that a command has to have. It is `--base`.
fn look_at_needs<'a>(
    command: CommandForm,
    options: &[GivenOption<'a>],
) -> Result<(), SearchEnd<'a>> {
    if command.needs.is_empty() || options.iter().any(|given| given.option.name == "base") {
        return Ok(());
    }
    Err(SearchEnd::Fault(WordsFault::Needs(command)))
}
