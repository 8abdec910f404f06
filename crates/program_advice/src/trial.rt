//! Words on trial: `support_command_line` says whether they have a form.

use crate::forms::{CommandForm, OptionForm};
use std::alloc::{AllocError, Global};
use support_command_line::{WordsError, read_words};

/// Whether a command takes an option.
pub fn takes(alloc: Global, command: CommandForm, option: OptionForm) -> Result<bool, AllocError> {
    takes_value(alloc, command, option, option.sample)
}

/// Whether a command takes an option with this value.
pub fn takes_value(
    alloc: Global,
    command: CommandForm,
    option: OptionForm,
    value: &str,
) -> Result<bool, AllocError> {
    let mut words = Vec::new(alloc);
    push_words(alloc, &mut words, command.sample, "")?;
    if option.name != "base" && !command.needs.is_empty() {
        push_words(alloc, &mut words, command.needs, "")?;
    }
    words.push(String::from_str(alloc, option.code)?)?;
    if option.has_value() {
        words.push(String::from_str(alloc, value)?)?;
    }
    have_form(alloc, &words)
}

/// Whether a word has the form of the positional word of a name.
pub fn is_word(alloc: Global, name: &str, word: &str) -> Result<bool, AllocError> {
    let frame = match name {
        "CODE" => "list -- s ?",
        "ADDRESS" => "slice --base defuse -- s c e t ? x",
        "NUMBER" => "stress -- ? 1",
        "COUNT" => "stress -- 0 ?",
        _ => "list -- ? c",
    };
    let mut words = Vec::new(alloc);
    push_words(alloc, &mut words, frame, word)?;
    have_form(alloc, &words)
}

/// Adds the words of a text, which have single spaces between. A `?` stands for a word.
fn push_words(
    alloc: Global,
    words: &mut Vec<String>,
    text: &str,
    word: &str,
) -> Result<(), AllocError> {
    for part in text.split(' ') {
        let part = if part == "?" { word } else { part };
        words.push(String::from_str(alloc, part)?)?;
    }
    Ok(())
}

/// Whether words have a form.
fn have_form(alloc: Global, words: &[String]) -> Result<bool, AllocError> {
    match read_words(alloc, words) {
        Ok(request) => {
            drop(request);
            Ok(true)
        }
        Err(WordsError::BadWords) => Ok(false),
        Err(WordsError::NoMemory) => Err(AllocError),
    }
}
