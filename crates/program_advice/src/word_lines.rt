//! The lines of help on words that have no meaning.

use crate::forms::{COMMANDS, CommandForm, OPTIONS, OptionForm};
use crate::sentences::sentence_of;
use crate::trial::{takes, takes_value};
use crate::words_fault::{WordsFault, words_fault};
use std::alloc::{AllocError, Global};
use support_command_line::BaseName;

/// Where help on the words stands.
const USAGE: &str = "`./tsl --help` lists the forms\n";

/// What is wrong with words, and what is wanted.
pub fn push_words_fault(
    alloc: Global,
    out: &mut String,
    words: &[String],
) -> Result<(), AllocError> {
    match words_fault(alloc, words)? {
        WordsFault::NoValue(option) => push_no_value(out, option)?,
        WordsFault::BadValue(command, option, value) => {
            push_bad_value(alloc, out, command, option, value)?;
        }
        WordsFault::NotTaken(command, option) => push_not_taken(alloc, out, command, option)?,
        fault => push_fault(out, fault)?,
    }
    out.push('\n')?;
    out.push_str(USAGE)
}

/// What is wrong with words, but of the values of options and which options a command takes.
fn push_fault(out: &mut String, fault: WordsFault) -> Result<(), AllocError> {
    match fault {
        WordsFault::NoCommand => push_commands(out, "a command is wanted:"),
        WordsFault::UnknownCommand(word) => {
            write!(out, "`{word}` is no command")?;
            push_commands(out, ", but:")
        }
        WordsFault::UnknownOption(word) => {
            write!(out, "`{word}` is no option")?;
            push_options(out, ", but:")
        }
        WordsFault::Twice(option) => write!(out, "`{}` is given twice", option.code),
        WordsFault::FlagWithValue(option) => write!(out, "`{}` takes no value", option.code),
        WordsFault::Needs(command) => push_needs(out, command),
        WordsFault::Missing(command, name) => {
            write!(out, "{name} is missing")?;
            push_form(out, command)
        }
        WordsFault::TooMany(command, word) => {
            write!(out, "`{word}` is one word too many")?;
            push_form(out, command)
        }
        WordsFault::BadWord(name, word) => write!(out, "`{word}` is no {name}: {}", form_of(name)),
        WordsFault::None(command) => out.push_str(told_by_inputs(command)),
        WordsFault::NoValue(_) | WordsFault::BadValue(..) | WordsFault::NotTaken(..) => Ok(()),
    }
}

/// The option that a command has to have.
fn push_needs(out: &mut String, command: CommandForm) -> Result<(), AllocError> {
    write!(
        out,
        "`{}` wants an option, as `{}`",
        command.name, command.needs
    )
}

/// What is wrong with words that have a form: the specification says it.
fn told_by_inputs(command: CommandForm) -> &'static str {
    if command.name == "slice" {
        "the states of the specification have no such CELL"
    } else {
        "the specification has no such function, or it takes other numbers: count them, and look at their widths"
    }
}

/// The names of all commands, behind a text.
fn push_commands(out: &mut String, front: &str) -> Result<(), AllocError> {
    out.push_str(front)?;
    for command in COMMANDS {
        write!(out, " {}", command.name)?;
    }
    Ok(())
}

/// All options, behind a text.
fn push_options(out: &mut String, front: &str) -> Result<(), AllocError> {
    out.push_str(front)?;
    for option in OPTIONS {
        write!(out, " {}", option.code)?;
    }
    Ok(())
}

/// Which values an option takes that has none.
fn push_no_value(out: &mut String, option: OptionForm) -> Result<(), AllocError> {
    write!(out, "`{}` wants a value: ", option.code)?;
    push_values(out, option)
}

/// Which values an option takes that has another one.
fn push_bad_value(
    alloc: Global,
    out: &mut String,
    command: CommandForm,
    option: OptionForm,
    value: &str,
) -> Result<(), AllocError> {
    write!(out, "`{value}` is no value of `{}`: ", option.code)?;
    if option.name != "base" {
        return push_values(out, option);
    }
    write!(out, "`{}` takes", command.name)?;
    for base in BaseName::ALL {
        if takes_value(alloc, command, option, base.name())? {
            write!(out, " {}", base.name())?;
        }
    }
    Ok(())
}

/// Which values an option takes.
fn push_values(out: &mut String, option: OptionForm) -> Result<(), AllocError> {
    match sentence_of(option.code) {
        Some(sentence) => out.push_str(sentence.says),
        None => Ok(()),
    }
}

/// Which options a command takes, where it was given another one.
fn push_not_taken(
    alloc: Global,
    out: &mut String,
    command: CommandForm,
    option: OptionForm,
) -> Result<(), AllocError> {
    write!(out, "`{}` takes no `{}`, but:", command.name, option.code)?;
    for other in OPTIONS {
        if takes(alloc, command, other)? {
            write!(out, " {}", other.code)?;
        }
    }
    Ok(())
}

/// The positional words of a command.
fn push_form(out: &mut String, command: CommandForm) -> Result<(), AllocError> {
    write!(out, ": {} {}", command.name, command.words)?;
    if command.name == "call" {
        out.push_str(" NUMBER ..")?;
    }
    Ok(())
}

/// The form of a positional word.
fn form_of(name: &str) -> &'static str {
    match name {
        "CODE" =>
            "NAME, and then any number of `,NAME@HEX`; at most 16 parts, and no name is empty or has `,` or `@` in it",
        "ADDRESS" => "1 to 8 hex digits",
        "NUMBER" => "0 to 4294967295",
        "COUNT" => "1 to 16384",
        _ => "a name",
    }
}
