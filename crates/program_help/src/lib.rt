//! Words that ask for help or for the version, and the texts that are told.
//!
//! | words | what is told |
//! |---|---|
//! | `--help` | all of help: the page of each command, between a head and a tail |
//! | `COMMAND --help` | the page of the command |
//! | `--version` | the program and its version |
//!
//! What is proved: `tell_help` writes the text where words ask for one, and does nothing where they ask for none (specs/Help, `topic`:
//! the three forms and no other). No words that ask for it are a request of the program (`help_is_apart`), so that looking for it first
//! takes no request away. The texts are constants of src/page_texts.rt, which the script `tsl` prints too.
#![tactic(auto)]

ghost use Rattle.support_io.specs.SinkState.{SinkKept};
ghost use Rattle.support_command_line.specs.Views.{texts};
ghost use Rattle.std.specs.Prelude.{Some};
ghost use Rattle.program_help.specs.Help.{Tells, told, topic_text};
ghost use Rattle.program_help.specs.Views.{topic_of};
ghost use Rattle.program_help.specs.Laws.{HelpIsApart};

mod help_error;
mod page_texts;
mod pages;
#[cfg(test)]
mod tests;
mod topics;

pub use help_error::HelpError;
use std::alloc::Global;
use support_io::{Sink, write_whole};
use topics::{Topic, topic_in};

/// Writes the text that words ask for, where they ask for help or the version; where they do not, it does nothing and answers none.
pub fn tell_help<S: Sink>(
    alloc: Global,
    words: &[String],
    sink: &mut S,
) -> Option<Result<(), HelpError>>
    ensures kept { SinkKept (S.state sink.old) (S.state sink.new) }
    ensures tells { Tells (told (texts words.now)) (S.state sink.old) (S.state sink.new) result }
{
    match topic_in(words) {
        Some(topic) => Some(tell(alloc, topic, sink)),
        None => None,
    }
}

/// Writes what is told of a topic.
fn tell<S: Sink>(alloc: Global, topic: Topic, sink: &mut S) -> Result<(), HelpError>
    ensures kept { SinkKept (S.state sink.old) (S.state sink.new) }
    ensures tells { Tells (Some (topic_text (topic_of topic))) (S.state sink.old) (S.state sink.new) (Some result) }
{
    let text = topic.text(alloc)?;
    Ok(write_whole(sink, text.as_bytes())?)
}

/// Words that ask for help or for the version are no request of the program.
pub fn help_is_apart()
    ensures { HelpIsApart }
{}
