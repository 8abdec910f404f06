//! What words ask to be told.

ghost use Rattle.std.specs.Prelude.{◌≡◌, ◌∷◌, [], IfOk, option_map};
ghost use Rattle.std.specs.String.{string_bytes};
ghost use Rattle.support_command_line.specs.Views.{texts};
ghost use Rattle.program_help.specs.Help.{head_text, is_help, is_version, tail_text, topic, topic_text, usage, version_text};
ghost use Rattle.program_help.specs.Views.{topic_of};

use crate::page_texts;
use crate::pages::Page;
use std::alloc::{AllocError, Global};

/// All of help, the page of a command, or the version.
#[derive(Clone, Copy)]
pub enum Topic {
    All,
    Of(Page),
    Version,
}

/// What words ask for, if it is that.
pub fn topic_in(words: &[String]) -> Option<Topic>
    ensures { option_map topic_of result ≡ topic (texts words.now) }
{
    match words.len() {
        1 => topic_alone(words[0].as_str()),
        2 if is_help(words[1].as_str()) => Page::named(words[0].as_str()).map(Topic::Of),
        _ => None,
    }
}

/// What a word that stands alone asks for.
fn topic_alone(word: &str) -> Option<Topic>
    ensures { option_map topic_of result ≡ topic (word.now ∷ []) }
{
    if is_help(word) {
        return Some(Topic::All);
    }
    if word == "--version" {
        return Some(Topic::Version);
    }
    None
}

/// Whether a word asks for help.
fn is_help(word: &str) -> bool
    ensures { result ≡ is_help word.now }
{
    word == "--help"
}

impl Topic {
    /// What is told of it.
    pub fn text(self, alloc: Global) -> Result<String, AllocError>
        ensures { IfOk result (λ text. string_bytes text ≡ topic_text (topic_of self)) }
    {
        match self {
            Topic::All => usage(alloc),
            Topic::Of(page) => String::from_str(alloc, page.text()),
            Topic::Version => String::from_str(alloc, version()),
        }
    }
}

/// All of help.
fn usage(alloc: Global) -> Result<String, AllocError>
    ensures { IfOk result (λ text. string_bytes text ≡ usage) }
{
    let mut out = String::from_str(alloc, head())?;
    for page in Page::ALL {
        out.push_str(page.text())?;
    }
    out.push_str(tail())?;
    Ok(out)
}

/// The program and its version.
#[tactic(auto, unfolding(crate::specs::Help::version_text))]
fn version() -> &'static str
    ensures { result.now ≡ version_text }
{
    page_texts::VERSION
}

/// What stands before the pages.
#[tactic(auto, unfolding(crate::specs::Help::head_text))]
fn head() -> &'static str
    ensures { result.now ≡ head_text }
{
    page_texts::HEAD
}

/// What stands behind them.
#[tactic(auto, unfolding(crate::specs::Help::tail_text))]
fn tail() -> &'static str
    ensures { result.now ≡ tail_text }
{
    page_texts::TAIL
}
