//! The pages of help, one of each command.

ghost use Rattle.std.specs.Prelude.{◌≡◌};
ghost use Rattle.program_help.specs.Pages.{page_name, page_named, page_text};

use crate::page_texts;

/// The page of a command.
#[derive(Clone, Copy)]
pub enum Page {
    Call,
    List,
    Emulate,
    Analyse,
    Check,
    Convert,
    Slice,
    Claims,
    Stress,
}

impl Page {
    /// All pages, in the order in which they are told.
    pub const ALL: [Page; 9] = [
        Page::Call,
        Page::List,
        Page::Emulate,
        Page::Analyse,
        Page::Check,
        Page::Convert,
        Page::Slice,
        Page::Claims,
        Page::Stress,
    ];

    /// The page of the command of a name.
    pub fn named(name: &str) -> Option<Page>
        ensures { result ≡ page_named name.now }
    {
        Page::ALL.iter().copied().find(|page| page.name() == name)
    }

    /// The name of its command.
    pub fn name(self) -> &'static str
        ensures { result.now ≡ page_name self }
    {
        match self {
            Page::Call => "call",
            Page::List => "list",
            Page::Emulate => "emulate",
            Page::Analyse => "analyse",
            Page::Check => "check",
            Page::Convert => "convert",
            Page::Slice => "slice",
            Page::Claims => "claims",
            Page::Stress => "stress",
        }
    }

    /// What it tells: the words of the command, its options and an example.
    #[tactic(auto, unfolding(crate::specs::Pages::page_text))]
    pub fn text(self) -> &'static str
        ensures { result.now ≡ page_text self }
    {
        match self {
            Page::Call => page_texts::CALL,
            Page::List => page_texts::LIST,
            Page::Emulate => page_texts::EMULATE,
            Page::Analyse => page_texts::ANALYSE,
            Page::Check => page_texts::CHECK,
            Page::Convert => page_texts::CONVERT,
            Page::Slice => page_texts::SLICE,
            Page::Claims => page_texts::CLAIMS,
            Page::Stress => page_texts::STRESS,
        }
    }
}
