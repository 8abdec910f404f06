//! The commands, and the options that each takes.

ghost use Rattle.std.specs.Prelude.{◌≡◌};
ghost use Rattle.support_command_line.specs.Commands.{command_named, command_text, is_of_analysis, takes};

use crate::options::OptionName;

/// A command.
#[derive(Clone, Copy)]
pub enum CommandName {
    Call,
    Emulate,
    Analyse,
    Check,
    Convert,
    List,
    Slice,
    Claims,
    Stress,
}

impl CommandName {
    /// All commands.
    pub const ALL: [CommandName; 9] = [
        CommandName::Call,
        CommandName::Emulate,
        CommandName::Analyse,
        CommandName::Check,
        CommandName::Convert,
        CommandName::List,
        CommandName::Slice,
        CommandName::Claims,
        CommandName::Stress,
    ];

    /// The command of a name.
    pub fn named(name: &str) -> Option<CommandName>
        ensures { result ≡ command_named name.now }
    {
        CommandName::ALL
            .iter()
            .copied()
            .find(|command| command.name() == name)
    }

    /// Its name.
    pub fn name(self) -> &'static str
        ensures { result.now ≡ command_text self }
    {
        match self {
            CommandName::Call => "call",
            CommandName::Emulate => "emulate",
            CommandName::Analyse => "analyse",
            CommandName::Check => "check",
            CommandName::Convert => "convert",
            CommandName::List => "list",
            CommandName::Slice => "slice",
            CommandName::Claims => "claims",
            CommandName::Stress => "stress",
        }
    }

    /// Whether it takes an option.
    pub fn takes(self, option: OptionName) -> bool
        ensures { result ≡ takes self option }
    {
        match self {
            CommandName::Call => matches!(option, OptionName::Calls),
            CommandName::Emulate => matches!(
                option,
                OptionName::At | OptionName::Order | OptionName::Steps | OptionName::Calls
            ),
            CommandName::Analyse => is_of_analysis(option) || matches!(option, OptionName::Widen),
            CommandName::Check | CommandName::Slice | CommandName::Claims => is_of_analysis(option),
            CommandName::Convert => matches!(
                option,
                OptionName::At | OptionName::Order | OptionName::Base
            ),
            CommandName::List => matches!(option, OptionName::At | OptionName::Order),
            CommandName::Stress => matches!(option, OptionName::Base),
        }
    }
}

/// Whether an option is one of `analyse` and of all that look at a table of its form.
fn is_of_analysis(option: OptionName) -> bool
    ensures { result ≡ is_of_analysis option }
{
    matches!(
        option,
        OptionName::At
            | OptionName::Order
            | OptionName::Base
            | OptionName::Limit
            | OptionName::Cases
            | OptionName::Open
    )
}
