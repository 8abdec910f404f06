//! Commands and options by the words that name them.

/// A command.
#[derive(Clone, Copy)]
pub struct CommandForm {
    pub name: &'static str,
    /// Its positional words, with spaces between. Behind those of `call` stand any number of numbers.
    pub words: &'static str,
    /// Words that have a form together with those of `needs`.
    pub sample: &'static str,
    /// The option that it has to have, with a value, or nothing.
    pub needs: &'static str,
}

/// An option.
#[derive(Clone, Copy)]
pub struct OptionForm {
    pub name: &'static str,
    /// How it is written, which is its code in the table of sentences.
    pub code: &'static str,
    /// A value that each command takes which takes the option. A flag has the empty one.
    pub sample: &'static str,
}

impl OptionForm {
    /// Whether it takes a value; any other is a flag.
    pub fn has_value(self) -> bool {
        !self.sample.is_empty()
    }
}

/// The command of a name.
pub fn command_named(name: &str) -> Option<CommandForm> {
    COMMANDS
        .iter()
        .copied()
        .find(|command| command.name == name)
}

/// The option of a name.
pub fn option_named(name: &str) -> Option<OptionForm> {
    OPTIONS.iter().copied().find(|option| option.name == name)
}

/// All commands.
pub const COMMANDS: [CommandForm; 9] = [
    CommandForm {
        name: "call",
        words: "SPEC FUN",
        sample: "call s f",
        needs: "",
    },
    CommandForm {
        name: "emulate",
        words: "SPEC CODE ENTRY",
        sample: "emulate s c e",
        needs: "",
    },
    CommandForm {
        name: "analyse",
        words: "SPEC CODE ENTRY",
        sample: "analyse s c e",
        needs: "",
    },
    CommandForm {
        name: "check",
        words: "SPEC CODE ENTRY TABLE",
        sample: "check s c e t",
        needs: "",
    },
    CommandForm {
        name: "convert",
        words: "SPEC CODE TABLE",
        sample: "convert s c t",
        needs: "",
    },
    CommandForm {
        name: "list",
        words: "SPEC CODE",
        sample: "list s c",
        needs: "",
    },
    CommandForm {
        name: "slice",
        words: "SPEC CODE ENTRY TABLE ADDRESS CELL",
        sample: "slice s c e t 0 x",
        needs: "--base defuse",
    },
    CommandForm {
        name: "claims",
        words: "SPEC CODE ENTRY TABLE CLAIMS",
        sample: "claims s c e t k",
        needs: "",
    },
    CommandForm {
        name: "stress",
        words: "NUMBER COUNT",
        sample: "stress 0 1",
        needs: "",
    },
];

/// All options.
pub const OPTIONS: [OptionForm; 9] = [
    OptionForm {
        name: "at",
        code: "--at",
        sample: "0",
    },
    OptionForm {
        name: "order",
        code: "--order",
        sample: "big",
    },
    OptionForm {
        name: "steps",
        code: "--steps",
        sample: "1",
    },
    OptionForm {
        name: "calls",
        code: "--calls",
        sample: "1",
    },
    OptionForm {
        name: "limit",
        code: "--limit",
        sample: "1",
    },
    OptionForm {
        name: "base",
        code: "--base",
        sample: "defuse",
    },
    OptionForm {
        name: "widen",
        code: "--widen",
        sample: "1",
    },
    OptionForm {
        name: "cases",
        code: "--cases",
        sample: "0",
    },
    OptionForm {
        name: "open",
        code: "--open",
        sample: "",
    },
];
