//! The options of all commands.

ghost use Rattle.std.specs.Prelude.{◌≡◌};
ghost use Rattle.support_command_line.specs.Options.{has_value, option_text};

/// An option, of some commands or of others.
#[derive(Clone, Copy)]
pub enum OptionName {
    At,
    Order,
    Steps,
    Calls,
    Limit,
    Base,
    Widen,
    Cases,
    Open,
}

impl OptionName {
    /// All options.
    pub const ALL: [OptionName; 9] = [
        OptionName::At,
        OptionName::Order,
        OptionName::Steps,
        OptionName::Calls,
        OptionName::Limit,
        OptionName::Base,
        OptionName::Widen,
        OptionName::Cases,
        OptionName::Open,
    ];

    /// The name that stands after `--`.
    pub fn name(self) -> &'static str
        ensures { result.now ≡ option_text self }
    {
        match self {
            OptionName::At => "at",
            OptionName::Order => "order",
            OptionName::Steps => "steps",
            OptionName::Calls => "calls",
            OptionName::Limit => "limit",
            OptionName::Base => "base",
            OptionName::Widen => "widen",
            OptionName::Cases => "cases",
            OptionName::Open => "open",
        }
    }

    /// Whether it takes a value; any other is a flag.
    pub fn has_value(self) -> bool
        ensures { result ≡ has_value self }
    {
        !matches!(self, OptionName::Open)
    }
}
