//! The commands by their names, and their positional arguments.
#![tactic(auto, unfolding(crate::specs::Commands::is_positional, crate::specs::Commands::name_in, crate::specs::Commands::topic_in))]

ghost use Rattle.std.specs.Prelude.{◌≡◌};
ghost use Rattle.cli_arguments.specs.Values.{is_file_name};
ghost use Rattle.cli_arguments.specs.Commands.{fewest, has_help, is_of, is_positional, most, name_in, place_kind, topic_in};

use crate::numbers::read_count;

/// The commands.
#[derive(Clone, Copy)]
pub enum CommandName {
    Machine,
    Run,
    Moves,
    Rounds,
    Orders,
    Conform,
    Debug,
    Time,
    Audit,
    Check,
    Asm,
    List,
    Gen,
    Help,
    HelpOption,
    HelpLetter,
    Version,
    VersionLetter,
}

/// The kind of a command's positional arguments.
#[derive(Clone, Copy)]
pub(crate) enum PlaceKind {
    /// Names of files.
    Files,
    /// Numbers of statements.
    Numbers,
    /// Commands on which there is help.
    Topics,
}

impl CommandName {
    /// The command that begins with this argument.
    pub(crate) fn from_argument(argument: &str) -> Option<Self>
        ensures { result ≡ name_in argument.now }
    {
        match argument {
            "machine" => Some(CommandName::Machine),
            "run" => Some(CommandName::Run),
            "moves" => Some(CommandName::Moves),
            "rounds" => Some(CommandName::Rounds),
            "orders" => Some(CommandName::Orders),
            "conform" => Some(CommandName::Conform),
            "debug" => Some(CommandName::Debug),
            "time" => Some(CommandName::Time),
            "audit" => Some(CommandName::Audit),
            "check" => Some(CommandName::Check),
            "asm" => Some(CommandName::Asm),
            "list" => Some(CommandName::List),
            "gen" => Some(CommandName::Gen),
            "help" => Some(CommandName::Help),
            "--help" => Some(CommandName::HelpOption),
            "-h" => Some(CommandName::HelpLetter),
            "--version" => Some(CommandName::Version),
            "-V" => Some(CommandName::VersionLetter),
            _ => None,
        }
    }

    /// The minimum number of positional arguments of the command.
    pub(crate) fn fewest(self) -> usize
        ensures { result ≡ fewest self }
    {
        match self {
            CommandName::Help
            | CommandName::HelpOption
            | CommandName::HelpLetter
            | CommandName::Version
            | CommandName::VersionLetter => 0,
            CommandName::Machine
            | CommandName::Check
            | CommandName::Asm
            | CommandName::List
            | CommandName::Gen => 1,
            CommandName::Run
            | CommandName::Moves
            | CommandName::Rounds
            | CommandName::Orders
            | CommandName::Conform
            | CommandName::Debug => 2,
            CommandName::Time | CommandName::Audit => 3,
        }
    }

    /// The maximum number: `time` takes up to eight layouts, and `help` a command's name.
    pub(crate) fn most(self) -> usize
        ensures { result ≡ most self }
    {
        match self {
            CommandName::Time => 10,
            CommandName::Help => 1,
            name => name.fewest(),
        }
    }

    /// Whether there is help on the command: on all except those that are written as options.
    fn has_help(self) -> bool
        ensures { result ≡ has_help self }
    {
        !matches!(
            self,
            CommandName::HelpOption
                | CommandName::HelpLetter
                | CommandName::Version
                | CommandName::VersionLetter
        )
    }

    /// The command that an argument after `help` names.
    pub(crate) fn from_topic(argument: &str) -> Option<Self>
        ensures { result ≡ topic_in argument.now }
    {
        let name = CommandName::from_argument(argument)?;
        name.has_help().then_some(name)
    }

    /// The kind of its positional arguments.
    fn places(self) -> PlaceKind
        ensures { result ≡ place_kind self }
    {
        match self {
            CommandName::Gen => PlaceKind::Numbers,
            CommandName::Help => PlaceKind::Topics,
            _ => PlaceKind::Files,
        }
    }

    /// Whether an argument may be among its positional arguments.
    pub(crate) fn is_positional(self, argument: &str) -> bool
        ensures { result ≡ is_positional self argument.now }
    {
        self.places().has(argument)
    }
}

impl PlaceKind {
    /// Whether an argument is of this kind.
    fn has(self, argument: &str) -> bool
        ensures { result ≡ is_of self argument.now }
    {
        match self {
            PlaceKind::Files => is_file_name(argument),
            PlaceKind::Numbers => read_count(argument).is_some(),
            PlaceKind::Topics => CommandName::from_topic(argument).is_some(),
        }
    }
}

/// Whether an argument may name a file: it is not empty and does not begin as an option does.
pub(crate) fn is_file_name(argument: &str) -> bool
    ensures { result ≡ is_file_name argument.now }
{
    !argument.is_empty() && !argument.starts_with("--")
}
