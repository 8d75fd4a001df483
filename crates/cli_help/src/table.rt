//! The table of the help texts.

ghost use Rattle.std.specs.Prelude.{◌≡◌, true};
ghost use Rattle.cli_arguments.specs.Commands.{has_help};
ghost use Rattle.cli_help.specs.Help.{IsHelp};
ghost use Rattle.cli_help.specs.Table.{help_text};

use crate::pages;
use cli_arguments::CommandName;

/// The table: commands that are written as options have the text of `help`.
#[tactic(auto, unfolding(crate::specs::Table::help_text))]
fn text_of(name: CommandName) -> &'static [u8]
    ensures { result.now ≡ help_text name }
{
    match name {
        CommandName::Machine => pages::machine::HELP_ON_MACHINE,
        CommandName::Run => pages::run::HELP_ON_RUN,
        CommandName::Moves => pages::moves::HELP_ON_MOVES,
        CommandName::Rounds => pages::rounds::HELP_ON_ROUNDS,
        CommandName::Orders => pages::orders::HELP_ON_ORDERS,
        CommandName::Conform => pages::conform::HELP_ON_CONFORM,
        CommandName::Debug => pages::debug::HELP_ON_DEBUG,
        CommandName::Time => pages::time::HELP_ON_TIME,
        CommandName::Audit => pages::audit::HELP_ON_AUDIT,
        CommandName::Check => pages::check::HELP_ON_CHECK,
        CommandName::Asm => pages::asm::HELP_ON_ASM,
        CommandName::List => pages::list::HELP_ON_LIST,
        CommandName::Gen => pages::drawn::HELP_ON_GEN,
        CommandName::Help => pages::help::HELP_ON_HELP,
        CommandName::HelpOption | CommandName::HelpLetter => pages::help::HELP_ON_HELP,
        CommandName::Version | CommandName::VersionLetter => pages::help::HELP_ON_HELP,
    }
}

/// What `help` writes about a command: if there is help on the command, the text is as the grammar of the command line
/// requires.
pub fn help_on(name: CommandName) -> &'static [u8]
    ensures text { result.now ≡ help_text name }
    ensures about { has_help name ≡ true → IsHelp name result.now }
{
    text_of(name)
}
