//! What can be shown.
#![tactic(auto, unfolding(crate::specs::Reading::shown_in))]

ghost use Rattle.std.specs.Prelude.{◌≡◌};
ghost use Rattle.cli_arguments.specs.Options.{can_show};
ghost use Rattle.cli_arguments.specs.Reading.{shown_in};
ghost use Rattle.cli_arguments.specs.Arguments.{run_show_of, shows_edges, time_show_of};

use crate::names::CommandName;
use run_options::{Show, TimeShow};

/// The values of `--show`, for any command.
#[derive(Clone, Copy)]
pub(crate) enum Shown {
    /// The closing report alone.
    Report,
    /// Each instruction as it retires.
    Retired,
    /// Each move.
    Moves,
    /// What a time is made of.
    Sites,
    /// Each move of a search, with the states before and after it.
    Edges,
}

impl Shown {
    /// The value that this argument is.
    pub(crate) fn from_argument(argument: &str) -> Option<Self>
        ensures { result ≡ shown_in argument.now }
    {
        match argument {
            "report" => Some(Shown::Report),
            "retired" => Some(Shown::Retired),
            "moves" => Some(Shown::Moves),
            "sites" => Some(Shown::Sites),
            "edges" => Some(Shown::Edges),
            _ => None,
        }
    }

    /// Whether a command can show it.
    pub(crate) fn is_of(self, name: CommandName) -> bool
        ensures { result ≡ can_show name self }
    {
        matches!(
            (name, self),
            (
                CommandName::Run,
                Shown::Report | Shown::Retired | Shown::Moves
            ) | (CommandName::Machine, Shown::Report | Shown::Retired)
                | (CommandName::Time, Shown::Sites | Shown::Moves)
                | (CommandName::Orders, Shown::Edges)
        )
    }
}

/// What a run shows.
pub(crate) fn lines_of(shown: Option<Shown>) -> Show
    ensures { result ≡ run_show_of shown }
{
    match shown {
        Some(Shown::Retired) => Show::Retired,
        Some(Shown::Moves) => Show::Moves,
        Some(Shown::Report | Shown::Sites | Shown::Edges) | None => Show::Report,
    }
}

/// What a comparison of times shows.
pub(crate) fn time_show_of(shown: Option<Shown>) -> TimeShow
    ensures { result ≡ time_show_of shown }
{
    match shown {
        Some(Shown::Sites) => TimeShow::Sites,
        Some(Shown::Moves) => TimeShow::Moves,
        Some(Shown::Report | Shown::Retired | Shown::Edges) | None => TimeShow::Nothing,
    }
}

/// Whether the edges of a search are shown.
pub(crate) fn shows_edges(shown: Option<Shown>) -> bool
    ensures { result ≡ shows_edges shown }
{
    matches!(shown, Some(Shown::Edges))
}
