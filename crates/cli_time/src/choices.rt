//! How the runs of a comparison are made.

ghost use Rattle.std.specs.Prelude.{◌≡◌};
ghost use Rattle.cli_arguments.specs.Views.{times_view};
ghost use Rattle.cli_time.specs.Asked.{choices_by};

use cli_arguments::TimeOptions;
use run_options::{GuessRule, TimeShow};

/// How each run of a comparison is made, and what is shown of it.
#[derive(Clone, Copy)]
pub struct RunChoices {
    /// The maximum number of instructions that each run retires.
    pub limit: u64,

    /// The guess rule of each run.
    pub rule: GuessRule,

    /// The seed from which delays are drawn.
    pub seed: Option<u64>,

    /// What is shown of each run.
    pub show: TimeShow,
}

/// How the runs are made, by what the arguments ask for.
#[tactic(auto, unfolding(crate::specs::Asked::choices_by))]
pub(crate) fn choices_by(options: TimeOptions<'_>) -> RunChoices
    ensures { result ≡ choices_by (times_view options.entry) }
{
    RunChoices {
        limit: options.limit,
        rule: options.rule,
        seed: match options.seed {
            Some(seed) => Some(u64::from(seed)),
            None => None,
        },
        show: options.show,
    }
}
