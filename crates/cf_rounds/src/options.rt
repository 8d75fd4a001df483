//! The options of a run in rounds.

use run_options::GuessRule;

/// The options of a run in rounds.
#[derive(Clone, Copy)]
pub struct RoundsOptions {
    /// The number of retired instructions at which the run stops.
    pub limit: u64,

    /// The number of retired instructions after which the report says each time how far the run has come, if it does.
    pub every: Option<u64>,

    /// The guess rule.
    pub rule: GuessRule,
}
