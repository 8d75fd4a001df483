//! The options of a timed run.

use run_options::GuessRule;

/// The options of a timed run.
#[derive(Clone, Copy)]
pub struct TimedOptions {
    /// The guess rule.
    pub rule: GuessRule,

    /// The number of retired instructions at which the run stops.
    pub limit: u64,
}
