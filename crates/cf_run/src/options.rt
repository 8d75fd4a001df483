//! What can be asked of the run of a policy.

use cf_sched::Pace;
use run_options::{GuessRule, Reporting};

/// The options of the run of a policy.
#[derive(Clone, Copy)]
pub struct PolicyOptions {
    /// The guess rule.
    pub rule: GuessRule,

    /// The number of retired instructions at which the run stops.
    pub limit: u64,

    /// What of the run is shown.
    pub reporting: Reporting,
}

/// A run of a policy in progress: what was asked of it, and its pace.
#[derive(Drop)]
pub(crate) struct Course {
    pub(crate) options: PolicyOptions,
    pub(crate) pace: Pace,
}
