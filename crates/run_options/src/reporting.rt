//! What a run writes to the report while it runs.

use crate::Show;

/// What a run writes to the report while it runs, before the closing lines.
#[derive(Clone, Copy)]
pub struct Reporting {
    /// What it shows of its instructions and moves.
    pub show: Show,

    /// The number of retired instructions after which it reports its progress, each time; if it does.
    pub every: Option<u64>,
}
