//! A move of a timed run.

use cf_bind::Move;

/// A move that was made, how many ticks it took, and when it finished.
#[derive(Clone, Copy)]
pub struct TimedMove {
    /// The move.
    pub mv: Move,

    /// How many ticks it took.
    pub delay: u64,

    /// When it finished, in ticks from the start of the run.
    pub time: u64,
}
