//! One move of a timed run.

use crate::timed_move::TimedMove;
use cf_core::Event;

/// A move that was made, with its event.
#[derive(Clone, Copy)]
pub(crate) struct TimedStep {
    pub(crate) event: Event,
    pub(crate) done: TimedMove,
}
