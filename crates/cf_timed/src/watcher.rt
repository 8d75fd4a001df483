//! Watchers, which are shown each move of a timed run.

ghost use Rattle.std.specs.Prelude.{◌≡◌, ℕ, List, []};
ghost use Rattle.cf_report.specs.Putting.{PutsText};
ghost use Rattle.cf_run.specs.Made.{Made};
ghost use Rattle.cf_timed.specs.Turns.{made_as};

use crate::timed_move::TimedMove;
use cf_core::{Core, Event};
use cf_io::{Failed, Sink};

/// Something that is shown each move of a timed run, once it was made, and may write about it. Its new state and its text
/// depend only on its old state and what it is shown.
pub trait Watcher {
    ghost use Rattle.cf_timed.specs.declared.timed_move.TimedMove.{TimedMove};

    /// The watcher after a move.
    ghost noted: { Self → Made → TimedMove → Self };

    /// What it writes about a move.
    ghost text: { Self → Made → TimedMove → List ℕ };

    /// Shows it a move, its event, and the processor after it.
    fn note<R: Sink>(
        &mut self,
        core: &Core,
        event: &Event,
        done: &TimedMove,
        report: &mut R,
    ) -> Result<(), Failed>
        ensures noted { self.new ≡ noted self.old (made_as done.now.mv event.now core.now.state) done.now }
        ensures text { PutsText (R.written report.old) (R.written report.new) (R.faults report.old) (R.faults report.new)
            (text self.old (made_as done.now.mv event.now core.now.state) done.now) result };
}

/// Does nothing with what it is shown.
#[derive(Clone, Copy)]
pub struct Unwatched;

impl Watcher for Unwatched {
    ghost noted = { λ w made done. w };

    ghost text = { λ w made done. [] };

    #[inline(always)]
    fn note<R: Sink>(
        &mut self,
        _core: &Core,
        _event: &Event,
        _done: &TimedMove,
        _report: &mut R,
    ) -> Result<(), Failed> {
        Ok(())
    }
}
