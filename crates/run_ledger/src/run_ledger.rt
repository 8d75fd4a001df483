//! A ledger of the moves of a run.

ghost use Rattle.std.specs.Prelude.{◌≡◌, []};
ghost use Rattle.cf_timed.specs.Turns.{made_as};
ghost use Rattle.run_ledger.specs.RunLedgers.{begun, move_noted, breakdown_in};
ghost use Rattle.run_ledger.specs.SeenMoves.{seen_move};

use crate::breakdown::Breakdown;
use crate::gaps::{StageGaps, empty_until, note_gaps, waiting_until};
use crate::latencies::Latencies;
use crate::ledger::Ledger;
use cf_core::{Core, Event};
use cf_io::{Failed, Sink};
use cf_layout::Layout;
use cf_timed::{TimedMove, Watcher};

/// For each site of a processor the last move that used it, with the counts by kind of the chain that ends with it; how
/// long each stage and siding was in use, and how long each stage waited and was empty; the counts of moves by kind;
/// and how long the instructions of each class took. It allocates no memory.
#[derive(Clone, Copy)]
pub struct RunLedger {
    pub(crate) sites: Ledger,
    /// The gaps of the stages, by their numbers.
    pub(crate) gaps: [StageGaps; 33],
    pub(crate) latencies: Latencies,
}

impl RunLedger {
    /// A ledger before the first move.
    #[tactic(auto, unfolding(crate::specs::RunLedgers::begun))]
    pub fn new(layout: &Layout) -> RunLedger
        ensures { result ≡ begun layout.now }
    {
        RunLedger {
            sites: Ledger::new(layout),
            gaps: [StageGaps::none(); 33],
            latencies: Latencies::none(),
        }
    }

    /// Records a move that was made, with its event, and the processor after it. Numbers are capped at the maximum of
    /// their types.
    #[tactic(auto, unfolding(crate::specs::RunLedgers::move_noted))]
    fn record(&mut self, core: &Core, event: &Event, done: &TimedMove)
        ensures { self.new ≡ move_noted self.old (seen_move done.now (made_as done.now.mv event.now core.now.state)) }
    {
        let layout = self.sites.layout;
        self.gaps = note_gaps(&layout, core, done, &self.gaps);
        self.latencies = self.latencies.after_move(&layout, event, done);
        self.sites.record(done.mv, done.delay);
    }

    /// What the time of the run consists of.
    #[tactic(auto, unfolding(crate::specs::RunLedgers::breakdown_in))]
    pub fn breakdown(&self) -> Breakdown
        ensures { result ≡ breakdown_in self.now }
    {
        let end = self.sites.last.time;
        Breakdown {
            layout: self.sites.layout,
            stages: self.sites.stages,
            waiting: waiting_until(end, &self.gaps),
            empty: empty_until(end, &self.gaps),
            sidings: self.sites.sidings,
            moves: self.sites.kinds,
            retired: self.latencies.retired,
            latencies: self.latencies.ticks,
            chain: self.sites.last.kinds,
        }
    }
}

impl Watcher for RunLedger {
    ghost noted = { λ l made done. move_noted l (seen_move done made) };

    ghost text = { λ l made done. [] };

    fn note<R: Sink>(
        &mut self,
        core: &Core,
        event: &Event,
        done: &TimedMove,
        _report: &mut R,
    ) -> Result<(), Failed> {
        self.record(core, event, done);
        Ok(())
    }
}
