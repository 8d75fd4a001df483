//! How long each stage waits and how long it is empty, counted move after move.

ghost use Rattle.std.specs.Prelude.{◌≡◌};
ghost use Rattle.run_ledger.specs.GapCounts.{after_use as use_after, empty_until, gaps_after as after_move, gaps_noted, no_gaps, waiting_until, with_gap as gap_counted};
ghost use Rattle.run_ledger.specs.Gaps.{holds_any as is_held_at};
ghost use Rattle.run_ledger.specs.SeenMoves.{move_start as begun};

use crate::charging::plus_if;
use crate::uses::uses_stage;
use cf_core::Core;
use cf_layout::Layout;
use cf_timed::TimedMove;

/// The gaps between the moves that use a stage. All times are in ticks.
#[derive(Clone, Copy)]
pub(crate) struct StageGaps {
    /// When the last of these moves finished; 0 before the first.
    pub(crate) until: u64,

    /// Whether that move left an instruction or a result in the stage.
    pub(crate) is_held: bool,

    /// How long the gaps are in which the stage held an instruction or a result.
    pub(crate) waiting: u64,

    /// How long the other gaps are.
    pub(crate) empty: u64,
}

impl StageGaps {
    /// No move has used the stage.
    #[inline(always)]
    pub(crate) fn none() -> StageGaps
        ensures { result ≡ no_gaps }
    {
        StageGaps {
            until: 0,
            is_held: false,
            waiting: 0,
            empty: 0,
        }
    }

    /// The gap up to this time counts as well.
    #[inline(always)]
    fn with_gap(self, end: u64) -> StageGaps
        ensures { result ≡ gap_counted self end }
    {
        let gap = end.saturating_sub(self.until);
        StageGaps {
            until: self.until,
            is_held: self.is_held,
            waiting: plus_if(self.is_held, self.waiting, gap),
            empty: plus_if(!self.is_held, self.empty, gap),
        }
    }

    /// A move has used the stage, and left something in it or not.
    #[inline(always)]
    fn after_use(self, done: &TimedMove, is_held: bool) -> StageGaps
        ensures { result ≡ use_after self done.now is_held }
    {
        let counted = self.with_gap(start_of(done));
        StageGaps {
            until: done.time,
            is_held,
            waiting: counted.waiting,
            empty: counted.empty,
        }
    }
}

/// When a move started.
#[inline(always)]
pub(crate) fn start_of(done: &TimedMove) -> u64
    ensures { result ≡ begun done.now }
{
    done.time.saturating_sub(done.delay)
}

/// Whether an instruction or a result is in the stage.
#[inline(always)]
#[tactic(auto, using(cf_timed::proofs::Classes::past_stages), unfolding(crate::specs::Gaps::holds_any))]
fn holds_any(core: &Core, i: usize) -> bool
    ensures { result ≡ is_held_at core.now.state i }
{
    if i == 0 || (core.layout().stages() as usize) < i {
        return false;
    }
    let cell = core.stage(i as u32);
    cell.passenger.is_some() || cell.packet.is_some()
}

/// The gaps of a stage after a move.
#[inline(always)]
#[tactic(auto, unfolding(crate::specs::GapCounts::gaps_after))]
fn gaps_after(
    layout: &Layout,
    core: &Core,
    done: &TimedMove,
    i: usize,
    gaps: StageGaps,
) -> StageGaps
    ensures { result ≡ after_move layout.now done.now core.now.state i gaps }
{
    if uses_stage(layout, i, done.mv) {
        gaps.after_use(done, holds_any(core, i))
    } else {
        gaps
    }
}

/// The gaps of each stage after a move.
pub(crate) fn note_gaps(
    layout: &Layout,
    core: &Core,
    done: &TimedMove,
    gaps: &[StageGaps; 33],
) -> [StageGaps; 33]
    ensures { result ≡ gaps_noted layout.now done.now core.now.state gaps.now }
{
    let mut noted = [StageGaps::none(); 33];
    for i in 0..33 {
        noted[i] = gaps_after(layout, core, done, i, gaps[i]);
    }
    noted
}

/// How long each stage waits up to an end.
pub(crate) fn waiting_until(end: u64, gaps: &[StageGaps; 33]) -> [u64; 33]
    ensures { result ≡ waiting_until end gaps.now }
{
    let mut waiting = [0; 33];
    for i in 0..33 {
        waiting[i] = gaps[i].with_gap(end).waiting;
    }
    waiting
}

/// How long each stage is empty up to an end.
pub(crate) fn empty_until(end: u64, gaps: &[StageGaps; 33]) -> [u64; 33]
    ensures { result ≡ empty_until end gaps.now }
{
    let mut empty = [0; 33];
    for i in 0..33 {
        empty[i] = gaps[i].with_gap(end).empty;
    }
    empty
}
