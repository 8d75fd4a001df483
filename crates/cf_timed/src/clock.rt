//! The clock of a timed run.

ghost use Rattle.std.specs.Prelude.{◌≡◌, ℕ, ◌+◌, ◌-◌, ◌<◌, ◌≤◌, ◌^◌, min};
ghost use Rattle.cf_index.specs.Sites.{HasSites};
ghost use Rattle.cf_timed.specs.Delays.{AreDelays};
ghost use Rattle.cf_timed.specs.Clocks.{NoneLater, allowed, capped, clocked, delay_by, drawing, finish_time, made, stamped, started};

use crate::class_at::class_at;
use crate::delays::Delays;
use crate::draws::DelayDraws;
use cf_bind::Move;
use cf_core::Core;
use cf_layout::Layout;
use std::marker::Model;

/// For each site of a processor, the time of the last move that used it: the stages by their numbers, the cells of the
/// sidings, the lane, fetch, the memory and the code. It also has what the delays of further moves are drawn from.
#[derive(Clone, Copy)]
pub struct Clock {
    pub(crate) layout: Layout,
    pub(crate) delays: Delays,
    pub(crate) draws: DelayDraws,
    pub(crate) stages: [u64; 34],
    pub(crate) cells: [[u64; 8]; 8],
    pub(crate) lane: u64,
    pub(crate) fetch: u64,
    pub(crate) memory: u64,
    pub(crate) code: u64,
    pub(crate) latest: u64,
}

impl Model for Clock {
    ghost use Rattle.cf_timed.specs.Clocks.{NoneLater, SiteTimes};

    ghost Value = { SiteTimes };

    ghost view = { λ c. record { plan = c.layout; delays = c.delays; draws = c.draws; stages = c.stages; cells = c.cells; lane = c.lane; fetch = c.fetch; memory = c.memory; code = c.code; latest = c.latest } };

    ghost invariant = { λ c. NoneLater (record { plan = c.layout; delays = c.delays; draws = c.draws; stages = c.stages; cells = c.cells; lane = c.lane; fetch = c.fetch; memory = c.memory; code = c.code; latest = c.latest }) };

    ghost inverse = { λ c. record { layout = c.plan; delays = c.delays; draws = c.draws; stages = c.stages; cells = c.cells; lane = c.lane; fetch = c.fetch; memory = c.memory; code = c.code; latest = c.latest } };
}

impl Clock {
    /// A clock before the first move, whose delays are drawn from the seed if there is one: all times are 0.
    #[tactic(auto, unfolding(crate::specs::Clocks::started))]
    pub fn new(layout: &Layout, delays: Delays, seed: Option<u64>) -> Clock
        ensures { result ≡ started layout.now (record { spans = delays; seed = seed }) }
    {
        Clock {
            layout: *layout,
            delays,
            draws: DelayDraws::new(seed),
            stages: [0; 34],
            cells: [[0; 8]; 8],
            lane: 0,
            fetch: 0,
            memory: 0,
            code: 0,
            latest: 0,
        }
    }

    /// The maximum time so far, or 0. No site has a later one.
    pub fn greatest(&self) -> u64
        ensures greatest { result ≡ self.now.latest }
        ensures none_later { NoneLater self.now }
    {
        self.latest
    }

    /// Invariant of every clock: it has a delay for each kind of move. The function does nothing.
    pub fn known(&self)
        ensures { AreDelays self.now.delays }
    {
        self.delays.known();
    }

    /// The layout.
    #[inline(always)]
    pub(crate) fn layout(&self) -> &Layout
        ensures { result.now ≡ self.now.plan }
    {
        &self.layout
    }

    /// How many ticks the move takes if it is made now: within the range for its kind and the class of its instruction,
    /// chosen by the next word of its stream, or the middle of the range.
    #[inline(always)]
    #[tactic(auto, unfolding(crate::specs::Clocks::delay_by))]
    pub fn delay(&self, core: &Core, mv: Move) -> u64
        ensures delay { result ≡ delay_by (clocked self.now core.now.state) mv }
        ensures few { result ≤ 1000 }
    {
        let class = class_at(core, mv);
        match self.draws.next_word(mv) {
            Some(word) => u64::from(self.delays.of(mv, class).ticks(Some(word))),
            None => self.delays.middle(mv, class),
        }
    }

    /// When the move finishes if it is made now, capped at the maximum `u64`.
    #[inline(always)]
    #[tactic(auto, unfolding(crate::specs::Clocks::finish_time))]
    pub(crate) fn capped(&self, core: &Core, mv: Move) -> u64
        ensures { result ≡ capped (clocked self.now core.now.state) mv }
    {
        self.reach(mv).saturating_add(self.delay(core, mv))
    }

    /// Records a move that finishes at this time, and takes the word from which its delay was drawn.
    #[inline(always)]
    pub(crate) fn stamp(&mut self, mv: Move, time: u64)
        ensures { self.new ≡ stamped self.old mv time }
    {
        self.allow(time);
        self.put(mv, time);
        self.draw(mv);
    }

    /// Takes the next word of the move's stream.
    #[inline(always)]
    fn draw(&mut self, mv: Move)
        ensures { self.new ≡ drawing self.old mv }
    {
        self.draws.take_word(mv);
    }

    /// Raises the maximum time to this one, if it is later.
    #[inline(always)]
    fn allow(&mut self, time: u64)
        ensures { self.new ≡ allowed self.old time }
    {
        if self.latest < time {
            self.latest = time;
        }
    }

    /// When the move finishes if it is made now: the maximum time of the sites that it uses, plus its delay. The layout
    /// has each stage and each cell that the move uses.
    #[tactic(auto, using(crate::proofs::SiteTimes::reach_within), unfolding(crate::specs::Clocks::finish_time))]
    pub fn finish(&self, core: &Core, mv: Move) -> u64
        requires sites { HasSites self.now.plan mv }
        requires early { self.now.latest < 2 ^ 62 }
        ensures { result ≡ finish_time (clocked self.now core.now.state) mv }
    {
        let _latest = self.greatest();
        self.reach(mv) + self.delay(core, mv)
    }

    /// Records a move that is made now. The layout has each stage and each cell that it uses.
    #[tactic(auto, unfolding(crate::specs::Clocks::made))]
    pub fn made(&mut self, core: &Core, mv: Move)
        requires sites { HasSites self.old.plan mv }
        requires early { self.old.latest < 2 ^ 62 }
        ensures { self.new ≡ made (clocked self.old core.now.state) mv }
    {
        let time = self.finish(core, mv);
        self.stamp(mv, time);
    }
}
