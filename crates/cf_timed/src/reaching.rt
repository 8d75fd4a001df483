//! Reading the times of the sites that a move uses.

ghost use Rattle.std.specs.Prelude.{◌≡◌, ◌+◌, ◌-◌, ◌<◌, ◌^◌, if◌then◌else◌, map};
ghost use Rattle.cf_bind.specs.declared.passenger.Guess.TheVariants as guesses;
ghost use Rattle.cf_bind.specs.declared.moves.Move.TheVariants as mv;
ghost use Rattle.cf_semantics.specs.moves.Sites.{SidingCell, Stage};
ghost use Rattle.cf_semantics.specs.state.Layouts.{port as port_of};
ghost use Rattle.cf_index.specs.Sites.{used, way_out, ways_in, ways_out};
ghost use Rattle.cf_timed.specs.Times.{greatest};
ghost use Rattle.cf_timed.specs.Clocks.{AreKept, IsKept, time_at};
ghost use Rattle.cf_timed.specs.Numbers.{number_at};

use crate::clock::Clock;
use cf_bind::Move;
use cf_layout::Layout;
use rv_inst::Class;

/// The numbers of Memory's siding and of its last cell, at which the port to memory is.
#[inline(always)]
#[tactic(auto, unfolding(cf_semantics::specs::state::Layouts::port))]
pub fn port(layout: &Layout) -> (usize, usize)
    ensures cell { SidingCell result.0 result.1 ≡ way_out layout.now (port_of layout.now) }
    ensures siding { result.0 < 2 ^ 32 }
    ensures last { result.1 < 2 ^ 32 }
{
    let _accepted = layout.stages();
    match layout.siding_of(Class::Memory) {
        Some(k) => (k as usize, layout.cells_of(k).saturating_sub(1) as usize),
        None => (0, 0),
    }
}

/// The time at an index of a list, or 0 if the list is shorter.
#[inline(always)]
fn time_in(times: &[u64], i: usize) -> u64
    ensures { result ≡ number_at times.now i }
{
    times.get(i).copied().unwrap_or(0)
}

impl Clock {
    /// The time of a stage.
    #[inline(always)]
    fn stage(&self, i: usize) -> u64
        ensures { result ≡ time_at self.now (Stage i) }
    {
        time_in(&self.stages, i)
    }

    /// The time of a cell of a siding.
    #[inline(always)]
    fn cell(&self, k: usize, c: usize) -> u64
        ensures { result ≡ time_at self.now (SidingCell k c) }
    {
        match self.cells.get(k) {
            Some(row) => time_in(row, c),
            None => 0,
        }
    }

    /// The time of a cell of a siding if `taken` is set, otherwise 0.
    #[inline(always)]
    fn cell_if(&self, taken: bool, k: usize, c: usize) -> u64
        ensures { result ≡ (if taken then time_at self.now (SidingCell k c) else 0) }
    {
        if taken { self.cell(k, c) } else { 0 }
    }

    /// The maximum time of the first cells of the sidings that launch at the stage.
    #[inline(always)]
    #[tactic(auto, using(crate::proofs::SiteTimes::greatest_more), unfolding(cf_index::specs::Sites::ways_in))]
    fn entries(&self, i: u32) -> u64
        ensures { result ≡ greatest (map (time_at self.now) (ways_in self.now.plan i)) }
    {
        let layout = self.layout();
        let mut most = 0u64;
        for k in 0..layout.siding_count() {
            let launches = layout.launch_stage(k) == i;
            most = most.max(self.cell_if(launches, k as usize, 0));
        }
        most
    }

    /// The maximum time of the last cells of the sidings that recover at the stage.
    #[inline(always)]
    #[tactic(auto, using(crate::proofs::SiteTimes::greatest_more), unfolding(cf_index::specs::Sites::ways_out))]
    fn exits(&self, i: u32) -> u64
        ensures { result ≡ greatest (map (time_at self.now) (ways_out self.now.plan i)) }
    {
        let layout = self.layout();
        let mut most = 0u64;
        for k in 0..layout.siding_count() {
            let recovers = layout.recover_stage(k) == i;
            let last = layout.cells_of(k).saturating_sub(1);
            most = most.max(self.cell_if(recovers, k as usize, last as usize));
        }
        most
    }

    /// The time of the port to memory.
    #[inline(always)]
    fn at_port(&self) -> u64
        ensures { result ≡ time_at self.now (way_out self.now.plan (port_of self.now.plan)) }
    {
        let (k, c) = port(self.layout());
        self.cell(k, c)
    }

    /// The maximum time of the sites that an Issue uses, whatever it guesses.
    #[inline(always)]
    pub(crate) fn reach_issue(&self) -> u64
        ensures { result ≡ greatest (map (time_at self.now) (used self.now.plan (mv.Issue guesses.Next))) }
    {
        self.stage(1).max(self.lane).max(self.fetch).max(self.code)
    }

    /// The maximum time of the sites that the move uses.
    #[inline(always)]
    pub(crate) fn reach(&self, mv: Move) -> u64
        ensures { result ≡ greatest (map (time_at self.now) (used self.now.plan mv)) }
    {
        let top = self.layout().stages() as usize;
        match mv {
            Move::Issue(_) => self.reach_issue(),
            Move::Emit => self.stage(top).max(self.lane),
            Move::Climb(i) => self.stage(i as usize).max(self.stage(i as usize + 1)),
            Move::Fall(i) => self
                .stage(i as usize)
                .max(self.stage(i.saturating_sub(1) as usize)),
            Move::Meet(i) | Move::Execute(i) | Move::Send(i) => self.stage(i as usize),
            Move::Launch(i) => self.stage(i as usize).max(self.entries(i)),
            Move::Slide(k, c) => self
                .cell(k as usize, c as usize)
                .max(self.cell(k as usize, c as usize + 1)),
            Move::Access => self.at_port().max(self.memory),
            Move::Recover(i) => self.stage(i as usize).max(self.exits(i)),
            Move::Leave => self.stage(top),
            Move::Exit => self.stage(1).max(self.fetch),
            Move::Serve => self.stage(top).max(self.memory).max(self.code),
        }
    }

    /// The same as `reach` by a call.
    #[inline(never)]
    fn reach_called(&self, mv: &Move) -> u64
        ensures { result ≡ greatest (map (time_at self.now) (used self.now.plan mv.now)) }
    {
        self.reach(*mv)
    }

    /// The time of a stage that the clock keeps.
    #[inline(always)]
    #[tactic(auto, using(crate::proofs::SiteTimes::number_read))]
    fn kept_stage(&self, i: usize) -> u64
        requires { IsKept (Stage i) }
        ensures { result ≡ time_at self.now (Stage i) }
    {
        self.stages[i]
    }

    /// The same as `reach` for a move of whatever kind, if the clock keeps the times of its sites.
    // A loop over moves would first read the times of all sites that it may need; so those of the rarer kinds are read
    // by a call.
    #[inline(always)]
    pub(crate) fn reach_kept(&self, mv: &Move) -> u64
        requires { AreKept self.now.plan mv.now }
        ensures { result ≡ greatest (map (time_at self.now) (used self.now.plan mv.now)) }
    {
        match *mv {
            Move::Climb(i) => self
                .kept_stage(i as usize)
                .max(self.kept_stage(i as usize + 1)),
            Move::Fall(i) => self
                .kept_stage(i as usize)
                .max(self.kept_stage(i.saturating_sub(1) as usize)),
            Move::Meet(i) | Move::Execute(i) | Move::Send(i) => self.kept_stage(i as usize),
            Move::Issue(_)
            | Move::Emit
            | Move::Launch(_)
            | Move::Slide(_, _)
            | Move::Access
            | Move::Recover(_)
            | Move::Leave
            | Move::Exit
            | Move::Serve => self.reach_called(mv),
        }
    }
}
