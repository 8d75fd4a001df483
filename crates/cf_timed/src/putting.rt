//! Setting the times of the sites that a move uses.

ghost use Rattle.std.specs.Prelude.{◌≡◌, ◌+◌, ◌-◌, ◌≤◌, if◌then◌else◌, slice_set};
ghost use Rattle.cf_semantics.specs.moves.Sites.{Code, Fetching, Lane, Memory, SidingCell, Stage};
ghost use Rattle.cf_semantics.specs.state.Layouts.{port as port_of};
ghost use Rattle.cf_index.specs.Sites.{used, way_out, ways_in, ways_out};
ghost use Rattle.cf_timed.specs.Clocks.{put_time, put_times};

use crate::clock::Clock;
use crate::reaching::port;
use cf_bind::Move;

/// Sets the time of a cell of a siding, if it is among the cells.
#[inline(always)]
fn put_in(row: &mut [u64; 8], c: usize, time: u64)
    ensures { row.new ≡ slice_set row.old c time }
{
    if c < 8 {
        row[c] = time;
    }
}

impl Clock {
    /// Sets the time of a stage.
    #[inline(always)]
    fn put_stage(&mut self, i: usize, time: u64)
        requires { time ≤ self.old.latest }
        ensures { self.new ≡ put_time self.old time (Stage i) }
    {
        if i < 34 {
            self.stages[i] = time;
        }
    }

    /// Sets the time of a cell of a siding.
    #[inline(always)]
    #[tactic(auto, using(crate::proofs::SiteTimes::rows))]
    fn put_cell(&mut self, k: usize, c: usize, time: u64)
        requires { time ≤ self.old.latest }
        ensures { self.new ≡ put_time self.old time (SidingCell k c) }
    {
        if k < 8 {
            put_in(&mut self.cells[k], c, time);
        }
    }

    /// Sets the time of a cell of a siding if `taken` is set.
    #[inline(always)]
    fn put_cell_if(&mut self, taken: bool, k: usize, c: usize, time: u64)
        requires { time ≤ self.old.latest }
        ensures { self.new ≡ (if taken then put_time self.old time (SidingCell k c) else self.old) }
    {
        if taken {
            self.put_cell(k, c, time);
        }
    }

    /// Sets the time of the first cells of the sidings that launch at the stage.
    #[inline(always)]
    #[tactic(auto, using(crate::proofs::SiteTimes::put_more, crate::proofs::SiteTimes::put_latest, crate::proofs::SiteTimes::put_same), unfolding(cf_index::specs::Sites::ways_in))]
    fn put_entries(&mut self, i: u32, time: u64)
        requires { time ≤ self.old.latest }
        ensures { self.new ≡ put_times self.old time (ways_in self.old.plan i) }
    {
        for k in 0..self.layout().siding_count() {
            let launches = self.layout().launch_stage(k) == i;
            self.put_cell_if(launches, k as usize, 0, time);
        }
    }

    /// Sets the time of the last cells of the sidings that recover at the stage.
    #[inline(always)]
    #[tactic(auto, using(crate::proofs::SiteTimes::put_more, crate::proofs::SiteTimes::put_latest, crate::proofs::SiteTimes::put_same), unfolding(cf_index::specs::Sites::ways_out))]
    fn put_exits(&mut self, i: u32, time: u64)
        requires { time ≤ self.old.latest }
        ensures { self.new ≡ put_times self.old time (ways_out self.old.plan i) }
    {
        for k in 0..self.layout().siding_count() {
            let recovers = self.layout().recover_stage(k) == i;
            let last = self.layout().cells_of(k).saturating_sub(1);
            self.put_cell_if(recovers, k as usize, last as usize, time);
        }
    }

    /// Sets the time of the port to memory.
    #[inline(always)]
    fn put_port(&mut self, time: u64)
        requires { time ≤ self.old.latest }
        ensures { self.new ≡ put_time self.old time (way_out self.old.plan (port_of self.old.plan)) }
    {
        let (k, c) = port(self.layout());
        self.put_cell(k, c, time);
    }

    /// Sets the time of the lane.
    #[inline(always)]
    fn put_lane(&mut self, time: u64)
        requires { time ≤ self.old.latest }
        ensures { self.new ≡ put_time self.old time Lane }
    {
        self.lane = time;
    }

    /// Sets the time of fetch.
    #[inline(always)]
    fn put_fetch(&mut self, time: u64)
        requires { time ≤ self.old.latest }
        ensures { self.new ≡ put_time self.old time Fetching }
    {
        self.fetch = time;
    }

    /// Sets the time of the memory.
    #[inline(always)]
    fn put_memory(&mut self, time: u64)
        requires { time ≤ self.old.latest }
        ensures { self.new ≡ put_time self.old time Memory }
    {
        self.memory = time;
    }

    /// Sets the time of the code.
    #[inline(always)]
    fn put_code(&mut self, time: u64)
        requires { time ≤ self.old.latest }
        ensures { self.new ≡ put_time self.old time Code }
    {
        self.code = time;
    }

    /// Sets the time of each site that the move uses.
    #[inline(always)]
    pub(crate) fn put(&mut self, mv: Move, time: u64)
        requires { time ≤ self.old.latest }
        ensures { self.new ≡ put_times self.old time (used self.old.plan mv) }
    {
        let top = self.layout().stages() as usize;
        match mv {
            Move::Issue(_) => {
                self.put_stage(1, time);
                self.put_lane(time);
                self.put_fetch(time);
                self.put_code(time);
            }
            Move::Emit => {
                self.put_stage(top, time);
                self.put_lane(time);
            }
            Move::Climb(i) => {
                self.put_stage(i as usize, time);
                self.put_stage(i as usize + 1, time);
            }
            Move::Fall(i) => {
                self.put_stage(i as usize, time);
                self.put_stage(i.saturating_sub(1) as usize, time);
            }
            Move::Meet(i) | Move::Execute(i) | Move::Send(i) => self.put_stage(i as usize, time),
            Move::Launch(i) => {
                self.put_stage(i as usize, time);
                self.put_entries(i, time);
            }
            Move::Slide(k, c) => {
                self.put_cell(k as usize, c as usize, time);
                self.put_cell(k as usize, c as usize + 1, time);
            }
            Move::Access => {
                self.put_port(time);
                self.put_memory(time);
            }
            Move::Recover(i) => {
                self.put_stage(i as usize, time);
                self.put_exits(i, time);
            }
            Move::Leave => self.put_stage(top, time),
            Move::Exit => {
                self.put_stage(1, time);
                self.put_fetch(time);
            }
            Move::Serve => {
                self.put_stage(top, time);
                self.put_memory(time);
                self.put_code(time);
            }
        }
    }
}
