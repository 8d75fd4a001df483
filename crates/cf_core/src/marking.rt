//! The marks of a stage, by what is there now.

ghost use Rattle.std.specs.Prelude.{◌≡◌, None, Some, ◌<◌, ◌≤◌, IsSome, true};
ghost use Rattle.cf_layout.specs.Layout.{siding_of};
ghost use Rattle.cf_semantics.specs.state.Passengers.{kind as kind_of_passenger};
ghost use Rattle.cf_stages.specs.Changes.{passenger_at};
ghost use Rattle.cf_core.specs.Marks.{mark_at, marked, met_marks, readied, resting, Within, remarked as remarked_by};
ghost use Rattle.cf_core.specs.Processors.{IsProcessor};
ghost use Rattle.cf_core.specs.Riders.{StandsBeside, is_idle, is_undone as is_not_done};
ghost use Rattle.cf_core.specs.Stations.{AreSidingStages, station_of};

use crate::marks::{Marks, StageMark, laid};
use crate::processor::Processor;
use crate::riding::{is_idle, is_undone};
use crate::stations::{SidingStages, Station};
use crate::touching::Touched;
use cf_bind::Passenger;
use cf_passengers::kind;
use rv_inst::Class;

impl Processor {
    /// The marks of the stage, whose instruction is of a class without a siding, given whether it is live and was not executed.
    #[inline(always)]
    #[tactic(auto, using(crate::proofs::Rides::units, crate::proofs::Tabled::fields), unfolding(crate::specs::Marks::mark_at))]
    fn mark_at_units(
        &self,
        passenger: &Passenger,
        station: &Station,
        undone: bool,
        i: u32,
    ) -> StageMark
        requires above { 0 < i }
        requires within { i ≤ self.now.plan.stages }
        requires here { passenger_at self.now.state.cells i ≡ Some passenger.now }
        requires station { station.now ≡ station_of self.now.plan (kind_of_passenger passenger.now) }
        requires units { siding_of self.now.plan (kind_of_passenger passenger.now) ≡ None }
        requires undone { undone ≡ is_not_done passenger.now }
        ensures { result ≡ mark_at self.now.plan self.now.state i }
    {
        StageMark {
            owes: passenger.owes.is_some(),
            stops: self.stops_at_units(passenger, undone, station.last, i),
            execute: self.executes(passenger, undone, station.units, i),
            launch: false,
            recover: false,
        }
    }

    /// The marks of the stage, whose instruction is of a class with this siding.
    #[inline(always)]
    #[tactic(auto, using(crate::proofs::Rides::owed, crate::proofs::Tabled::fields), unfolding(crate::specs::Marks::mark_at))]
    fn mark_at_siding(
        &self,
        passenger: &Passenger,
        class: Class,
        site: SidingStages,
        i: u32,
    ) -> StageMark
        requires facts { IsProcessor self.now.plan self.now.state }
        requires stands { StandsBeside self.now.plan self.now.state passenger.now class site.number i }
        requires site { AreSidingStages self.now.plan class site }
        ensures { result ≡ mark_at self.now.plan self.now.state i }
    {
        let undone = is_undone(passenger);
        StageMark {
            owes: passenger.owes.is_some(),
            stops: self.stops_at_siding(passenger, site, i),
            execute: self.executes(passenger, undone, self.station(class).units, i),
            launch: self.launches(passenger, class, site, i),
            recover: self.recovers(passenger, class, site, i),
        }
    }

    /// Brings the marks of this stage up to date, where this instruction, of a class with this siding, is.
    // It stays a call: most instructions are of a class without a siding, and what is done for those needs few registers.
    #[inline(never)]
    pub(crate) fn mark_beside(
        &self,
        marks: &mut Marks,
        passenger: &Passenger,
        class: Class,
        site: &SidingStages,
        i: u32,
    )
        requires facts { IsProcessor self.now.plan self.now.state }
        requires stands { StandsBeside self.now.plan self.now.state passenger.now class site.now.number i }
        requires site { AreSidingStages self.now.plan class site.now }
        ensures { marks.new ≡ marked marks.old i (mark_at self.now.plan self.now.state i) }
    {
        self.know_stages();
        let mark = self.mark_at_siding(passenger, class, *site, i);
        marks.set(i, mark);
    }

    /// Brings the marks of this stage, where this instruction is, up to date, given whether it is live and was not executed.
    #[inline(always)]
    #[tactic(auto, using(crate::proofs::Tabled::sites))]
    fn mark_rider(&self, marks: &mut Marks, passenger: &Passenger, undone: bool, i: u32)
        requires above { 0 < i }
        requires within { i ≤ self.now.plan.stages }
        requires facts { IsProcessor self.now.plan self.now.state }
        requires here { passenger_at self.now.state.cells i ≡ Some passenger.now }
        requires undone { undone ≡ is_not_done passenger.now }
        ensures { marks.new ≡ marked marks.old i (mark_at self.now.plan self.now.state i) }
    {
        self.know_stages();
        let class = kind(passenger);
        let station = self.station(class);
        match &station.siding {
            Some(site) => self.mark_beside(marks, passenger, class, site, i),
            None => marks.set(i, self.mark_at_units(passenger, station, undone, i)),
        }
    }

    /// The same for one that is live and was not executed.
    // It stays a call: with it a move would be too large to become a part of the loop of a run.
    #[inline(never)]
    fn mark_undone(&self, marks: &mut Marks, passenger: &Passenger, i: u32)
        requires above { 0 < i }
        requires within { i ≤ self.now.plan.stages }
        requires facts { IsProcessor self.now.plan self.now.state }
        requires here { passenger_at self.now.state.cells i ≡ Some passenger.now }
        requires undone { is_not_done passenger.now ≡ true }
        ensures { marks.new ≡ marked marks.old i (mark_at self.now.plan self.now.state i) }
    {
        self.mark_rider(marks, passenger, true, i);
    }

    /// The same for any, also for one that is dead while its operation has not come back.
    #[inline(never)]
    fn mark_any(&self, marks: &mut Marks, passenger: &Passenger, i: u32)
        requires above { 0 < i }
        requires within { i ≤ self.now.plan.stages }
        requires facts { IsProcessor self.now.plan self.now.state }
        requires here { passenger_at self.now.state.cells i ≡ Some passenger.now }
        ensures { marks.new ≡ marked marks.old i (mark_at self.now.plan self.now.state i) }
    {
        self.mark_rider(marks, passenger, is_undone(passenger), i);
    }

    /// The marks of a stage whose instruction waits for no unit and for no siding.
    #[inline(always)]
    #[tactic(auto, using(crate::proofs::Rides::idle, crate::proofs::Rides::owed))]
    fn mark_idle(&self, passenger: &Passenger, i: u32) -> StageMark
        requires here { passenger_at self.now.state.cells i ≡ Some passenger.now }
        requires idle { is_idle passenger.now ≡ true }
        ensures { result ≡ mark_at self.now.plan self.now.state i }
    {
        StageMark {
            owes: passenger.owes.is_some(),
            ..StageMark::of_none()
        }
    }

    /// Replaces the marks of this stage by those of one in which nothing is left to do but to send what its instruction owes.
    #[inline(always)]
    pub(crate) fn mark_resting(&self, marks: &mut Marks, i: u32)
        requires above { 0 < i }
        requires within { i ≤ self.now.plan.stages }
        requires facts { IsProcessor self.now.plan self.now.state }
        ensures { marks.new ≡ marked marks.old i (resting self.now.state i) }
    {
        self.know_stages();
        let owes = match self.stages.passenger(i) {
            Some(passenger) => passenger.owes.is_some(),
            None => false,
        };
        marks.set(
            i,
            StageMark {
                owes,
                ..StageMark::of_none()
            },
        );
    }

    /// Brings the marks of this stage up to date.
    #[inline(always)]
    #[tactic(auto, using(crate::proofs::Rides::mark_none))]
    pub(crate) fn mark_stage(&self, marks: &mut Marks, i: u32)
        requires above { 0 < i }
        requires within { i ≤ self.now.plan.stages }
        requires facts { IsProcessor self.now.plan self.now.state }
        ensures { marks.new ≡ marked marks.old i (mark_at self.now.plan self.now.state i) }
    {
        self.know_stages();
        match self.stages.passenger(i) {
            Some(passenger) if is_undone(passenger) => self.mark_undone(marks, passenger, i),
            Some(passenger) if is_idle(passenger) => marks.set(i, self.mark_idle(passenger, i)),
            Some(passenger) => self.mark_any(marks, passenger, i),
            None => marks.set(i, StageMark::of_none()),
        }
    }

    /// Brings up to date whether the instruction of the stage can be executed or launched.
    #[inline(always)]
    fn mark_ready(&self, marks: &mut Marks, passenger: &Passenger, i: u32)
        requires above { 0 < i }
        requires within { i ≤ self.now.plan.stages }
        requires facts { IsProcessor self.now.plan self.now.state }
        requires here { passenger_at self.now.state.cells i ≡ Some passenger.now }
        ensures { marks.new ≡ readied self.now.plan self.now.state marks.old i }
    {
        self.know_stages();
        let class = kind(passenger);
        let station = self.station(class);
        match &station.siding {
            Some(site) => {
                marks.execute = laid(marks.execute, i, false);
                marks.launch = laid(marks.launch, i, self.launches(passenger, class, *site, i));
            }
            None => {
                let executes = self.executes(passenger, is_undone(passenger), station.units, i);
                marks.execute = laid(marks.execute, i, executes);
                marks.launch = laid(marks.launch, i, false);
            }
        }
    }

    /// Brings the marks of this stage up to date after its instruction has met a result: unless it is dead now, only whether
    /// it can be executed or launched.
    // It stays a call: most meetings leave the marks as they are.
    #[inline(never)]
    pub(crate) fn mark_met(&self, marks: &mut Marks, i: u32)
        requires above { 0 < i }
        requires within { i ≤ self.now.plan.stages }
        requires facts { IsProcessor self.now.plan self.now.state }
        requires here { IsSome (passenger_at self.now.state.cells i) }
        ensures { marks.new ≡ met_marks self.now.plan self.now.state marks.old i }
    {
        self.know_stages();
        match self.stages.passenger(i) {
            Some(passenger) if passenger.dead => self.mark_stage(marks, i),
            Some(passenger) => self.mark_ready(marks, passenger, i),
            None => unreachable!(),
        }
    }

    /// Brings the marks of the two stages up to date.
    #[inline(always)]
    #[tactic(auto, using(crate::proofs::Bits::marked_once))]
    pub(crate) fn remark(&self, marks: &mut Marks, touched: Touched)
        requires within { Within self.now.plan touched }
        requires facts { IsProcessor self.now.plan self.now.state }
        ensures { marks.new ≡ remarked_by self.now.plan self.now.state marks.old touched }
    {
        self.mark_stage(marks, touched.low);
        if touched.low != touched.high {
            self.mark_stage(marks, touched.high);
        }
    }
}
