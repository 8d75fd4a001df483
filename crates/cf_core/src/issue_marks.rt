//! The marks of the lowest stage once an instruction has been issued. Nothing was marked there before, and the instruction owes
//! nothing and has launched nothing.

ghost use Rattle.std.specs.Prelude.{◌≡◌, None, Some, true};
ghost use Rattle.cf_layout.specs.Layout.{siding_of};
ghost use Rattle.cf_semantics.specs.state.Passengers.{kind as kind_of_passenger};
ghost use Rattle.cf_stages.specs.Changes.{passenger_at};
ghost use Rattle.cf_core.specs.Marks.{mark_at, marked, no_mark};
ghost use Rattle.cf_core.specs.Masks.{rides};
ghost use Rattle.cf_core.specs.Processors.{IsProcessor};
ghost use Rattle.cf_core.specs.Riders.{StandsBeside, is_new, is_undone as is_not_done};
ghost use Rattle.cf_core.specs.Stations.{AreSidingStages, station_of};

use crate::marks::{Marks, laid};
use crate::processor::Processor;
use crate::riding::is_undone;
use crate::stations::{SidingStages, Station};
use cf_bind::Passenger;
use cf_passengers::kind;
use rv_inst::Class;

impl Processor {
    /// Marks the lowest stage, whose new instruction is of a class without a siding, is live and was not executed.
    #[inline(always)]
    #[tactic(auto, using(crate::proofs::IssueMarks::issued_units, crate::proofs::Tabled::fields))]
    fn mark_issued_units(&self, marks: &mut Marks, passenger: &Passenger, station: &Station)
        requires facts { IsProcessor self.now.plan self.now.state }
        requires here { passenger_at self.now.state.cells 1 ≡ Some passenger.now }
        requires station { station.now ≡ station_of self.now.plan (kind_of_passenger passenger.now) }
        requires units { siding_of self.now.plan (kind_of_passenger passenger.now) ≡ None }
        requires undone { is_not_done passenger.now ≡ true }
        requires new { is_new passenger.now ≡ true }
        requires unmarked { marked marks.old 1 no_mark ≡ marks.old }
        ensures { marks.new ≡ marked marks.old 1 (mark_at self.now.plan self.now.state 1) }
    {
        self.know_stages();
        let executes = self.executes(passenger, true, station.units, 1);
        marks.stops = laid(marks.stops, 1, station.last == 1);
        marks.execute = laid(marks.execute, 1, executes);
    }

    /// Marks the lowest stage, whose new instruction is of a class with this siding.
    #[inline(always)]
    fn mark_issued_beside(
        &self,
        marks: &mut Marks,
        passenger: &Passenger,
        class: Class,
        site: &SidingStages,
    )
        requires facts { IsProcessor self.now.plan self.now.state }
        requires stands { StandsBeside self.now.plan self.now.state passenger.now class site.now.number 1 }
        requires site { AreSidingStages self.now.plan class site.now }
        requires new { is_new passenger.now ≡ true }
        requires unmarked { marked marks.old 1 no_mark ≡ marks.old }
        ensures { marks.new ≡ marked marks.old 1 (mark_at self.now.plan self.now.state 1) }
    {
        if site.launch == 1 {
            self.mark_beside(marks, passenger, class, site, 1);
        }
    }

    /// Marks the lowest stage, whose new instruction is live and was not executed.
    #[inline(always)]
    #[tactic(auto, using(crate::proofs::Tabled::sites))]
    fn mark_issued_undone(&self, marks: &mut Marks, passenger: &Passenger)
        requires facts { IsProcessor self.now.plan self.now.state }
        requires here { passenger_at self.now.state.cells 1 ≡ Some passenger.now }
        requires undone { is_not_done passenger.now ≡ true }
        requires new { is_new passenger.now ≡ true }
        requires unmarked { marked marks.old 1 no_mark ≡ marks.old }
        ensures { marks.new ≡ marked marks.old 1 (mark_at self.now.plan self.now.state 1) }
    {
        let class = kind(passenger);
        let station = self.station(class);
        match &station.siding {
            Some(site) => self.mark_issued_beside(marks, passenger, class, site),
            None => self.mark_issued_units(marks, passenger, station),
        }
    }

    /// Marks the lowest stage, where an instruction has been issued.
    #[inline(always)]
    #[tactic(auto, using(crate::proofs::IssueMarks::new_idle))]
    pub(crate) fn mark_issued(&self, marks: &mut Marks)
        requires facts { IsProcessor self.now.plan self.now.state }
        requires new { rides self.now.state 1 is_new ≡ true }
        requires unmarked { marked marks.old 1 no_mark ≡ marks.old }
        ensures { marks.new ≡ marked marks.old 1 (mark_at self.now.plan self.now.state 1) }
    {
        self.know_stages();
        let Some(passenger) = self.stages.passenger(1) else {
            unreachable!();
        };
        if is_undone(passenger) {
            self.mark_issued_undone(marks, passenger);
        }
    }
}
