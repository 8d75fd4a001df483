//! The marks after an instruction that owes nothing has climbed: of most stages that it can come to, little has changed.

ghost use Rattle.std.specs.Prelude.{◌≡◌, None, Some, false, true};
ghost use Rattle.cf_bind.specs.declared.moves.Move.TheVariants as mv;
ghost use Rattle.cf_layout.specs.Layout.{last_stage, siding_of, unit_at};
ghost use Rattle.cf_semantics.specs.state.Options.{on};
ghost use Rattle.cf_semantics.specs.state.Passengers.{kind as kind_of_passenger};
ghost use Rattle.cf_stages.specs.Changes.{passenger_at};
ghost use Rattle.cf_stages.specs.Words.{word_of};
ghost use Rattle.cf_core.specs.Climbing.{HasClimbed};
ghost use Rattle.cf_core.specs.Marks.{row_allows, remarked as remarked_by};
ghost use Rattle.cf_core.specs.Masks.{stops_there};
ghost use Rattle.cf_core.specs.Processors.{IsProcessor};
ghost use Rattle.cf_core.specs.Riders.{StandsBeside};
ghost use Rattle.cf_core.specs.Stations.{AreSidingStages, station_of};

use crate::marks::{Marks, laid};
use crate::processor::Processor;
use crate::riding::is_undone;
use crate::stations::{SidingStages, Station};
use cf_bind::Passenger;
use cf_stages::with_bit;
use rv_inst::Class;

impl Processor {
    /// Brings the marks up to date after the instruction has climbed to stage j, where its operation can be neither launched
    /// nor recovered.
    // In stage i it could at most be executed, since it did not stop there.
    #[inline(always)]
    #[tactic(auto, using(crate::proofs::ClimbMarks::climbing))]
    fn mark_climbed(
        &self,
        marks: &mut Marks,
        passenger: &Passenger,
        units: u32,
        stops: bool,
        i: u32,
        j: u32,
    )
        requires climbed { HasClimbed self.now.plan self.now.state marks.old i j }
        requires here { passenger_at self.now.state.cells j ≡ Some passenger.now }
        requires units { units ≡ word_of (unit_at self.now.plan (kind_of_passenger passenger.now)) self.now.plan.stages }
        requires stops { stops ≡ stops_there self.now.plan self.now.state j }
        requires launch { row_allows self.now.plan self.now.state (mv.Launch j) ≡ false }
        requires recover { row_allows self.now.plan self.now.state (mv.Recover j) ≡ false }
        ensures { marks.new ≡ remarked_by self.now.plan self.now.state marks.old (record { low = i; high = j }) }
    {
        self.know_stages();
        let left = with_bit(marks.execute, i, false);
        marks.stops = laid(marks.stops, j, stops);
        let executes = self.executes(passenger, is_undone(passenger), units, j);
        marks.execute = laid(left, j, executes);
    }

    /// The same where its operation is to be launched or recovered in stage j. Its class has a siding, and so no units.
    // It stays a call: an instruction comes to two such stages at most.
    #[inline(never)]
    fn mark_stopped(
        &self,
        marks: &mut Marks,
        passenger: &Passenger,
        class: Class,
        site: SidingStages,
        i: u32,
        j: u32,
    )
        requires facts { IsProcessor self.now.plan self.now.state }
        requires climbed { HasClimbed self.now.plan self.now.state marks.old i j }
        requires stands { StandsBeside self.now.plan self.now.state passenger.now class site.number j }
        requires site { AreSidingStages self.now.plan class site }
        requires stops { stops_there self.now.plan self.now.state j ≡ true }
        ensures { marks.new ≡ remarked_by self.now.plan self.now.state marks.old (record { low = i; high = j }) }
    {
        self.know_stages();
        marks.stops = laid(marks.stops, j, true);
        marks.execute = with_bit(marks.execute, i, false);
        marks.launch = laid(marks.launch, j, self.launches(passenger, class, site, j));
        marks.recover = laid(marks.recover, j, self.recovers(passenger, class, site, j));
    }

    /// The same for an instruction of a class with this siding.
    #[inline(always)]
    fn mark_siding_climbed(
        &self,
        marks: &mut Marks,
        passenger: &Passenger,
        class: Class,
        site: SidingStages,
        i: u32,
        j: u32,
    )
        requires facts { IsProcessor self.now.plan self.now.state }
        requires climbed { HasClimbed self.now.plan self.now.state marks.old i j }
        requires stands { StandsBeside self.now.plan self.now.state passenger.now class site.number j }
        requires site { AreSidingStages self.now.plan class site }
        ensures { marks.new ≡ remarked_by self.now.plan self.now.state marks.old (record { low = i; high = j }) }
    {
        if self.stops_at_siding(passenger, site, j) {
            self.mark_stopped(marks, passenger, class, site, i, j);
        } else {
            self.know_stages();
            marks.execute = with_bit(marks.execute, i, false);
        }
    }

    /// The same for an instruction of a class without a siding.
    #[inline(always)]
    #[tactic(auto, using(crate::proofs::Rides::units, crate::proofs::Tabled::fields))]
    fn mark_units_climbed(
        &self,
        marks: &mut Marks,
        passenger: &Passenger,
        station: &Station,
        i: u32,
        j: u32,
    )
        requires climbed { HasClimbed self.now.plan self.now.state marks.old i j }
        requires here { passenger_at self.now.state.cells j ≡ Some passenger.now }
        requires station { station.now ≡ station_of self.now.plan (kind_of_passenger passenger.now) }
        requires units { siding_of self.now.plan (kind_of_passenger passenger.now) ≡ None }
        ensures { marks.new ≡ remarked_by self.now.plan self.now.state marks.old (record { low = i; high = j }) }
    {
        let stops = self.stops_at_units(passenger, is_undone(passenger), station.last, j);
        self.mark_climbed(marks, passenger, station.units, stops, i, j);
    }

    /// Brings the marks up to date after an instruction of this class, which owes nothing, has climbed from stage i to stage j.
    #[inline(always)]
    #[tactic(auto, using(crate::proofs::Tabled::sites, crate::proofs::Tabled::fields))]
    pub(crate) fn remark_climb(&self, marks: &mut Marks, class: Class, i: u32, j: u32)
        requires facts { IsProcessor self.now.plan self.now.state }
        requires climbed { HasClimbed self.now.plan self.now.state marks.old i j }
        requires class { on (passenger_at self.now.state.cells j) None (λ p. Some (kind_of_passenger p)) ≡ Some class }
        ensures { marks.new ≡ remarked_by self.now.plan self.now.state marks.old (record { low = i; high = j }) }
    {
        self.know_stages();
        let passenger = self.stages.passenger_there(j);
        let station = self.station(class);
        match station.siding {
            Some(site) => self.mark_siding_climbed(marks, passenger, class, site, i, j),
            None => self.mark_units_climbed(marks, passenger, station, i, j),
        }
    }
}
