//! An instruction climbs on: all its moves up to the stage at which it is blocked, made at once.

ghost use Rattle.std.specs.Prelude.{◌≡◌, ◌-◌, ◌<◌, ◌≤◌, IsNone, IsSome, None, Some};
ghost use Rattle.cf_bind.specs.declared.moves.Move.TheVariants as mv;
ghost use Rattle.cf_layout.specs.Layout.{last_stage, siding_of};
ghost use Rattle.cf_semantics.specs.moves.Bars.{bar as first_bar, stops_at};
ghost use Rattle.cf_semantics.specs.state.Options.{on};
ghost use Rattle.cf_semantics.specs.state.Passengers.{kind as kind_of_passenger};
ghost use Rattle.cf_stages.specs.Changes.{cells_lifted, passenger_at};
ghost use Rattle.cf_stages.specs.Words.{word_of};
ghost use Rattle.cf_core.specs.Climbing.{ClimbsTo, IsFirstBlock, climbed, is_blocked_at, work_of};
ghost use Rattle.cf_core.specs.Places.{with_cells};
ghost use Rattle.cf_core.specs.Processors.{IsProcessor};
ghost use Rattle.cf_core.specs.Stations.{AreSidingStages};

use crate::counterflow::Core;
use crate::processor::Processor;
use crate::riding::{is_idle, is_out, is_undone};
use crate::stations::SidingStages;
use cf_bind::Passenger;
use cf_passengers::kind;
use cf_stages::with_bit;
use rv_inst::Class;

impl Processor {
    /// The stage at which the instruction must not climb on, because its siding recovers or launches there: bit i - 1 for stage i.
    #[inline(always)]
    #[tactic(auto, using(crate::proofs::Blocks::sides))]
    fn siding_stops(&self, passenger: &Passenger, site: SidingStages) -> u32
        requires site { AreSidingStages self.now.plan (kind_of_passenger passenger.now) site }
        ensures { result ≡ word_of (stops_at self.now.plan passenger.now) self.now.plan.stages }
    {
        self.know_stages();
        if is_out(passenger) {
            with_bit(0, site.recover, true)
        } else {
            with_bit(0, site.launch, is_undone(passenger) && !passenger.launched)
        }
    }

    /// The stage at which the instruction must not climb on, because it is the last with a unit of its class: bit i - 1 for
    /// stage i. Its class has no siding.
    #[inline(always)]
    #[tactic(auto, using(crate::proofs::Blocks::lasts))]
    fn unit_stops(&self, passenger: &Passenger, last: u32) -> u32
        requires units { siding_of self.now.plan (kind_of_passenger passenger.now) ≡ None }
        requires last { last ≡ last_stage self.now.plan (kind_of_passenger passenger.now) }
        ensures { result ≡ word_of (stops_at self.now.plan passenger.now) self.now.plan.stages }
    {
        self.know_stages();
        with_bit(0, last, is_undone(passenger) && !passenger.launched)
    }

    /// The class of the instruction of the stage, if a unit or a siding has still something to do with it.
    #[inline(always)]
    pub(crate) fn work_at(&self, i: u32) -> Option<Class>
        requires { IsSome (passenger_at self.now.state.cells i) }
        ensures { result ≡ on (passenger_at self.now.state.cells i) None work_of }
    {
        let passenger = self.stages.passenger_there(i);
        if is_idle(passenger) {
            None
        } else {
            Some(kind(passenger))
        }
    }

    /// The stages at which an instruction of this class must not climb on, by what it has still to do: bit i - 1 for stage i.
    #[inline(always)]
    #[tactic(auto, using(crate::proofs::Tabled::sites, crate::proofs::Tabled::fields))]
    fn class_stops(&self, passenger: &Passenger, class: Class) -> u32
        requires { class ≡ kind_of_passenger passenger.now }
        ensures { result ≡ word_of (stops_at self.now.plan passenger.now) self.now.plan.stages }
    {
        let station = self.station(class);
        match station.siding {
            Some(site) => self.siding_stops(passenger, site),
            None => self.unit_stops(passenger, station.last),
        }
    }

    /// The same, given whether it has still anything to do.
    #[inline(always)]
    #[tactic(auto, using(crate::proofs::Blocks::working))]
    fn stops_of(&self, passenger: &Passenger, work: Option<Class>) -> u32
        requires { work ≡ work_of passenger.now }
        ensures { result ≡ word_of (stops_at self.now.plan passenger.now) self.now.plan.stages }
    {
        match work {
            Some(class) => self.class_stops(passenger, class),
            None => 0,
        }
    }

    /// The stages at which the instruction is blocked, were it there: bit i - 1 for stage i.
    #[inline(always)]
    fn blocks(&self, passenger: &Passenger, work: Option<Class>) -> u32
        requires facts { IsProcessor self.now.plan self.now.state }
        requires work { work ≡ work_of passenger.now }
        ensures { result ≡ word_of (is_blocked_at self.now.plan self.now.state passenger.now) self.now.plan.stages }
    {
        self.know_stages();
        let below_another = self.stages.passengers() >> 1;
        let highest = with_bit(0, self.stages.count(), true);
        self.stages.packets() | below_another | highest | self.stops_of(passenger, work)
    }

    /// The first stage above this one at which the instruction is blocked.
    #[inline(always)]
    #[tactic(auto, using(crate::proofs::Blocks::blocking))]
    fn first_block(&self, passenger: &Passenger, work: Option<Class>, i: u32) -> u32
        requires facts { IsProcessor self.now.plan self.now.state }
        requires work { work ≡ work_of passenger.now }
        requires below { i < self.now.plan.stages }
        ensures { IsFirstBlock self.now.plan self.now.state passenger.now i result }
    {
        self.know_stages();
        i + 1 + (self.blocks(passenger, work) >> i).trailing_zeros()
    }

    /// The stage that the instruction of stage i comes to if it climbs as far as it can.
    #[inline(always)]
    fn reach(&self, i: u32, work: Option<Class>) -> u32
        requires facts { IsProcessor self.now.plan self.now.state }
        requires allowed { first_bar self.now.plan self.now.state (mv.Climb i) ≡ None }
        requires work { work ≡ on (passenger_at self.now.state.cells i) None work_of }
        ensures above { 0 < i }
        ensures order { i < result }
        ensures within { result ≤ self.now.plan.stages }
        ensures there { IsSome (passenger_at self.now.state.cells i) }
        ensures room { IsNone (passenger_at self.now.state.cells result) }
        ensures climbs { ClimbsTo self.now i result }
        ensures cells { climbed self.now i (result - i) ≡ with_cells self.now (cells_lifted self.now.state.cells i result) }
    {
        let passenger = self.stages.passenger_there(i);
        self.first_block(passenger, work, i)
    }

    /// Lets the instruction of the stage climb as far as it can, and answers the stage that it comes to.
    // Nothing is in the stages between, so that they are as they were once it has passed them.
    #[inline(always)]
    fn climb_on(&mut self, i: u32, work: Option<Class>) -> u32
        requires facts { IsProcessor self.old.plan self.old.state }
        requires allowed { first_bar self.old.plan self.old.state (mv.Climb i) ≡ None }
        requires work { work ≡ on (passenger_at self.old.state.cells i) None work_of }
        ensures above { 0 < i }
        ensures within { result ≤ self.old.plan.stages }
        ensures room { IsNone (passenger_at self.old.state.cells result) }
        ensures climbs { ClimbsTo self.old i result }
        ensures cells { self.new ≡ with_cells self.old (cells_lifted self.old.state.cells i result) }
        ensures processor { self.new ≡ climbed self.old i (result - i) }
    {
        let to = self.reach(i, work);
        self.stages.lift(i, to);
        to
    }
}

impl Core {
    /// Lets the instruction of the stage climb on, move after move, as far as it can, and answers the stage that it comes to.
    #[inline(always)]
    pub fn climb_on(&mut self, i: u32) -> u32
        requires { first_bar self.old.plan self.old.state (mv.Climb i) ≡ None }
        ensures climbs { ClimbsTo self.old i result }
        ensures processor { self.new ≡ climbed self.old i (result - i) }
    {
        let work = self.processor.work_at(i);
        let to = self.processor.climb_on(i, work);
        match work {
            Some(class) => self.processor.remark_climb(&mut self.marks, class, i, to),
            None => return to,
        }
        to
    }
}
