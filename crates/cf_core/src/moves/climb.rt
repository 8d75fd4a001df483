//! Climb: the instruction of a stage moves one stage up.

ghost use Rattle.std.specs.Prelude.{◌≡◌, None, Some};
ghost use Rattle.cf_bind.specs.declared.moves.Move.TheVariants as mv;
ghost use Rattle.cf_layout.specs.Layout.{last_stage, siding_of};
ghost use Rattle.cf_semantics.specs.moves.Bars.{row_bar};
ghost use Rattle.cf_semantics.specs.state.Passengers.{kind as kind_of_passenger};
ghost use Rattle.cf_stages.specs.Changes.{passenger_at};
ghost use Rattle.cf_core.specs.Masks.{stops_there};
ghost use Rattle.cf_core.specs.Processors.{IsProcessor, after_move};
ghost use Rattle.cf_core.specs.Riders.{is_undone as is_not_done};
ghost use Rattle.cf_core.specs.Stations.{AreSidingStages};

use crate::moves::launch::is_to_launch;
use crate::moves::recover::is_to_recover;
use crate::processor::Processor;
use crate::rows::first_of;
use crate::stations::SidingStages;
use cf_bind::{Bar, Passenger};
use cf_passengers::stops_at;

impl Processor {
    /// The first bar of Climb from this stage.
    #[inline(always)]
    pub(crate) fn climb_bar(&self, i: u32) -> Option<Bar>
        requires { IsProcessor self.now.plan self.now.state }
        ensures { result ≡ row_bar self.now.plan self.now.state (mv.Climb i) }
    {
        if i == 0 || self.stages.count() <= i {
            return Some(Bar::NoSuchSite);
        }
        let cell = self.stages.cell(i);
        let Some(passenger) = cell.passenger else {
            return Some(Bar::NoPassenger);
        };
        first_of(&[
            (self.stages.is_full(i), Bar::NotMet),
            (passenger.owes.is_some(), Bar::Owes),
            (stops_at(&self.layout, &passenger, i), Bar::NotDone),
            (self.stages.cell(i + 1).passenger.is_some(), Bar::Occupied),
        ])
    }

    /// Whether the instruction must not climb on yet, because this is the last stage with a unit of its class, given whether it
    /// is live and was not executed. Its class has no siding.
    #[inline(always)]
    #[tactic(auto, using(crate::proofs::Rides::stops_units))]
    pub(crate) fn stops_at_units(
        &self,
        passenger: &Passenger,
        undone: bool,
        last: u32,
        i: u32,
    ) -> bool
        requires here { passenger_at self.now.state.cells i ≡ Some passenger.now }
        requires units { siding_of self.now.plan (kind_of_passenger passenger.now) ≡ None }
        requires last { last ≡ last_stage self.now.plan (kind_of_passenger passenger.now) }
        requires undone { undone ≡ is_not_done passenger.now }
        ensures { result ≡ stops_there self.now.plan self.now.state i }
    {
        undone & !passenger.launched & (last == i)
    }

    /// Whether the instruction must not climb on yet, because its siding launches or recovers here.
    #[inline(always)]
    #[tactic(auto, using(crate::proofs::Rides::stops_siding))]
    pub(crate) fn stops_at_siding(&self, passenger: &Passenger, site: SidingStages, i: u32) -> bool
        requires here { passenger_at self.now.state.cells i ≡ Some passenger.now }
        requires site { AreSidingStages self.now.plan (kind_of_passenger passenger.now) site }
        ensures { result ≡ stops_there self.now.plan self.now.state i }
    {
        is_to_recover(passenger, site, i) || is_to_launch(passenger, site, i)
    }

    /// The instruction of the stage moves one stage up.
    #[inline(always)]
    #[tactic(auto, unfolding(cf_stages::specs::Changes::climbs, cf_stages::specs::Changes::cells_lifted, cf_semantics::specs::moves::Moves::moved))]
    pub(crate) fn climb(&mut self, i: u32)
        requires { row_bar self.old.plan self.old.state (mv.Climb i) ≡ None }
        ensures { self.new ≡ after_move self.old (mv.Climb i) }
    {
        self.stages.climb(i);
    }
}
