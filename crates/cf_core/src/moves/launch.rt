//! Launch: the instruction of a stage sends its operation into the siding of its class.

ghost use Rattle.std.specs.Prelude.{◌≡◌, ◌==◌, ◌<◌, ◌&&◌, length, not, Some, ◌≤◌, None};
ghost use Rattle.cf_bind.specs.declared.moves.Move.TheVariants as mv;
ghost use Rattle.cf_layout.specs.Layout.{siding_of};
ghost use Rattle.cf_semantics.specs.moves.Bars.{entry_bar as bar_of_entry, row_bar, entry_bar};
ghost use Rattle.cf_semantics.specs.moves.Instructions.{is_memory as loads_or_stores};
ghost use Rattle.cf_semantics.specs.state.Options.{is_some};
ghost use Rattle.cf_semantics.specs.state.Passengers.{kind as kind_of_passenger};
ghost use Rattle.cf_stages.specs.Changes.{is_full_at};
ghost use Rattle.cf_core.specs.Marks.{row_allows};
ghost use Rattle.cf_core.specs.Processors.{IsProcessor, after_move};
ghost use Rattle.cf_core.specs.Riders.{is_undone as is_not_done, StandsBeside};
ghost use Rattle.cf_core.specs.Stations.{AreSidingStages};

use crate::processor::Processor;
use crate::riding::{has_sources, is_undone};
use crate::rows::first_of;
use crate::siding_ends::is_memory;
use crate::stations::SidingStages;
use cf_bind::{Bar, Passenger};
use cf_passengers::{first_missing, kind, launch_trap, launches, operation, trap};
use rv_inst::Class;

/// Whether the siding launches from this stage, and the instruction is yet to be launched.
#[inline(always)]
pub(crate) fn is_to_launch(passenger: &Passenger, site: SidingStages, i: u32) -> bool
    ensures { result ≡ (is_not_done passenger.now && (not passenger.now.launched && (site.launch == i))) }
{
    is_undone(passenger) && !passenger.launched && site.launch == i
}

impl Processor {
    /// The last test in the row of Launch: whether the first cell of the siding is free.
    #[inline(always)]
    #[tactic(auto, using(crate::proofs::Ported::ported))]
    fn entry_bar(&self, passenger: &Passenger) -> Option<Bar>
        requires { IsProcessor self.now.plan self.now.state }
        ensures { result ≡ bar_of_entry self.now.plan self.now.state passenger.now }
    {
        let Some(k) = self.layout.siding_of(kind(passenger)) else {
            return None;
        };
        first_of(&[(self.sidings.cell(k, 0).is_some(), Bar::Occupied)])
    }

    /// The first bar of Launch from this stage.
    #[inline(never)]
    pub(crate) fn launch_bar(&self, i: u32) -> Option<Bar>
        requires { IsProcessor self.now.plan self.now.state }
        ensures { result ≡ row_bar self.now.plan self.now.state (mv.Launch i) }
    {
        if i == 0 || self.stages.count() < i {
            return Some(Bar::NoSuchSite);
        }
        let Some(passenger) = self.stages.cell(i).passenger else {
            return Some(Bar::NoPassenger);
        };
        let class = kind(&passenger);
        let bar = first_of(&[
            (passenger.dead, Bar::Dead),
            (passenger.done || passenger.launched, Bar::AlreadyDone),
            (!launches(&self.layout, class, i), Bar::NoUnit),
            (is_memory(class) && self.stages.is_full(i), Bar::NotMet),
        ]);
        if bar.is_some() {
            return bar;
        }
        if let Some(register) = first_missing(&passenger) {
            return Some(Bar::SourceMissing(register));
        }
        self.entry_bar(&passenger)
    }

    /// Whether the first cell of the siding is free.
    #[inline(always)]
    #[tactic(auto, using(crate::proofs::Ported::ported))]
    fn has_room(&self, passenger: &Passenger, k: u32) -> bool
        requires facts { IsProcessor self.now.plan self.now.state }
        requires siding { siding_of self.now.plan (kind_of_passenger passenger.now) ≡ Some k }
        requires inside { k < length self.now.plan.sidings }
        ensures { result ≡ not (is_some (entry_bar self.now.plan self.now.state passenger.now)) }
    {
        self.sidings.cell(k, 0).is_none()
    }

    /// Whether the instruction is a load or a store, and is yet to meet the result of the stage.
    #[inline(always)]
    fn has_to_meet(&self, class: Class, i: u32) -> bool
        requires above { 0 < i }
        requires within { i ≤ length self.now.state.cells }
        ensures { result ≡ (loads_or_stores class && is_full_at self.now.state.cells i) }
    {
        is_memory(class) && self.stages.is_full(i)
    }

    /// Whether no test in the row of Launch holds. The siding is that of the class of the instruction.
    #[inline(always)]
    #[tactic(auto, using(crate::proofs::Rides::launch_free))]
    pub(crate) fn launches(
        &self,
        passenger: &Passenger,
        class: Class,
        site: SidingStages,
        i: u32,
    ) -> bool
        requires facts { IsProcessor self.now.plan self.now.state }
        requires stands { StandsBeside self.now.plan self.now.state passenger.now class site.number i }
        requires site { AreSidingStages self.now.plan class site }
        ensures { result ≡ row_allows self.now.plan self.now.state (mv.Launch i) }
    {
        is_to_launch(passenger, site, i)
            && !self.has_to_meet(class, i)
            && has_sources(passenger)
            && self.has_room(passenger, site.number)
    }

    /// The instruction of the stage launches its operation. A load or a store that memory does not permit
    /// traps instead.
    #[inline(never)]
    #[tactic(auto, using(crate::proofs::moves::Entering::entering), unfolding(cf_semantics::specs::moves::Moves::moved))]
    pub(crate) fn launch(&mut self, i: u32)
        requires facts { IsProcessor self.old.plan self.old.state }
        requires allowed { row_bar self.old.plan self.old.state (mv.Launch i) ≡ None }
        ensures { self.new ≡ after_move self.old (mv.Launch i) }
    {
        if let Some(passenger) = self.stages.passenger(i) {
            if let Some(end) = launch_trap(passenger, &self.memory) {
                trap(self.stages.passenger_mut(i), end);
            } else if let Some(k) = self.layout.siding_of(kind(passenger)) {
                self.sidings.launch(k, operation(passenger));
                self.stages.passenger_mut(i).launched = true;
            }
        }
    }
}
