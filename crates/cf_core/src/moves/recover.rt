//! Recover: the instruction of a stage takes its operation out of the siding.

ghost use Rattle.std.specs.Prelude.{◌≡◌, ◌==◌, ◌<◌, ◌&&◌, length, not, Some, None};
ghost use Rattle.cf_bind.specs.declared.moves.Move.TheVariants as mv;
ghost use Rattle.cf_layout.specs.Layout.{siding_of};
ghost use Rattle.cf_semantics.specs.moves.Bars.{exit_op_bar as bar_of_return, row_bar};
ghost use Rattle.cf_semantics.specs.state.Options.{is_some};
ghost use Rattle.cf_semantics.specs.state.Passengers.{kind as kind_of_passenger};
ghost use Rattle.cf_stages.specs.Changes.{passenger_at};
ghost use Rattle.cf_core.specs.Marks.{row_allows};
ghost use Rattle.cf_core.specs.Processors.{IsProcessor, after_move};
ghost use Rattle.cf_core.specs.Riders.{is_out as is_beside};
ghost use Rattle.cf_core.specs.Stations.{AreSidingStages};

use crate::processor::Processor;
use crate::riding::is_out;
use crate::rows::first_of;
use crate::siding_ends::is_memory;
use crate::stations::SidingStages;
use cf_bind::{Bar, Passenger};
use cf_passengers::{kind, recover, recovers};
use rv_inst::Class;

/// Whether the siding recovers at this stage, and the operation of the instruction is yet to come back.
#[inline(always)]
pub(crate) fn is_to_recover(passenger: &Passenger, site: SidingStages, i: u32) -> bool
    ensures { result ≡ (is_beside passenger.now && (site.recover == i)) }
{
    is_out(passenger) && site.recover == i
}

impl Processor {
    /// The last tests in the row of Recover: whether the operation is at the end of its siding, and answered.
    #[inline(always)]
    #[tactic(auto, using(crate::proofs::Ported::ported))]
    pub(crate) fn return_bar(&self, passenger: &Passenger) -> Option<Bar>
        requires { IsProcessor self.now.plan self.now.state }
        ensures { result ≡ bar_of_return self.now.plan self.now.state passenger.now }
    {
        let class = kind(passenger);
        let Some(k) = self.layout.siding_of(class) else {
            return Some(Bar::NoUnit);
        };
        let Some(op) = self.last_op(k) else {
            return Some(Bar::OpNotThere);
        };
        first_of(&[(is_memory(class) && op.answer.is_none(), Bar::NotDone)])
    }

    /// The first bar of Recover in this stage.
    #[inline(never)]
    pub(crate) fn recover_bar(&self, i: u32) -> Option<Bar>
        requires { IsProcessor self.now.plan self.now.state }
        ensures { result ≡ row_bar self.now.plan self.now.state (mv.Recover i) }
    {
        let passenger = match self.rider(i) {
            Ok(passenger) => passenger,
            Err(bar) => return Some(bar),
        };
        let bar = first_of(&[
            (!recovers(&self.layout, kind(&passenger), i), Bar::NoUnit),
            (!passenger.launched || passenger.recovered, Bar::AlreadyDone),
        ]);
        if bar.is_some() {
            return bar;
        }
        self.return_bar(&passenger)
    }

    /// Whether the operation is at the end of the siding, and answered. The siding is that of the class of the instruction.
    #[inline(always)]
    #[tactic(auto, using(crate::proofs::Ported::ported))]
    fn has_returned(&self, passenger: &Passenger, class: Class, k: u32) -> bool
        requires facts { IsProcessor self.now.plan self.now.state }
        requires class { class ≡ kind_of_passenger passenger.now }
        requires siding { siding_of self.now.plan (kind_of_passenger passenger.now) ≡ Some k }
        requires inside { k < length self.now.plan.sidings }
        ensures { result ≡ not (is_some (bar_of_return self.now.plan self.now.state passenger.now)) }
    {
        match self.last_op(k) {
            Some(op) => !is_memory(class) || op.answer.is_some(),
            None => false,
        }
    }

    /// Whether no test in the row of Recover holds. The siding is that of the class of the instruction.
    #[inline(always)]
    #[tactic(auto, using(crate::proofs::Rides::recover_free))]
    pub(crate) fn recovers(
        &self,
        passenger: &Passenger,
        class: Class,
        site: SidingStages,
        i: u32,
    ) -> bool
        requires facts { IsProcessor self.now.plan self.now.state }
        requires here { passenger_at self.now.state.cells i ≡ Some passenger.now }
        requires class { class ≡ kind_of_passenger passenger.now }
        requires site { AreSidingStages self.now.plan (kind_of_passenger passenger.now) site }
        ensures { result ≡ row_allows self.now.plan self.now.state (mv.Recover i) }
    {
        is_to_recover(passenger, site, i) && self.has_returned(passenger, class, site.number)
    }

    /// The instruction of the stage takes its operation out of the siding. A live one finishes.
    #[inline(never)]
    #[tactic(auto, using(crate::proofs::moves::Returning::returning), unfolding(cf_semantics::specs::moves::Moves::moved))]
    pub(crate) fn recover(&mut self, i: u32)
        requires facts { IsProcessor self.old.plan self.old.state }
        requires allowed { row_bar self.old.plan self.old.state (mv.Recover i) ≡ None }
        ensures { self.new ≡ after_move self.old (mv.Recover i) }
    {
        if let Some(passenger) = self.stages.passenger(i) {
            if let Some(k) = self.layout.siding_of(kind(passenger)) {
                let op = self.sidings.recover(k);
                recover(self.stages.passenger_mut(i), op.answer);
            }
        }
    }
}
