//! Execute: a unit of a stage executes the instruction there.

ghost use Rattle.std.specs.Prelude.{◌≡◌, ◌<◌, ◌≤◌, Some, None};
ghost use Rattle.cf_bind.specs.declared.moves.Move.TheVariants as mv;
ghost use Rattle.cf_layout.specs.Layout.{unit_at};
ghost use Rattle.cf_semantics.specs.moves.Bars.{row_bar};
ghost use Rattle.cf_semantics.specs.state.Passengers.{kind as kind_of_passenger};
ghost use Rattle.cf_stages.specs.Changes.{passenger_at};
ghost use Rattle.cf_stages.specs.Words.{word_of};
ghost use Rattle.cf_core.specs.Marks.{row_allows};
ghost use Rattle.cf_core.specs.Processors.{IsProcessor, after_move};
ghost use Rattle.cf_core.specs.Riders.{is_undone as is_not_done};

use crate::processor::Processor;
use crate::riding::has_sources;
use crate::rows::{first_of, source_bar};
use cf_bind::{Bar, Passenger};
use cf_passengers::{finish, kind};
use cf_stages::has_bit;

impl Processor {
    /// The first bar of Execute in this stage.
    #[inline(always)]
    pub(crate) fn execute_bar(&self, i: u32) -> Option<Bar>
        requires { IsProcessor self.now.plan self.now.state }
        ensures { result ≡ row_bar self.now.plan self.now.state (mv.Execute i) }
    {
        let passenger = match self.rider(i) {
            Ok(passenger) => passenger,
            Err(bar) => return Some(bar),
        };
        let bar = first_of(&[
            (passenger.dead, Bar::Dead),
            (passenger.done, Bar::AlreadyDone),
            (!self.layout.unit_at(kind(&passenger), i), Bar::NoUnit),
        ]);
        if bar.is_some() {
            return bar;
        }
        source_bar(&passenger)
    }

    /// Whether no test in the row of Execute holds, given whether the instruction is live and was not executed, and the word of
    /// the stages with units of its class.
    #[inline(always)]
    #[tactic(auto, using(crate::proofs::Rides::execute_free, crate::proofs::Tabled::unit_bits))]
    pub(crate) fn executes(&self, passenger: &Passenger, undone: bool, units: u32, i: u32) -> bool
        requires above { 0 < i }
        requires within { i ≤ self.now.plan.stages }
        requires here { passenger_at self.now.state.cells i ≡ Some passenger.now }
        requires units { units ≡ word_of (unit_at self.now.plan (kind_of_passenger passenger.now)) self.now.plan.stages }
        requires undone { undone ≡ is_not_done passenger.now }
        ensures { result ≡ row_allows self.now.plan self.now.state (mv.Execute i) }
    {
        self.know_stages();
        undone & has_bit(units, i) && has_sources(passenger)
    }

    /// A unit of the stage executes its instruction.
    #[inline(never)]
    #[tactic(auto, using(crate::proofs::moves::Riding::riding, cf_passengers::proofs::Computing::computing), unfolding(cf_semantics::specs::moves::Moves::moved))]
    pub(crate) fn execute(&mut self, i: u32)
        requires facts { IsProcessor self.old.plan self.old.state }
        requires allowed { row_bar self.old.plan self.old.state (mv.Execute i) ≡ None }
        ensures { self.new ≡ after_move self.old (mv.Execute i) }
    {
        finish(self.stages.passenger_mut(i), None);
    }
}
