//! Leave: the instruction of the highest stage leaves; a live one retires, or ends the program.

ghost use Rattle.std.specs.Prelude.{◌≡◌, IfSome, ◌+◌, ◌<◌, ◌^◌, ◌&&◌, None, not, true};
ghost use Rattle.cf_bind.specs.declared.moves.Move.TheVariants as mv;
ghost use Rattle.cf_semantics.specs.moves.Bars.{row_bar};
ghost use Rattle.cf_semantics.specs.moves.Events.{IsEvent};
ghost use Rattle.cf_semantics.specs.state.Options.{is_some};
ghost use Rattle.cf_passengers.specs.Facts.{IsBinding};
ghost use Rattle.cf_core.specs.Ends.{left_by, written_back};
ghost use Rattle.cf_core.specs.Marks.{row_allows};
ghost use Rattle.cf_core.specs.Masks.{is_allowed};
ghost use Rattle.cf_core.specs.Processors.{IsProcessor, in_state, after_move};

use crate::counterflow::Core;
use crate::processor::Processor;
use crate::riding::{is_out, is_undone};
use crate::rows::first_of;
use cf_bind::{Bar, Binding, End};
use cf_passengers::{leaving, value_in};
use cf_semantics::Event;

impl Processor {
    /// The first bar of Leave.
    #[inline(always)]
    pub(crate) fn leave_bar(&self) -> Option<Bar>
        requires { IsProcessor self.now.plan self.now.state }
        ensures { result ≡ row_bar self.now.plan self.now.state mv.Leave }
    {
        let Some(passenger) = self.top().passenger else {
            return Some(Bar::NoPassenger);
        };
        first_of(&[
            (self.stages.is_full(self.stages.count()), Bar::NotMet),
            (passenger.owes.is_some(), Bar::Owes),
            (
                (!passenger.dead && !passenger.done)
                    || (passenger.launched && !passenger.recovered),
                Bar::NotDone,
            ),
        ])
    }

    /// Whether no test in the row of Leave holds; it does not say which one does.
    #[inline(always)]
    #[tactic(auto, using(crate::proofs::moves::Allows::leave_free))]
    fn leaves(&self) -> bool
        requires { IsProcessor self.now.plan self.now.state }
        ensures { result ≡ row_allows self.now.plan self.now.state mv.Leave }
    {
        let top = self.stages.count();
        match self.stages.passenger(top) {
            Some(passenger) => {
                !self.stages.is_full(top)
                    && passenger.owes.is_none()
                    && !is_undone(passenger)
                    && !is_out(passenger)
            }
            None => false,
        }
    }

    /// Writes the value of a destination, if there is one, into the register file.
    #[inline(always)]
    fn write_back(&mut self, destination: Option<Binding>)
        requires { IfSome destination IsBinding }
        ensures { self.new ≡ in_state self.old (written_back self.old.state destination) }
    {
        if let Some(binding) = destination {
            self.ends.write(binding.reg, value_in(destination));
        }
    }

    /// A live instruction with this ending and this destination, which has left, ends the program, or retires.
    #[inline(always)]
    fn retire(&mut self, ending: Option<End>, destination: Option<Binding>)
        requires destination { IfSome destination IsBinding }
        requires count { self.old.state.retired + 1 < 2 ^ 64 }
        ensures { self.new ≡ in_state self.old (left_by self.old.state ending destination) }
    {
        match ending {
            Some(end) => self.ending = Some(end),
            None => {
                self.write_back(destination);
                self.retired += 1;
            }
        }
    }

    /// What it shows to the outside that the instruction of the highest stage leaves.
    #[inline(always)]
    fn leaving_top(&self) -> Event
        requires facts { IsProcessor self.now.plan self.now.state }
        requires allowed { row_bar self.now.plan self.now.state mv.Leave ≡ None }
        ensures { IsEvent self.now.plan self.now.state mv.Leave result }
    {
        let top = self.stages.count();
        leaving(self.stages.passenger_there(top))
    }

    /// The instruction of the highest stage leaves. Only what the registers and the end of the program need of it is copied.
    #[inline(never)]
    #[tactic(auto, unfolding(cf_semantics::specs::moves::Moves::moved))]
    fn leave_top(&mut self)
        requires facts { IsProcessor self.old.plan self.old.state }
        requires allowed { row_bar self.old.plan self.old.state mv.Leave ≡ None }
        requires count { self.old.state.retired + 1 < 2 ^ 64 }
        ensures { self.new ≡ after_move self.old mv.Leave }
    {
        let top = self.stages.count();
        let passenger = self.stages.passenger_there(top);
        let (dead, ending, destination) = (passenger.dead, passenger.ending, passenger.dst);
        self.stages.remove_top();
        if !dead {
            self.retire(ending, destination);
        }
    }

    /// The instruction of the highest stage leaves. Returns what this shows to the outside.
    // The event is made where it is asked for: a caller that shows nothing does not encode the instruction.
    #[inline(always)]
    pub(crate) fn leave(&mut self) -> Event
        requires facts { IsProcessor self.old.plan self.old.state }
        requires allowed { row_bar self.old.plan self.old.state mv.Leave ≡ None }
        requires count { self.old.state.retired + 1 < 2 ^ 64 }
        ensures processor { self.new ≡ after_move self.old mv.Leave }
        ensures event { IsEvent self.old.plan self.old.state mv.Leave result }
    {
        let event = self.leaving_top();
        self.leave_top();
        event
    }
}

impl Core {
    /// Whether Leave is allowed.
    #[inline(always)]
    #[tactic(auto, using(crate::proofs::moves::Allows::allowing))]
    pub fn may_leave(&self) -> bool
        ensures { result ≡ is_allowed self.now.plan self.now.state mv.Leave }
    {
        let processor = &self.processor;
        processor.goes_on() && processor.leaves()
    }

    /// Whether Leave is allowed by a processor that is known to go on: the program has not ended, and neither the input nor
    /// the output has failed. It is not tested again.
    #[inline(always)]
    #[tactic(auto, using(crate::proofs::moves::Allows::allowing))]
    pub fn open_leave(&self) -> bool
        requires { (not (is_some self.now.state.ending) && not self.now.state.failed) ≡ true }
        ensures { result ≡ is_allowed self.now.plan self.now.state mv.Leave }
    {
        self.processor.leaves()
    }
}
