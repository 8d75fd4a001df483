//! Meet: the instruction and the result of a stage meet.

ghost use Rattle.std.specs.Prelude.{◌≡◌, ◌&&◌, ◌||◌, IsTrue, None, not};
ghost use Rattle.cf_bind.specs.declared.moves.Move.TheVariants as mv;
ghost use Rattle.cf_semantics.specs.moves.Bars.{row_bar};
ghost use Rattle.cf_semantics.specs.moves.Events.{IsEvent};
ghost use Rattle.cf_stages.specs.Changes.{is_full_at};
ghost use Rattle.cf_core.specs.Marks.{keeps_marks};
ghost use Rattle.cf_core.specs.Masks.{stops_there};
ghost use Rattle.cf_core.specs.Processors.{IsProcessor, after_move};
ghost use Rattle.cf_core.specs.Riders.{awaits as waits_for, is_left_waiting as left_waiting, is_passed_by as passed_by, lacks as waits_for_another};
ghost use Rattle.cf_core.specs.Seen.{dies_at, event_seen as seen_of, is_fatal as fatal};

use crate::processor::Processor;
use crate::riding::is_spent;
use crate::rows::first_of;
use cf_bind::{Bar, Binding, Packet, Passenger};
use cf_semantics::Event;

/// Whether the instruction is live and the result makes it dead.
#[inline(always)]
#[tactic(auto, unfolding(cf_bind::specs::Meeting::meeting))]
fn is_fatal(passenger: &Passenger, packet: Packet) -> bool
    ensures { result ≡ fatal passenger.now packet }
{
    match packet {
        Packet::Value { .. } => false,
        Packet::Turn(_) => !passenger.dead,
        Packet::Halt => !passenger.dead,
    }
}

/// What a meeting shows to the outside, by whether its instruction dies and by what is left of its result.
#[inline(always)]
#[tactic(auto, unfolding(crate::specs::Seen::event_seen))]
fn seen(dies: bool, left: Option<Packet>) -> Event
    ensures { result ≡ seen_of dies left }
{
    if left.is_none() {
        Event::Killed
    } else if dies {
        Event::Died
    } else {
        Event::Plain
    }
}

/// Whether the source is this register, and has no value yet.
#[inline(always)]
fn awaits(source: Option<Binding>, register: u8) -> bool
    ensures { result ≡ waits_for register source }
{
    match source {
        Some(binding) => binding.value.is_none() && binding.reg == register,
        None => false,
    }
}

/// Whether the source has no value yet, and is another register.
#[inline(always)]
fn lacks(source: Option<Binding>, register: u8) -> bool
    ensures { result ≡ waits_for_another register source }
{
    match source {
        Some(binding) => binding.value.is_none() && binding.reg != register,
        None => false,
    }
}

/// Whether what is marked of the instruction is the same after it has met the result: a value after which it still waits
/// for that of another source, or one that it does not wait for, if it may climb on.
#[inline(always)]
fn keeps_its_marks(passenger: &Passenger, packet: Packet, stops: bool) -> bool
    ensures { result ≡ (left_waiting passenger.now packet || (passed_by passenger.now packet && not stops)) }
{
    match packet {
        Packet::Value { reg, .. } => {
            lacks(passenger.src1, reg)
                || lacks(passenger.src2, reg)
                || !(stops || awaits(passenger.src1, reg) || awaits(passenger.src2, reg))
        }
        Packet::Turn(_) => false,
        Packet::Halt => false,
    }
}

impl Processor {
    /// The first bar of Meet in this stage.
    #[inline(always)]
    pub(crate) fn meet_bar(&self, i: u32) -> Option<Bar>
        requires { IsProcessor self.now.plan self.now.state }
        ensures { result ≡ row_bar self.now.plan self.now.state (mv.Meet i) }
    {
        if i == 0 || self.stages.count() < i {
            return Some(Bar::NoSuchSite);
        }
        let cell = self.stages.cell(i);
        if cell.passenger.is_none() {
            return Some(Bar::NoPassenger);
        }
        first_of(&[
            (cell.packet.is_none(), Bar::NoPacket),
            (cell.met, Bar::AlreadyMet),
        ])
    }

    /// Whether the instruction of the stage is live and the result there, which it has not met, makes it dead.
    #[inline(always)]
    #[tactic(auto, using(cf_stages::proofs::Meetings::meeting_ones))]
    fn dies(&self, i: u32) -> bool
        requires { IsTrue (is_full_at self.now.state.cells i) }
        ensures { result ≡ dies_at self.now.state.cells i }
    {
        is_fatal(self.stages.passenger_there(i), self.stages.packet_there(i))
    }

    /// The instruction and the result of the stage meet. Returns what this shows to the outside.
    // What kind of result it is says before the meeting whether the instruction dies, so that it need not be looked at twice.
    #[inline(always)]
    #[tactic(auto, using(crate::proofs::moves::Meetings::meeting_in_stage), unfolding(cf_semantics::specs::moves::Moves::moved))]
    pub(crate) fn meet(&mut self, i: u32) -> Event
        requires { row_bar self.old.plan self.old.state (mv.Meet i) ≡ None }
        ensures processor { self.new ≡ after_move self.old (mv.Meet i) }
        ensures event { IsEvent self.old.plan self.old.state (mv.Meet i) result }
    {
        let dies = self.dies(i);
        self.stages.meet_at(i);
        seen(dies, self.stages.packet(i))
    }
    /// Whether the meeting in this stage, where both are and have not met, leaves the marks of all stages as they are, given
    /// whether the instruction must not climb on yet.
    #[inline(always)]
    #[tactic(auto, using(cf_stages::proofs::Meetings::meeting_ones), unfolding(crate::specs::Marks::keeps_marks))]
    pub(crate) fn keeps_in_meeting(&self, i: u32, stops: bool) -> bool
        requires full { IsTrue (is_full_at self.now.state.cells i) }
        requires stops { stops ≡ stops_there self.now.plan self.now.state i }
        ensures { result ≡ keeps_marks self.now.plan self.now.state (mv.Meet i) }
    {
        let passenger = self.stages.passenger_there(i);
        is_spent(passenger) || keeps_its_marks(passenger, self.stages.packet_there(i), stops)
    }
}
