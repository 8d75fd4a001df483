//! Changes of the contents of one stage.

ghost use Rattle.std.specs.Prelude.{◌≡◌, ◌<◌, ◌≤◌, IsTrue, IsSome, IsNone, None, Some, false, length};
ghost use Rattle.cf_bind.specs.Meeting.{meeting};
ghost use Rattle.cf_semantics.specs.moves.Moves.{without_passenger, without_packet};
ghost use Rattle.cf_semantics.specs.state.Options.{on};
ghost use Rattle.cf_stages.specs.Changes.{changed, is_full_at, met_in, packet_at, passenger_at, rider_met, with_new_passenger, with_packet};

use crate::stages::Stages;
use cf_bind::{Packet, Passenger, meet};

impl Stages {
    /// Makes the instruction of the stage meet the result, in place, and returns what is left of the result.
    #[inline(always)]
    #[tactic(auto, using(crate::proofs::Written::renewing, crate::proofs::Entries::entries))]
    fn meet_passenger(&mut self, i: u32, packet: Packet) -> Option<Packet>
        requires above { 0 < i }
        requires within { i ≤ length self.old }
        requires there { IsSome (passenger_at self.old i) }
        ensures stages { self.new ≡ changed self.old i (rider_met packet) }
        ensures left { result ≡ on (passenger_at self.old i) None (λ p. (meeting p packet).packet) }
        ensures count { length self.new ≡ length self.old }
    {
        meet(&mut self.passengers[i as usize - 1], packet)
    }

    /// Makes the instruction and the result of the stage meet. Afterwards they have met, or the result was killed and
    /// only the instruction is left.
    #[inline(always)]
    #[tactic(auto, using(crate::proofs::Remaining::still_there))]
    pub fn meet_at(&mut self, i: u32)
        requires { IsTrue (is_full_at self.old i) }
        ensures stages { self.new ≡ changed self.old i met_in }
        ensures count { length self.new ≡ length self.old }
    {
        let packet = self.packet_there(i);
        match self.meet_passenger(i, packet) {
            Some(left) => self.keep_packet(i, left),
            None => self.remove_packet(i),
        }
    }

    /// Puts an instruction into the lowest stage, where it has met nothing.
    #[inline(always)]
    #[tactic(auto, using(crate::proofs::Kept::counting))]
    pub fn put_passenger(&mut self, passenger: Passenger)
        requires { IsNone (passenger_at self.old 1) }
        ensures stages { self.new ≡ changed self.old 1 (with_new_passenger (Some passenger)) }
        ensures count { length self.new ≡ length self.old }
    {
        let _ = &self.passengers;
        self.place_passenger(1, passenger);
    }

    /// Puts a result into the stage. If `met` is set, an instruction is there, which it has met.
    #[inline(always)]
    pub fn put_packet(&mut self, i: u32, packet: Packet, met: bool)
        requires above { 0 < i }
        requires within { i ≤ length self.old }
        requires room { IsNone (packet_at self.old i) }
        requires met { IsTrue met → IsSome (passenger_at self.old i) }
        ensures stages { self.new ≡ changed self.old i (with_packet packet met) }
        ensures count { length self.new ≡ length self.old }
    {
        self.place_packet(i, packet, met);
    }

    /// Removes the instruction of the highest stage.
    #[inline(always)]
    pub fn remove_top(&mut self)
        ensures stages { self.new ≡ changed self.old (length self.old) without_passenger }
        ensures count { length self.new ≡ length self.old }
    {
        let top = self.count();
        self.remove_passenger(top);
    }

    /// Takes the result out of the lowest stage.
    #[inline(always)]
    pub fn take_bottom(&mut self) -> Packet
        requires there { IsSome (packet_at self.old 1) }
        requires met { is_full_at self.old 1 ≡ false }
        ensures packet { Some result ≡ packet_at self.old 1 }
        ensures stages { self.new ≡ changed self.old 1 without_packet }
        ensures count { length self.new ≡ length self.old }
    {
        let leaving = self.packet_there(1);
        self.clear_packet(1);
        leaving
    }
}
