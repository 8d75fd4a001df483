//! One entry of a pipe gets new contents, and the bit words follow.

ghost use Rattle.std.specs.Prelude.{◌≡◌, ◌-◌, ◌<◌, ◌≤◌, IsNone, IsSome, IsTrue, None, Some, false, length, true};
ghost use Rattle.cf_semantics.specs.state.State.{put_cell};
ghost use Rattle.cf_stages.specs.Changes.{IsCell, changed, cells_lifted, cells_fallen, falls, has_met_at, packet_at, passenger_at, with_new_passenger};
ghost use Rattle.cf_stages.specs.Parts.{with_place};

use crate::falling::{StageWords, drop_one};
use crate::stages::Stages;
use crate::words::with_bit;
use cf_bind::{Cell, Packet, Passenger};

impl Stages {
    /// An instruction comes to the stage, or replaces the one there. It has met nothing there.
    #[inline(always)]
    #[tactic(auto, using(crate::proofs::Written::coming_and_going, crate::proofs::Entries::entries))]
    pub(crate) fn place_passenger(&mut self, i: u32, passenger: Passenger)
        requires above { 0 < i }
        requires within { i ≤ length self.old }
        ensures stages { self.new ≡ changed self.old i (with_new_passenger (Some passenger)) }
        ensures count { length self.new ≡ length self.old }
    {
        self.passenger_mask = with_bit(self.passenger_mask, i, true);
        self.met_mask = with_bit(self.met_mask, i, false);
        self.passengers[i as usize - 1] = passenger;
    }

    /// The instruction of the stage leaves it, if there is one. Then nothing has met there.
    #[inline(always)]
    #[tactic(auto, using(crate::proofs::Written::coming_and_going, crate::proofs::Entries::entries))]
    pub(crate) fn remove_passenger(&mut self, i: u32)
        requires above { 0 < i }
        requires within { i ≤ length self.old }
        ensures stages { self.new ≡ changed self.old i (with_new_passenger None) }
        ensures count { length self.new ≡ length self.old }
    {
        self.passenger_mask = with_bit(self.passenger_mask, i, false);
        self.met_mask = with_bit(self.met_mask, i, false);
    }

    /// The instruction of stage i goes to the higher stage j, which has none, where it has met nothing.
    // The bit of the higher stage needs no clearing: nothing has met where no instruction is.
    #[inline(always)]
    #[tactic(auto, using(crate::proofs::Written::lifting, crate::proofs::Entries::entries))]
    pub fn lift(&mut self, i: u32, j: u32)
        requires above { 0 < i }
        requires order { i < j }
        requires within { j ≤ length self.old }
        requires there { IsSome (passenger_at self.old i) }
        requires room { IsNone (passenger_at self.old j) }
        ensures stages { self.new ≡ cells_lifted self.old i j }
        ensures count { length self.new ≡ length self.old }
    {
        self.passenger_mask = with_bit(with_bit(self.passenger_mask, i, false), j, true);
        self.met_mask = with_bit(self.met_mask, i, false);
        self.passengers[j as usize - 1] = self.passengers[i as usize - 1];
    }

    /// A result comes to the stage, or replaces the one there. It has met the instruction that is there, or has not.
    #[inline(always)]
    #[tactic(auto, using(crate::proofs::Written::replacing, crate::proofs::Entries::entries))]
    pub(crate) fn place_packet(&mut self, i: u32, packet: Packet, met: bool)
        requires above { 0 < i }
        requires within { i ≤ length self.old }
        requires passenger { IsTrue met → IsSome (passenger_at self.old i) }
        ensures stages { self.new ≡ changed self.old i (with_place (Some packet) met) }
        ensures count { length self.new ≡ length self.old }
    {
        self.packet_mask = with_bit(self.packet_mask, i, true);
        self.met_mask = with_bit(self.met_mask, i, met);
        self.packets[i as usize - 1] = packet;
    }

    /// The result of the stage leaves it, if there is one. Then nothing has met there.
    #[inline(always)]
    #[tactic(auto, using(crate::proofs::Written::replacing, crate::proofs::Entries::entries))]
    pub(crate) fn clear_packet(&mut self, i: u32)
        requires above { 0 < i }
        requires within { i ≤ length self.old }
        ensures stages { self.new ≡ changed self.old i (with_place None false) }
        ensures count { length self.new ≡ length self.old }
    {
        self.packet_mask = with_bit(self.packet_mask, i, false);
        self.met_mask = with_bit(self.met_mask, i, false);
    }

    /// The result of the stage goes to the one below, which has none, where it has met nothing.
    #[inline(always)]
    #[tactic(auto, using(crate::proofs::Kept::counting))]
    pub(crate) fn drop_packet(&mut self, i: u32)
        requires { IsTrue (falls self.old i) }
        ensures { self.new ≡ cells_fallen self.old i }
    {
        let words = StageWords {
            riding: self.passenger_mask,
            flying: self.packet_mask,
            met: self.met_mask,
        };
        let words = drop_one(&self.passengers, &mut self.packets, words, i);
        self.packet_mask = words.flying;
        self.met_mask = words.met;
    }

    /// Replaces the result of the stage by what is left of it. It has met the instruction there now.
    #[inline(always)]
    #[tactic(auto, using(crate::proofs::Written::remaining, crate::proofs::Entries::entries))]
    pub(crate) fn keep_packet(&mut self, i: u32, packet: Packet)
        requires above { 0 < i }
        requires within { i ≤ length self.old }
        requires there { IsSome (packet_at self.old i) }
        requires passenger { IsSome (passenger_at self.old i) }
        ensures stages { self.new ≡ changed self.old i (with_place (Some packet) true) }
        ensures count { length self.new ≡ length self.old }
    {
        self.met_mask = with_bit(self.met_mask, i, true);
        self.packets[i as usize - 1] = packet;
    }

    /// Removes the result of the stage, which was killed: the instruction there has met nothing.
    #[inline(always)]
    #[tactic(auto, using(crate::proofs::Written::remaining, crate::proofs::Entries::entries))]
    pub(crate) fn remove_packet(&mut self, i: u32)
        requires above { 0 < i }
        requires within { i ≤ length self.old }
        requires unmet { has_met_at self.old i ≡ false }
        ensures stages { self.new ≡ changed self.old i (with_place None false) }
        ensures count { length self.new ≡ length self.old }
    {
        self.packet_mask = with_bit(self.packet_mask, i, false);
    }

    /// Puts back earlier contents of the stage.
    #[inline(always)]
    #[tactic(auto, using(crate::proofs::Returned::returning))]
    pub fn put_back(&mut self, i: u32, cell: Cell)
        requires above { 0 < i }
        requires within { i ≤ length self.old }
        requires met { IsCell cell }
        ensures stages { self.new ≡ put_cell self.old i cell }
        ensures count { length self.new ≡ length self.old }
    {
        match cell.passenger {
            Some(passenger) => self.place_passenger(i, passenger),
            None => self.remove_passenger(i),
        }
        match cell.packet {
            Some(packet) => self.place_packet(i, packet, cell.met),
            None => self.clear_packet(i),
        }
    }
}
