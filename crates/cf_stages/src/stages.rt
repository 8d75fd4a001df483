//! The stages of the two pipes, and what is in each.

ghost use Rattle.std.specs.Option.{option_copied};
ghost use Rattle.std.specs.Prelude.{◌≡◌, ◌<◌, ◌≤◌, IfOk, IsSome, length, replicate, Some};
ghost use Rattle.cf_semantics.specs.state.Options.{is_some};
ghost use Rattle.cf_semantics.specs.state.State.{cell_at};
ghost use Rattle.cf_semantics.specs.runs.Runs.{empty_cell};
ghost use Rattle.cf_stages.specs.Changes.{IsCell, has_met_at, is_full_at, packet_at, passenger_at};
ghost use Rattle.cf_stages.specs.Words.{met_word, packet_word, passenger_word};

use crate::words::has_bit;
use cf_bind::{Cell, Guess, Packet, Passenger};
use std::alloc::{AllocError, Global};
use std::marker::Model;

/// The stages of the two pipes, from 1 at the bottom. Contracts see them as the list of their contents.
///
/// Each pipe is a list of its own, so that a move in one leaves the other alone. Three bit words say where an instruction
/// is, where a result is, and where the two have met: bit i - 1 for stage i. What an entry of a pipe holds means nothing
/// where its bit is not set, so that an entry is not emptied.
#[derive(Drop)]
pub struct Stages {
    pub(crate) passengers: Vec<Passenger>,
    pub(crate) packets: Vec<Packet>,
    pub(crate) passenger_mask: u32,
    pub(crate) packet_mask: u32,
    pub(crate) met_mask: u32,
}

impl Model for Stages {
    ghost use Rattle.std.specs.Prelude.{List};
    ghost use Rattle.cf_bind.specs.declared.cell.Cell.{Cell};
    ghost use Rattle.cf_stages.specs.Parts.{stages_of, AreStages};

    ghost Value = { List Cell };

    ghost view = { λ s. stages_of s.passengers.items s.packets.items s.passenger_mask s.packet_mask s.met_mask };

    ghost invariant = { λ s. AreStages s.passengers.items s.packets.items s.passenger_mask s.packet_mask s.met_mask };
}

/// What the entries of the instruction pipe hold at first, when no instruction is there.
const BLANK: Passenger = Passenger {
    pc: 0,
    what: None,
    guess: Guess::Next,
    src1: None,
    src2: None,
    dst: None,
    done: false,
    launched: false,
    recovered: false,
    next: None,
    ending: None,
    owes: None,
    dead: false,
};

impl Stages {
    /// This many empty stages, from 2 to 32; or an error if there is no memory for them.
    #[tactic(auto, using(crate::proofs::Empty::emptying))]
    pub fn new(alloc: Global, count: u32) -> Result<Stages, AllocError>
        requires few { 2 ≤ count }
        requires most { count ≤ 32 }
        ensures { IfOk result (λ stages. stages ≡ replicate count empty_cell) }
    {
        let mut passengers = Vec::new(alloc);
        passengers.resize(count as usize, BLANK)?;
        let mut packets = Vec::new(alloc);
        packets.resize(count as usize, Packet::Halt)?;
        Ok(Stages {
            passengers,
            packets,
            passenger_mask: 0,
            packet_mask: 0,
            met_mask: 0,
        })
    }

    /// How many stages there are: 2 to 32.
    #[inline(always)]
    #[tactic(auto, using(crate::proofs::Entries::entries))]
    pub fn count(&self) -> u32
        ensures count { result ≡ length self.now }
        ensures least { 2 ≤ result }
        ensures most { result ≤ 32 }
    {
        self.passengers.len() as u32
    }

    /// What is in the stage.
    #[inline(always)]
    #[tactic(auto, using(crate::proofs::Entries::reading))]
    pub fn cell(&self, i: u32) -> Cell
        requires above { 0 < i }
        requires within { i ≤ length self.now }
        ensures cell { Some result ≡ cell_at self.now i }
        ensures met { IsCell result }
    {
        Cell {
            passenger: self.passenger(i).copied(),
            packet: self.packet(i),
            met: has_bit(self.met_mask, i),
        }
    }

    /// Whether an instruction is in the stage.
    #[inline(always)]
    #[tactic(auto, using(crate::proofs::Entries::reading))]
    pub fn has_passenger(&self, i: u32) -> bool
        requires above { 0 < i }
        requires within { i ≤ length self.now }
        ensures { result ≡ is_some (passenger_at self.now i) }
    {
        has_bit(self.passenger_mask, i)
    }

    /// Whether a result is in the stage.
    #[inline(always)]
    #[tactic(auto, using(crate::proofs::Entries::reading))]
    pub fn has_packet(&self, i: u32) -> bool
        requires above { 0 < i }
        requires within { i ≤ length self.now }
        ensures { result ≡ is_some (packet_at self.now i) }
    {
        has_bit(self.packet_mask, i)
    }

    /// The instruction of the stage, which has one.
    #[inline(always)]
    #[tactic(auto, using(crate::proofs::Entries::reading))]
    pub fn passenger_there(&self, i: u32) -> &Passenger
        requires { IsSome (passenger_at self.now i) }
        ensures { Some result.now ≡ passenger_at self.now i }
    {
        &self.passengers[i as usize - 1]
    }

    /// The result of the stage, which has one.
    #[inline(always)]
    #[tactic(auto, using(crate::proofs::Entries::reading))]
    pub fn packet_there(&self, i: u32) -> Packet
        requires { IsSome (packet_at self.now i) }
        ensures { Some result ≡ packet_at self.now i }
    {
        self.packets[i as usize - 1]
    }

    /// The instruction in the stage.
    #[inline(always)]
    #[tactic(auto, using(crate::proofs::Entries::reading))]
    pub fn passenger(&self, i: u32) -> Option<&Passenger>
        requires above { 0 < i }
        requires within { i ≤ length self.now }
        ensures { option_copied result ≡ passenger_at self.now i }
    {
        if self.has_passenger(i) {
            Some(self.passenger_there(i))
        } else {
            None
        }
    }

    /// The result in the stage.
    #[inline(always)]
    #[tactic(auto, using(crate::proofs::Entries::reading))]
    pub fn packet(&self, i: u32) -> Option<Packet>
        requires above { 0 < i }
        requires within { i ≤ length self.now }
        ensures { result ≡ packet_at self.now i }
    {
        self.has_packet(i).then_some(self.packets[i as usize - 1])
    }

    /// The stages where an instruction is: bit i - 1 for stage i.
    #[inline(always)]
    pub fn passengers(&self) -> u32
        ensures { result ≡ passenger_word self.now }
    {
        self.passenger_mask
    }

    /// The stages where a result is: bit i - 1 for stage i.
    #[inline(always)]
    pub fn packets(&self) -> u32
        ensures { result ≡ packet_word self.now }
    {
        self.packet_mask
    }

    /// The stages where an instruction and a result have met: bit i - 1 for stage i.
    #[inline(always)]
    pub fn met(&self) -> u32
        ensures { result ≡ met_word self.now }
    {
        self.met_mask
    }

    /// Whether the instruction and the result of the stage have met.
    #[inline(always)]
    #[tactic(auto, using(crate::proofs::Entries::reading))]
    pub fn has_met(&self, i: u32) -> bool
        requires above { 0 < i }
        requires within { i ≤ length self.now }
        ensures { result ≡ has_met_at self.now i }
    {
        has_bit(self.met_mask, i)
    }

    /// Whether both an instruction and a result are in the stage, and have not met.
    #[inline(always)]
    pub fn is_full(&self, i: u32) -> bool
        requires above { 0 < i }
        requires within { i ≤ length self.now }
        ensures { result ≡ is_full_at self.now i }
    {
        self.has_passenger(i) && self.has_packet(i) && !self.has_met(i)
    }
}
