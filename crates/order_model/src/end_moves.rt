//! The moves at the ends of the pipes: Issue, Leave and Exit.
#![tactic(auto, unfolding(crate::specs::RuleMoves::moved_without, cf_semantics::specs::moves::Moves::moved))]

ghost use Rattle.std.specs.Prelude.{◌≡◌, ◌≤◌, ◌+◌, ◌<◌, ◌^◌, ◌++◌, None, length};
ghost use Rattle.cf_bind.specs.declared.moves.Move.TheVariants as mv;
ghost use Rattle.cf_passengers.specs.Waiting.{listed, listed_one};
ghost use Rattle.cf_semantics.specs.moves.Moves.{fetch_from as fetch_there, left_live, moved, keeps, turned, written};
ghost use Rattle.cf_semantics.specs.state.Passengers.{cleared, forgets, reg_in};
ghost use Rattle.order_model.specs.RuleBars.{row_bar_without};
ghost use Rattle.order_model.specs.RuleMoves.{leaving_without, moved_without};
ghost use Rattle.order_model.specs.Situations.{in_memory};

use crate::Rule;
use crate::situation::Situation;
use cf_bind::{Binding, Cell, Fetch, Guess, Packet, Passenger};
use cf_layout::LooseLayout;
use cf_passengers::{RequestedSources, goto, requests, value_in};
use mem_regions::Regions;
use order_rules::kept;

/// Fetch at the address; if there is none, fetch waits.
#[inline(always)]
fn fetch_at(place: Option<u32>) -> Fetch
    ensures { result ≡ fetch_there place }
{
    match place {
        Some(pc) => Fetch::Running(pc),
        None => Fetch::Waiting,
    }
}

/// The instruction as it leaves; without the rule, one that is not done leaves as one without a destination.
#[inline(always)]
pub(crate) fn leaving(away: Option<Rule>, p: Passenger) -> Passenger
    ensures { result ≡ leaving_without away p }
{
    if kept(away, Rule::LeaveNotDone) || p.done {
        p
    } else {
        Passenger { dst: None, ..p }
    }
}

/// Where fetch goes on when a result leaves at the bottom.
#[inline(always)]
fn turn(fetch: Fetch, packet: Packet) -> Fetch
    ensures { result ≡ turned fetch packet }
{
    match packet {
        Packet::Value { .. } => fetch,
        Packet::Turn(pc) => Fetch::Running(pc),
        Packet::Halt => Fetch::Waiting,
    }
}

impl Situation {
    /// Requests the register, if there is one.
    #[inline(always)]
    fn request_one(&mut self, register: Option<u8>)
        requires { length self.old.lane + length (listed_one register) ≤ 64 }
        ensures { self.new ≡ record self.old { lane = self.old.lane ++ listed_one register } }
    {
        if let Some(register) = register {
            self.lane.push(register);
        }
    }

    /// Requests the registers, in order.
    #[inline(always)]
    fn request(&mut self, asked: RequestedSources)
        requires { length self.old.lane + length (listed asked) ≤ 64 }
        ensures { self.new ≡ record self.old { lane = self.old.lane ++ listed asked } }
    {
        self.request_one(asked.first);
        self.request_one(asked.second);
    }

    /// Drops the cached value of the destination, if there is one.
    #[inline(always)]
    fn forget(&mut self, destination: Option<Binding>)
        ensures { self.new ≡ record self.old { cache = forgets (reg_in destination) self.old.cache } }
    {
        if let Some(binding) = destination {
            self.keep(binding.reg, None);
        }
    }

    /// Puts a new instruction into stage 1; fetch goes on by the guess.
    #[inline(always)]
    #[tactic(auto, using(crate::proofs::Allowed::allowing), unfolding(cf_semantics::specs::moves::Moves::moved))]
    pub(crate) fn issue(
        &mut self,
        away: Option<Rule>,
        layout: &LooseLayout,
        mem: &Regions,
        guess: Guess,
    )
        requires { row_bar_without away layout.now (in_memory self.old mem.now) (mv.Issue guess) ≡ None }
        ensures { in_memory self.new mem.now ≡ moved layout.now (in_memory self.old mem.now) (mv.Issue guess) }
    {
        let _ = layout.stages();
        let Some(cell) = self.cell(1) else {
            return;
        };
        let Fetch::Running(pc) = self.fetch else {
            return;
        };
        let passenger = self.issued(layout, mem, pc, guess);
        self.request(requests(&passenger));
        self.put(
            1,
            Cell {
                passenger: Some(passenger),
                met: false,
                ..cell
            },
        );
        self.forget(passenger.dst);
        self.fetch = fetch_at(goto(&passenger));
    }

    /// Writes the value of a destination, if there is one.
    #[inline(always)]
    fn write_back(&mut self, destination: Option<Binding>)
        ensures { self.new ≡ record self.old { regs = written self.old.regs destination } }
    {
        if let Some(binding) = destination {
            self.write(binding.reg, value_in(destination));
        }
    }

    /// A live instruction that leaves ends the program or retires.
    #[inline(always)]
    fn retire(&mut self, passenger: &Passenger)
        requires { self.old.retired + 1 < 2 ^ 64 }
        ensures { self.new ≡ left_live self.old passenger.now }
    {
        match passenger.ending {
            Some(end) => self.ending = Some(end),
            None => {
                self.write_back(passenger.dst);
                self.retired += 1;
            }
        }
    }

    /// Removes the instruction of the highest stage; a dead instruction leaves no trace.
    #[inline(always)]
    pub(crate) fn leave(&mut self, away: Option<Rule>, layout: &LooseLayout, mem: &Regions)
        requires { self.old.retired + 1 < 2 ^ 64 }
        ensures { in_memory self.new mem.now ≡ moved_without away layout.now (in_memory self.old mem.now) mv.Leave }
    {
        let top = layout.stages() as usize;
        let Some(cell) = self.cell(top) else {
            return;
        };
        let Some(passenger) = cell.passenger else {
            return;
        };
        let gone = leaving(away, passenger);
        self.put(
            top,
            Cell {
                passenger: None,
                met: false,
                ..cell
            },
        );
        if !gone.dead {
            self.retire(&gone);
        }
    }

    /// Empties the cache.
    #[inline(always)]
    #[tactic(auto, using(cf_ends::proofs::Keeping::clearing))]
    fn clear(&mut self)
        ensures { self.new ≡ record self.old { cache = cleared self.old.cache } }
    {
        self.cache = [None; 32];
    }

    /// The cache receives a result that leaves at the bottom.
    #[inline(always)]
    #[tactic(auto, using(crate::proofs::Emitted::clearing))]
    fn take_in(&mut self, caches: bool, packet: Packet)
        ensures { self.new ≡ record self.old { cache = keeps caches self.old.cache packet } }
    {
        match packet {
            Packet::Value { reg, value } => {
                if caches {
                    self.keep(reg, Some(value));
                }
            }
            Packet::Turn(_) | Packet::Halt => self.clear(),
        }
    }

    /// Removes the result of the lowest stage.
    #[inline(always)]
    pub(crate) fn exit(&mut self, layout: &LooseLayout, mem: &Regions)
        ensures { in_memory self.new mem.now ≡ moved layout.now (in_memory self.old mem.now) mv.Exit }
    {
        let Some(cell) = self.cell(1) else {
            return;
        };
        let Some(packet) = cell.packet else {
            return;
        };
        self.put(
            1,
            Cell {
                packet: None,
                met: false,
                ..cell
            },
        );
        self.fetch = turn(self.fetch, packet);
        self.take_in(layout.cache(), packet);
    }
}
