//! Issue: an instruction enters the lowest stage, with a guess of the address at which fetch goes on.

ghost use Rattle.std.specs.Prelude.{◌≡◌, ◌+◌, ◌≤◌, IfSome, length, None, Some};
ghost use Rattle.cf_bind.specs.declared.moves.Move.TheVariants as mv;
ghost use Rattle.cf_bind.specs.declared.packet.Fetch.TheVariants as fetching;
ghost use Rattle.cf_bind.specs.declared.passenger.Guess.TheVariants as guess;
ghost use Rattle.cf_semantics.specs.moves.Bars.{row_bar};
ghost use Rattle.cf_semantics.specs.moves.Instructions.{fetched as what_is_fetched};
ghost use Rattle.cf_semantics.specs.moves.Moves.{fetch_from as fetch_there};
ghost use Rattle.cf_semantics.specs.state.Layouts.{isa_of as set_of};
ghost use Rattle.cf_semantics.specs.state.Passengers.{goto as goes_to};
ghost use Rattle.cf_stages.specs.Changes.{passenger_at};
ghost use Rattle.cf_passengers.specs.Facts.{IsPassenger, IsWritable, IsBinding};
ghost use Rattle.cf_passengers.specs.Issuing.{meant};
ghost use Rattle.cf_passengers.specs.Templates.{kept_for};
ghost use Rattle.cf_passengers.specs.Waiting.{listed_one, listed};
ghost use Rattle.cf_core.specs.Ends.{issued_at as issued_there, requested, forgotten};
ghost use Rattle.cf_core.specs.Marks.{row_allows};
ghost use Rattle.cf_core.specs.Masks.{is_allowed};
ghost use Rattle.cf_core.specs.Processors.{IsProcessor, in_state, after_move};

use crate::counterflow::Core;
use crate::issuing::Issuable;
use crate::processor::Processor;
use crate::rows::first_of;
use cf_bind::{Bar, Binding, End, Fetch, Guess, Passenger};
use cf_passengers::{RequestedSources, Template, blank, goto, issue, may_guess, requests};
use rv_inst::Instr;

/// Fetch at the address; if there is none, fetch waits.
#[inline(always)]
fn fetch_at(place: Option<u32>) -> Fetch
    ensures { result ≡ fetch_there place }
{
    match place {
        Some(pc) => Fetch::Running(pc),
        None => Fetch::Waiting,
    }
}

impl Processor {
    /// The instruction that is issued at the address with the guess.
    #[inline(never)]
    #[tactic(auto, using(crate::proofs::moves::KeptTemplates::fetching))]
    pub(crate) fn issued_at(&self, pc: u32, guess: Guess) -> Passenger
        ensures passenger { result ≡ issued_there self.now.plan self.now.state pc guess }
        ensures facts { IsPassenger (set_of self.now.plan) result }
    {
        let fetched = self.templates.fetched(self.isa, &self.memory, pc);
        let mut passenger = blank(pc, guess);
        issue(&mut passenger, &self.ends, fetched);
        passenger
    }

    /// The first bar of Issue with this guess.
    #[inline(never)]
    pub(crate) fn issue_bar(&self, guess: Guess) -> Option<Bar>
        requires { IsProcessor self.now.plan self.now.state }
        ensures { result ≡ row_bar self.now.plan self.now.state (mv.Issue guess) }
    {
        let Fetch::Running(pc) = self.ends.fetch() else {
            return Some(Bar::FetchWaiting);
        };
        let passenger = self.issued_at(pc, guess);
        let lane_len = self.ends.lane_len() + requests(&passenger).count();
        first_of(&[
            (self.bottom().passenger.is_some(), Bar::Occupied),
            (!may_guess(guess, &passenger), Bar::BadGuess),
            (self.layout.lane() < lane_len, Bar::LaneFull),
        ])
    }

    /// Requests the register, if there is one.
    #[inline(always)]
    fn request_one(&mut self, register: Option<u8>)
        requires register { IfSome register IsWritable }
        requires room { length self.old.state.lane + length (listed_one register) ≤ self.old.plan.lane }
        ensures { self.new ≡ in_state self.old (requested self.old.state (listed_one register)) }
    {
        if let Some(register) = register {
            self.ends.request(register);
        }
    }

    /// Requests the registers, in order.
    #[inline(always)]
    fn request(&mut self, asked: RequestedSources)
        requires first { IfSome asked.first IsWritable }
        requires second { IfSome asked.second IsWritable }
        requires room { length self.old.state.lane + length (listed asked) ≤ self.old.plan.lane }
        ensures { self.new ≡ in_state self.old (requested self.old.state (listed asked)) }
    {
        self.request_one(asked.first);
        self.request_one(asked.second);
    }

    /// Drops the cached value of the destination, if there is one.
    #[inline(always)]
    fn forget(&mut self, destination: Option<Binding>)
        requires { IfSome destination IsBinding }
        ensures { self.new ≡ in_state self.old (forgotten self.old.state destination) }
    {
        if let Some(binding) = destination {
            self.ends.forget(binding.reg);
        }
    }

    /// The instruction with this template, as it is issued at the address with the guess.
    #[inline(always)]
    fn issued_by(&self, template: Template, pc: u32, guess: Guess) -> Passenger
        requires { Some template ≡ kept_for pc (what_is_fetched (set_of self.now.plan) self.now.state.mem pc) }
        ensures passenger { result ≡ issued_there self.now.plan self.now.state pc guess }
        ensures facts { IsPassenger (set_of self.now.plan) result }
    {
        template.passenger(&self.ends, pc, guess)
    }

    /// The instruction that is issued at the address with the guess enters the lowest stage, and fetch goes on after it.
    #[inline(always)]
    #[tactic(auto, unfolding(cf_semantics::specs::moves::Moves::moved))]
    fn enter(&mut self, passenger: Passenger, pc: u32, guess: Guess, next: Option<u32>)
        requires runs { self.old.state.fetch ≡ fetching.Running pc }
        requires allowed { row_bar self.old.plan self.old.state (mv.Issue guess) ≡ None }
        requires passenger { passenger ≡ issued_there self.old.plan self.old.state pc guess }
        requires facts { IsPassenger (set_of self.old.plan) passenger }
        requires next { next ≡ goes_to passenger }
        ensures { self.new ≡ after_move self.old (mv.Issue guess) }
    {
        self.stages.put_passenger(passenger);
        self.request(requests(&passenger));
        self.forget(passenger.dst);
        self.ends.set_fetch(fetch_at(next));
    }

    /// Issues an instruction that has a template.
    #[inline(always)]
    fn issue_by(&mut self, template: Template, pc: u32, guess: Guess)
        requires runs { self.old.state.fetch ≡ fetching.Running pc }
        requires allowed { row_bar self.old.plan self.old.state (mv.Issue guess) ≡ None }
        requires template { Some template ≡ kept_for pc (what_is_fetched (set_of self.old.plan) self.old.state.mem pc) }
        ensures { self.new ≡ after_move self.old (mv.Issue guess) }
    {
        let passenger = self.issued_by(template, pc, guess);
        let next = template.goto(pc, guess);
        self.enter(passenger, pc, guess, next);
    }

    /// Issues what has no template: a trap, or an instruction that is done as soon as it is issued.
    #[inline(never)]
    fn issue_done(&mut self, pc: u32, guess: Guess)
        requires runs { self.old.state.fetch ≡ fetching.Running pc }
        requires allowed { row_bar self.old.plan self.old.state (mv.Issue guess) ≡ None }
        ensures { self.new ≡ after_move self.old (mv.Issue guess) }
    {
        let passenger = self.issued_at(pc, guess);
        let next = goto(&passenger);
        self.enter(passenger, pc, guess, next);
    }

    /// A new instruction enters the lowest stage, and fetch goes on by the guess.
    #[inline(never)]
    pub(crate) fn issue(&mut self, guess: Guess)
        requires { row_bar self.old.plan self.old.state (mv.Issue guess) ≡ None }
        ensures { self.new ≡ after_move self.old (mv.Issue guess) }
    {
        if let Fetch::Running(pc) = self.ends.fetch() {
            match self.templates.find(self.isa, &self.memory, pc) {
                Some(template) => self.issue_by(template, pc, guess),
                None => self.issue_done(pc, guess),
            }
        }
    }

    /// The guesses that the row of Issue allows for the instruction at this address, if the lowest stage is free. It is given as it
    /// would be issued with any of them.
    #[inline(always)]
    fn issuable_as(&self, passenger: &Passenger, pc: u32) -> Issuable
        requires facts { IsProcessor self.now.plan self.now.state }
        requires runs { self.now.state.fetch ≡ fetching.Running pc }
        requires free { passenger_at self.now.state.cells 1 ≡ None }
        requires passenger { passenger.now ≡ issued_there self.now.plan self.now.state pc guess.Next }
        ensures next { result.next ≡ row_allows self.now.plan self.now.state (mv.Issue guess.Next) }
        ensures taken { result.taken ≡ row_allows self.now.plan self.now.state (mv.Issue guess.Taken) }
        ensures wait { result.wait ≡ row_allows self.now.plan self.now.state (mv.Issue guess.Wait) }
    {
        if self.layout.lane() < self.ends.lane_len() + requests(passenger).count() {
            return Issuable::never();
        }
        Issuable {
            next: true,
            taken: may_guess(Guess::Taken, passenger),
            wait: may_guess(Guess::Wait, passenger),
        }
    }

    /// The guesses that the row of Issue allows at this address, if the lowest stage is free.
    // Where the address has a template, only those parts of the instruction are made that the answer needs.
    #[inline(always)]
    fn issuable_at(&self, pc: u32) -> Issuable
        requires facts { IsProcessor self.now.plan self.now.state }
        requires runs { self.now.state.fetch ≡ fetching.Running pc }
        requires free { passenger_at self.now.state.cells 1 ≡ None }
        ensures next { result.next ≡ row_allows self.now.plan self.now.state (mv.Issue guess.Next) }
        ensures taken { result.taken ≡ row_allows self.now.plan self.now.state (mv.Issue guess.Taken) }
        ensures wait { result.wait ≡ row_allows self.now.plan self.now.state (mv.Issue guess.Wait) }
    {
        match self.templates.get(pc) {
            Some(template) => self.issuable_as(&self.issued_by(template, pc, Guess::Next), pc),
            None => self.issuable_as(&self.issued_at(pc, Guess::Next), pc),
        }
    }

    /// The guesses that the row of Issue allows.
    #[inline(always)]
    #[tactic(auto, using(crate::proofs::moves::Guesses::issue_barred))]
    fn issuable_now(&self) -> Issuable
        requires { IsProcessor self.now.plan self.now.state }
        ensures next { result.next ≡ row_allows self.now.plan self.now.state (mv.Issue guess.Next) }
        ensures taken { result.taken ≡ row_allows self.now.plan self.now.state (mv.Issue guess.Taken) }
        ensures wait { result.wait ≡ row_allows self.now.plan self.now.state (mv.Issue guess.Wait) }
    {
        if self.stages.has_passenger(1) {
            return Issuable::never();
        }
        match self.ends.fetch() {
            Fetch::Running(pc) => self.issuable_at(pc),
            Fetch::Waiting => Issuable::never(),
        }
    }
}

impl Core {
    /// The instruction at the address, or the trap of that address, as [`cf_passengers::fetched`] answers it.
    #[inline(always)]
    pub fn fetched_at(&self, pc: u32) -> Result<Instr, End>
        ensures { meant result ≡ what_is_fetched (set_of self.now.plan) self.now.state.mem pc }
    {
        let processor = &self.processor;
        processor
            .templates
            .fetched(processor.isa, &processor.memory, pc)
    }

    /// The guesses that an instruction can be issued with. Nothing is decoded if the lowest stage is occupied.
    #[inline(always)]
    #[tactic(auto, using(crate::proofs::moves::Allows::allowing))]
    pub fn issuable(&self) -> Issuable
        ensures next { result.next ≡ is_allowed self.now.plan self.now.state (mv.Issue guess.Next) }
        ensures taken { result.taken ≡ is_allowed self.now.plan self.now.state (mv.Issue guess.Taken) }
        ensures wait { result.wait ≡ is_allowed self.now.plan self.now.state (mv.Issue guess.Wait) }
    {
        let processor = &self.processor;
        if processor.goes_on() {
            processor.issuable_now()
        } else {
            Issuable::never()
        }
    }
}
