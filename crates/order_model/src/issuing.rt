//! The instruction that is issued at an address.

ghost use Rattle.std.specs.Prelude.{◌≡◌, [], false};
ghost use Rattle.cf_passengers.specs.Issuing.{meant};
ghost use Rattle.cf_semantics.specs.moves.Instructions.{fetched as what_is_fetched, register, free_trap, Got};
ghost use Rattle.cf_semantics.specs.state.Layouts.{isa_of as set_of};
ghost use Rattle.cf_semantics.specs.state.Passengers.{source as source_of, destination as destination_of, fresh as fresh_passenger, fresh_as, fresh_end, fresh_undone};

use crate::situation::Situation;
use cf_bind::{Binding, End, Guess, Passenger};
use cf_layout::LooseLayout;
use cf_passengers::fetched;
use cf_passengers::loose::isa_of;
use mem_regions::Regions;
use rv_inst::{Class, Instr, class_of, dest, sources};

/// A destination whose value is not known yet.
#[inline(always)]
fn destination(rd: u8) -> Option<Binding>
    ensures { result ≡ destination_of (register rd) }
{
    if rd == 0 {
        None
    } else {
        Some(Binding {
            reg: rd,
            value: None,
        })
    }
}

/// A `Passenger` with an instruction, an address and a guess, and nothing else.
#[inline(always)]
fn blank(what: Option<Instr>, pc: u32, guess: Guess) -> Passenger
    ensures { result ≡ record { pc = pc; what = what; guess = guess; src1 = None; src2 = None; dst = None; done = false; launched = false; recovered = false; next = None; ending = None; owes = None; dead = false } }
{
    Passenger {
        pc,
        what,
        guess,
        src1: None,
        src2: None,
        dst: None,
        done: false,
        launched: false,
        recovered: false,
        next: None,
        ending: None,
        owes: None,
        dead: false,
    }
}

/// An instruction that is known to end the program when it is issued.
#[inline(always)]
fn ended(what: Option<Instr>, pc: u32, guess: Guess, end: End) -> Passenger
    ensures { result ≡ fresh_end what pc guess end }
{
    Passenger {
        done: true,
        ending: Some(end),
        ..blank(what, pc, guess)
    }
}

/// EBREAK, which ends the program, or FENCE, which has nothing to do.
#[inline(always)]
#[tactic(auto, unfolding(cf_semantics::specs::moves::Instructions::free_trap))]
fn free(i: Instr, pc: u32, guess: Guess) -> Passenger
    ensures { result ≡ fresh_as Class.Free [] i pc guess }
{
    match i {
        Instr::Ebreak => ended(
            Some(i),
            pc,
            guess,
            End::Trap {
                cause: 3,
                pc,
                detail: pc,
            },
        ),
        _ => Passenger {
            done: true,
            next: Some(pc.wrapping_add(4)),
            ..blank(Some(i), pc, guess)
        },
    }
}

impl Situation {
    /// A source, with the cached value of its register, if there is one.
    #[inline(always)]
    fn source(&self, reg: u8) -> Option<Binding>
        ensures { result ≡ source_of self.now.cache (register reg) }
    {
        if reg == 0 {
            None
        } else {
            Some(Binding {
                reg,
                value: self.cached(reg),
            })
        }
    }

    /// An instruction that still has to be computed, or to be answered by the environment.
    #[inline(always)]
    #[tactic(auto, unfolding(cf_semantics::specs::moves::Instructions::src1_of, cf_semantics::specs::moves::Instructions::src2_of, cf_semantics::specs::moves::Instructions::dst_of))]
    fn undone(&self, i: Instr, pc: u32, guess: Guess) -> Passenger
        ensures { result ≡ fresh_undone self.now.cache i pc guess }
    {
        let (first, second) = sources(i);
        Passenger {
            src1: self.source(first),
            src2: self.source(second),
            dst: destination(dest(i)),
            ..blank(Some(i), pc, guess)
        }
    }

    /// What is issued for a decoded instruction.
    #[inline(always)]
    #[tactic(auto, unfolding(cf_semantics::specs::moves::Instructions::kind_of, cf_semantics::specs::state::Passengers::fresh))]
    fn decoded(&self, i: Instr, pc: u32, guess: Guess) -> Passenger
        ensures { result ≡ fresh_passenger self.now.cache (Got i) pc guess }
    {
        match class_of(i) {
            Class::Free => free(i, pc, guess),
            _ => self.undone(i, pc, guess),
        }
    }

    /// What is issued at the address with the guess.
    #[inline(always)]
    #[tactic(auto, unfolding(cf_semantics::specs::state::Passengers::fresh))]
    pub(crate) fn issued(
        &self,
        layout: &LooseLayout,
        mem: &Regions,
        pc: u32,
        guess: Guess,
    ) -> Passenger
        ensures { result ≡ fresh_passenger self.now.cache (what_is_fetched (set_of layout.now) mem.now pc) pc guess }
    {
        match fetched(isa_of(layout), mem, pc) {
            Ok(i) => self.decoded(i, pc, guess),
            Err(end) => ended(None, pc, guess, end),
        }
    }
}
