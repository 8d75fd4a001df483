//! Fetching at an address, and the `Passenger` that is issued for what was fetched.

ghost use Rattle.std.specs.Prelude.{◌≡◌, ◌<◌, [], true, Some, IfOk};
ghost use Rattle.rv_inst.specs.Ranges.{Fits};
ghost use Rattle.rv_inst.specs.declared.isa.Isa.{Isa as InstructionSet};
ghost use Rattle.cf_semantics.specs.moves.Instructions.{fetched as what_is_fetched, register, free_trap, src1_of, src2_of, dst_of, Got};
ghost use Rattle.cf_semantics.specs.state.Passengers.{source as source_of, destination as destination_of, fresh as fresh_passenger, fresh_as};
ghost use Rattle.cf_semantics.specs.state.Layouts.{isa_of as set_of};
ghost use Rattle.cf_passengers.specs.Issuing.{blank as blank_passenger, meant};
ghost use Rattle.cf_passengers.specs.Facts.{IsInstruction, IsPassenger};

use crate::guessing::word_after;
use crate::loose;
use cf_bind::{Binding, End, Guess, Passenger};
use cf_ends::Ends;
use cf_layout::Layout;
use mem_regions::Regions;
use rv_inst::{Class, Instr, Isa, class_of, decode_as, dest, sources};

/// The instruction set of a processor with this layout: with the M extension if the layout computes it.
#[inline(always)]
pub fn isa_of(layout: &Layout) -> Isa
    ensures { result ≡ set_of layout.now }
{
    loose::isa_of(layout.loose())
}

/// The instruction of the set at the address, or the trap of that address: cause 0 if 4 does not divide it, 1 if no
/// word can be fetched there, and 2 if the word is not an instruction.
#[inline(always)]
#[tactic(auto, using(crate::proofs::Decoded::decoding), unfolding(cf_semantics::specs::moves::Instructions::fetched))]
pub fn fetched(isa: Isa, mem: &Regions, pc: u32) -> Result<Instr, End>
    ensures fetched { meant result ≡ what_is_fetched isa mem.now pc }
    ensures instruction { IfOk result (λ i. IsInstruction isa i) }
    ensures fits { IfOk result (λ i. Fits i) }
{
    if pc % 4 != 0 {
        return Err(End::Trap {
            cause: 0,
            pc,
            detail: pc,
        });
    }
    match mem.fetch(pc) {
        Ok(word) => match decode_as(isa, word) {
            Some(i) => Ok(i),
            None => Err(End::Trap {
                cause: 2,
                pc,
                detail: word,
            }),
        },
        Err(_) => Err(End::Trap {
            cause: 1,
            pc,
            detail: pc,
        }),
    }
}

/// A source, with the cached value of its register, if there is one.
#[inline(always)]
pub(crate) fn source(ends: &Ends, reg: u8) -> Option<Binding>
    requires { reg < 32 }
    ensures { result ≡ source_of ends.now.cache (register reg) }
{
    if reg == 0 {
        None
    } else {
        Some(Binding {
            reg,
            value: ends.cached(reg),
        })
    }
}

/// A destination, whose value is not known yet.
#[inline(always)]
pub(crate) fn destination(rd: u8) -> Option<Binding>
    ensures { result ≡ destination_of (register rd) }
{
    if rd == 0 {
        None
    } else {
        Some(Binding {
            reg: rd,
            value: None,
        })
    }
}

/// The trap of EBREAK; FENCE has none.
#[inline(always)]
#[tactic(auto, unfolding(cf_semantics::specs::moves::Instructions::free_trap))]
fn trap_when_free(i: Instr, pc: u32) -> Option<End>
    ensures { result ≡ free_trap i pc }
{
    match i {
        Instr::Ebreak => Some(End::Trap {
            cause: 3,
            pc,
            detail: pc,
        }),
        _ => None,
    }
}

/// What is issued at the address with the guess, before anything else of it is known.
#[inline(always)]
pub fn blank(pc: u32, guess: Guess) -> Passenger
    ensures { result ≡ blank_passenger pc guess }
{
    Passenger {
        pc,
        what: None,
        guess,
        src1: None,
        src2: None,
        dst: None,
        done: false,
        launched: false,
        recovered: false,
        next: None,
        ending: None,
        owes: None,
        dead: false,
    }
}

/// The instruction ends the program as soon as it is issued.
#[inline(always)]
fn end_at_once(p: &mut Passenger, end: End)
    ensures { p.new ≡ record p.old { done = true; ending = Some end } }
{
    p.done = true;
    p.ending = Some(end);
}

/// The instruction still has to be computed, or to be answered by the environment: it gets its sources and its
/// destination.
#[inline(always)]
#[tactic(auto, unfolding(cf_semantics::specs::moves::Instructions::src1_of, cf_semantics::specs::moves::Instructions::src2_of, cf_semantics::specs::moves::Instructions::dst_of))]
fn bind(p: &mut Passenger, ends: &Ends, i: Instr)
    requires { Fits i }
    ensures { p.new ≡ record p.old { src1 = source_of ends.now.cache (src1_of i); src2 = source_of ends.now.cache (src2_of i); dst = destination_of (dst_of i) } }
{
    let (first, second) = sources(i);
    p.src1 = source(ends, first);
    p.src2 = source(ends, second);
    p.dst = destination(dest(i));
}

/// The instruction is done as soon as it is issued: EBREAK, which ends the program, or FENCE, which has nothing to do.
#[inline(always)]
fn free(p: &mut Passenger, i: Instr)
    requires { p.old ≡ record (blank_passenger p.old.pc p.old.guess) { what = Some i } }
    ensures { p.new ≡ fresh_as Class.Free [] i p.old.pc p.old.guess }
{
    match trap_when_free(i, p.pc) {
        Some(end) => end_at_once(p, end),
        None => {
            p.done = true;
            p.next = Some(word_after(p.pc));
        }
    }
}

/// The decoded instruction is issued in its place.
#[inline(always)]
#[tactic(auto, using(crate::proofs::Kept::issuing), unfolding(cf_semantics::specs::moves::Instructions::kind_of, cf_semantics::specs::state::Passengers::fresh))]
fn issue_decoded(p: &mut Passenger, ends: &Ends, i: Instr)
    requires blank { p.old ≡ blank_passenger p.old.pc p.old.guess }
    requires fits { Fits i }
    ensures { p.new ≡ fresh_passenger ends.now.cache (Got i) p.old.pc p.old.guess }
{
    p.what = Some(i);
    match class_of(i) {
        Class::Free => free(p, i),
        _ => bind(p, ends, i),
    }
}

/// What was fetched at the address of the blank `Passenger` is issued in its place. A trap or EBREAK is done and ends the
/// program there; FENCE is done. Any other has its sources and its destination, without x0; a source has the cached
/// value of its register, if there is one.
#[inline(always)]
#[tactic(auto, using(crate::proofs::Kept::issuing), unfolding(cf_semantics::specs::state::Passengers::fresh))]
pub fn issue(p: &mut Passenger, ends: &Ends, fetched: Result<Instr, End>)
    requires blank { p.old ≡ blank_passenger p.old.pc p.old.guess }
    requires fits { IfOk fetched (λ i. Fits i) }
    ensures passenger { p.new ≡ fresh_passenger ends.now.cache (meant fetched) p.old.pc p.old.guess }
    ensures facts { (isa : InstructionSet) → IfOk fetched (λ i. IsInstruction isa i) → IsPassenger isa p.new }
{
    match fetched {
        Ok(i) => issue_decoded(p, ends, i),
        Err(end) => end_at_once(p, end),
    }
}
