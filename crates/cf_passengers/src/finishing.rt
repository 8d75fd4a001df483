//! How an instruction is finished: it is computed, it traps, its operation comes back, or the environment answers.

ghost use Rattle.std.specs.Prelude.{◌≡◌, false, true, IfNone, IsTrue};
ghost use Rattle.rv_inst.specs.declared.isa.Isa.{Isa as InstructionSet};
ghost use Rattle.rv_mul.specs.Values.{computes};
ghost use Rattle.cf_bind.specs.declared.passenger.End.TheVariants as ending;
ghost use Rattle.cf_semantics.specs.moves.Instructions.{finish_trap};
ghost use Rattle.cf_semantics.specs.state.Passengers.{kind as kind_of_passenger, is_place, with_value as valued, value_packet, trapped as trapped_by, finished as finished_at, finish as finished_by};
ghost use Rattle.cf_semantics.specs.moves.Moves.{back_in as comes_back, answered as answered_by};
ghost use Rattle.cf_passengers.specs.Facts.{IsPassenger};

use crate::guessing::{guessed, is_control, word_after};
use crate::reading::{instruction, value_in};
use cf_bind::{Binding, End, Packet, Passenger};
use rv_inst::{Instr, class_of, next_of};
use rv_mul::value;

/// The trap of a branch or a jump whose next address is not a multiple of 4.
#[inline(always)]
#[tactic(auto, unfolding(cf_semantics::specs::moves::Instructions::finish_trap, cf_semantics::specs::moves::Instructions::kind_of))]
fn misaligned(i: Instr, pc: u32, a: u32, b: u32) -> Option<End>
    ensures { result ≡ finish_trap i pc a b }
{
    let next = next_of(i, pc, a, b);
    if is_control(class_of(i)) && next % 4 != 0 {
        Some(End::Trap {
            cause: 0,
            pc,
            detail: next,
        })
    } else {
        None
    }
}

/// Whether the guess was this address.
#[inline(always)]
fn was_guessed(guess: Option<u32>, next: u32) -> bool
    ensures { result ≡ is_place guess next }
{
    match guess {
        Some(pc) => pc == next,
        None => false,
    }
}

/// A destination with its value.
#[inline(always)]
fn with_value(destination: Option<Binding>, value: u32) -> Option<Binding>
    ensures { result ≡ valued value destination }
{
    match destination {
        Some(Binding { reg, .. }) => Some(Binding {
            reg,
            value: Some(value),
        }),
        None => None,
    }
}

/// The result that carries a destination's value.
#[inline(always)]
fn value_of(destination: Option<Binding>, value: u32) -> Option<Packet>
    ensures { result ≡ value_packet value destination }
{
    match destination {
        Some(Binding { reg, .. }) => Some(Packet::Value { reg, value }),
        None => None,
    }
}

/// What a finished instruction owes: a turn to `next` if the guess was another address, and otherwise its value.
#[inline(always)]
fn owed(p: &Passenger, next: u32, value: u32) -> Option<Packet>
    ensures { result ≡ (finished_at p.now next value).owes }
{
    if was_guessed(guessed(p.guess, instruction(p), p.pc), next) {
        value_of(p.dst, value)
    } else {
        Some(Packet::Turn(next))
    }
}

/// The instruction is finished: it has the value, and the program goes on at `next`.
#[inline(always)]
fn complete(p: &mut Passenger, next: u32, value: u32)
    ensures { p.new ≡ finished_at p.old next value }
{
    p.owes = owed(p, next, value);
    p.dst = with_value(p.dst, value);
    p.next = Some(next);
    p.done = true;
}

/// The instruction traps: it is done, and owes a halt to what was fetched after it.
#[inline(always)]
pub fn trap(p: &mut Passenger, end: End)
    ensures passenger { p.new ≡ trapped_by p.old end }
    ensures facts { (isa : InstructionSet) → IsPassenger isa p.old → IsPassenger isa p.new }
{
    p.done = true;
    p.ending = Some(end);
    p.owes = Some(Packet::Halt);
}

/// The instruction finishes, with the answer of memory or, without one, with what its unit computes. A branch or a jump
/// whose next address is not a multiple of 4 traps.
#[inline(always)]
#[tactic(auto, using(crate::proofs::Classes::finishing), unfolding(cf_semantics::specs::state::Passengers::finish, cf_semantics::specs::moves::Instructions::kind_of))]
pub fn finish(p: &mut Passenger, answer: Option<u32>)
    requires computing { IfNone answer (IsTrue (computes (kind_of_passenger p.old))) }
    ensures passenger { p.new ≡ finished_by p.old answer }
    ensures facts { (isa : InstructionSet) → IsPassenger isa p.old → IsPassenger isa p.new }
{
    let i = instruction(p);
    let a = value_in(p.src1);
    let b = value_in(p.src2);
    if let Some(end) = misaligned(i, p.pc, a, b) {
        trap(p, end);
        return;
    }
    let value = match answer {
        Some(value) => value,
        None => value(i, p.pc, a, b),
    };
    complete(p, next_of(i, p.pc, a, b), value);
}

/// The instruction takes its operation back; a live one finishes.
#[inline(always)]
pub fn recover(p: &mut Passenger, answer: Option<u32>)
    requires computing { p.old.dead ≡ false → IfNone answer (IsTrue (computes (kind_of_passenger p.old))) }
    ensures passenger { p.new ≡ comes_back p.old answer }
    ensures facts { (isa : InstructionSet) → IsPassenger isa p.old → IsPassenger isa p.new }
{
    p.recovered = true;
    if !p.dead {
        finish(p, answer);
    }
}

/// The environment has answered the instruction. All that was fetched after it must be fetched again.
#[inline(always)]
pub fn answered(p: Passenger, value: u32) -> Passenger
    ensures passenger { result ≡ answered_by p value }
    ensures facts { (isa : InstructionSet) → IsPassenger isa p → IsPassenger isa result }
{
    let next = word_after(p.pc);
    Passenger {
        done: true,
        dst: with_value(p.dst, value),
        next: Some(next),
        owes: Some(Packet::Turn(next)),
        ..p
    }
}

/// The instruction is a call that ends the program with this status.
#[inline(always)]
pub fn quits(p: Passenger, status: u8) -> Passenger
    ensures passenger { result ≡ record p { done = true; ending = Some (ending.Exit status) } }
    ensures facts { (isa : InstructionSet) → IsPassenger isa p → IsPassenger isa result }
{
    Passenger {
        done: true,
        ending: Some(End::Exit(status)),
        ..p
    }
}
