//! Whether the environment gives the instruction of the highest stage the same answer as the machine.

ghost use Rattle.std.specs.Prelude.{◌≡◌, ◌↔◌, [], IfOk, IsTrue};
ghost use Rattle.cf_passengers.specs.Issuing.{meant};
ghost use Rattle.cf_semantics.specs.moves.Instructions.{Got, fetched as what_is_fetched, serve_of};
ghost use Rattle.cf_semantics.specs.state.Layouts.{isa_of as set_of};
ghost use Rattle.mem_changes.specs.Differing.{AreChanges, AreChangesOf};
ghost use Rattle.order_judging.specs.Judgements.{IsServeThat, IsServedApart, IsServedAs, at_top};
ghost use Rattle.order_judging.specs.Places.{machine_memory};
ghost use Rattle.order_judging.specs.ReplyClaims.{IsReply};

use crate::replies::Reply;
use crate::retiring::same_instruction;
use cf_bind::{End, Move, Passenger};
use cf_layout::LooseLayout;
use cf_passengers::loose::isa_of;
use cf_passengers::{fetched, instruction};
use mem_changes::{Changes, Image};
use mem_regions::Regions;
use order_machine::Waypoint;
use order_model::Situation;
use rv_inst::{Instr, Isa};
use std::alloc::{AllocError, Global};

/// The instruction of the machine's next step, or its trap; the memory is left as it is.
fn instruction_at(
    isa: Isa,
    image: &Image,
    mem: &mut Regions,
    changes: &Changes,
    place: &Waypoint,
) -> Result<Instr, End>
    requires changes { AreChangesOf image.now mem.old changes.now }
    requires place { AreChanges image.now place.now.changes }
    ensures kept { mem.new ≡ mem.old }
    ensures what { meant result ≡ what_is_fetched isa (machine_memory image.now place.now) place.now.pc }
{
    changes.turn_into(&place.changes, image, mem);
    let what = fetched(isa, mem, place.pc);
    place.changes.turn_into(changes, image, mem);
    what
}

/// Whether the instruction was fetched.
fn is_fetched(what: Result<Instr, End>, i: &Instr) -> bool
    ensures { IsTrue result ↔ (meant what ≡ Got i.now) }
{
    match what {
        Ok(other) => same_instruction(&other, i),
        Err(_) => false,
    }
}

/// The environment's answer to the instruction, as the machine would get it; the memory is left as it is.
fn reply_at(
    alloc: Global,
    image: &Image,
    mem: &mut Regions,
    changes: &Changes,
    place: &Waypoint,
    i: Instr,
) -> Result<Reply, AllocError>
    requires changes { AreChangesOf image.now mem.old changes.now }
    requires place { AreChanges image.now place.now.changes }
    ensures kept { mem.new ≡ mem.old }
    ensures reply { IfOk result (λ a. IsReply image.now (machine_memory image.now place.now)
        (serve_of i place.now.regs (machine_memory image.now place.now) []) a) }
{
    changes.turn_into(&place.changes, image, mem);
    let reply = Reply::to(alloc, image, mem, &place.changes, i, &place.regs);
    place.changes.turn_into(changes, image, mem);
    reply
}

/// Whether the instruction with these registers gets the same answer from the environment as the machine would.
#[tactic(auto, using(crate::proofs::SameReplies::replies_of_calls))]
fn is_answered_as(
    alloc: Global,
    image: &Image,
    mem: &mut Regions,
    changes: &Changes,
    place: &Waypoint,
    i: Instr,
    regs: &[u32; 32],
) -> Result<bool, AllocError>
    requires changes { AreChangesOf image.now mem.old changes.now }
    requires place { AreChanges image.now place.now.changes }
    ensures kept { mem.new ≡ mem.old }
    ensures same { IfOk result (λ same. IsTrue same
        ↔ (serve_of i regs.now mem.old [] ≡ serve_of i place.now.regs (machine_memory image.now place.now) [])) }
{
    let _ = image.memory();
    let here = Reply::to(alloc, image, mem, changes, i, regs)?;
    let there = reply_at(alloc, image, mem, changes, place, i)?;
    Ok(here.same(&there))
}

/// Whether the instruction is the machine's next one, and with these registers gets the same answer as the machine.
fn is_served_as(
    alloc: Global,
    isa: Isa,
    image: &Image,
    mem: &mut Regions,
    changes: &Changes,
    place: &Waypoint,
    regs: &[u32; 32],
    p: &Passenger,
) -> Result<bool, AllocError>
    requires changes { AreChangesOf image.now mem.old changes.now }
    requires place { AreChanges image.now place.now.changes }
    ensures kept { mem.new ≡ mem.old }
    ensures same { IfOk result (λ same. IsTrue same ↔ IsServedAs isa image.now place.now regs.now mem.old p.now) }
{
    if p.pc != place.pc {
        return Ok(false);
    }
    let i = instruction(p);
    let what = instruction_at(isa, image, mem, changes, place);
    if !is_fetched(what, &i) {
        return Ok(false);
    }
    is_answered_as(alloc, image, mem, changes, place, i, regs)
}

/// The instruction of the highest stage.
fn top(layout: &LooseLayout, s: &Situation) -> Option<Passenger>
    ensures { result ≡ at_top layout.now s.now }
{
    match s.cell(layout.stages() as usize) {
        Some(cell) => cell.passenger,
        None => None,
    }
}

/// Whether the instruction of the highest stage is not the machine's next one, or gets a different answer.
fn is_served_apart(
    alloc: Global,
    layout: &LooseLayout,
    image: &Image,
    mem: &mut Regions,
    changes: &Changes,
    place: &Waypoint,
    s: &Situation,
) -> Result<bool, AllocError>
    requires changes { AreChangesOf image.now mem.old changes.now }
    requires place { AreChanges image.now place.now.changes }
    ensures kept { mem.new ≡ mem.old }
    ensures apart { IfOk result (λ apart. IsTrue apart
        ↔ IsServedApart (set_of layout.now) image.now place.now s.now.regs mem.old (at_top layout.now s.now)) }
{
    let Some(p) = top(layout, s) else {
        return Ok(false);
    };
    let same = is_served_as(
        alloc,
        isa_of(layout),
        image,
        mem,
        changes,
        place,
        s.regs(),
        &p,
    )?;
    Ok(!same)
}

/// Whether the move is Serve, and the environment's answer differs from the answer to the machine.
pub(crate) fn serves_apart(
    alloc: Global,
    layout: &LooseLayout,
    image: &Image,
    mem: &mut Regions,
    changes: &Changes,
    place: &Waypoint,
    s: &Situation,
    m: Move,
) -> Result<bool, AllocError>
    requires changes { AreChangesOf image.now mem.old changes.now }
    requires place { AreChanges image.now place.now.changes }
    ensures kept { mem.new ≡ mem.old }
    ensures apart { IfOk result (λ apart. IsTrue apart
        ↔ IsServeThat m (IsServedApart (set_of layout.now) image.now place.now s.now.regs mem.old (at_top layout.now s.now))) }
{
    let Move::Serve = m else {
        return Ok(false);
    };
    is_served_apart(alloc, layout, image, mem, changes, place, s)
}
