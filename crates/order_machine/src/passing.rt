//! The sequential machine between two instructions, as values.

ghost use Rattle.std.specs.Prelude.{◌≡◌, ◌+◌, ◌<◌, ◌≤◌, ◌^◌, ◌⊎◌, IfOk, IsTrue, length};
ghost use Rattle.mem_changes.specs.Differing.{AreChangesOf};
ghost use Rattle.order_machine.specs.NextSteps.{IsStepMade};
ghost use Rattle.order_machine.specs.Waypoints.{AreWaypoints, ends_at_last, is_end, machine_of};

use crate::stepping::{NextStep, advance};
use mem_changes::{Changes, Image};
use rv_inst::Isa;
use rv_machine::Machine;
use std::alloc::{AllocError, Global};
use std::marker::Model;

/// The machine between two instructions.
#[derive(Drop)]
pub struct Waypoint {
    /// The address of its next instruction.
    pub pc: u32,

    /// Its registers.
    pub regs: [u32; 32],

    /// How its memory differs from the memory as it was loaded.
    pub changes: Changes,

    /// What its next step does.
    pub next: NextStep,
}

impl Model for Waypoint {
    ghost use Rattle.order_machine.specs.Waypoints.{MachinePlace};

    ghost Value = { MachinePlace };

    ghost view = { λ w. record { pc = w.pc; regs = w.regs; changes = w.changes; next = w.next } };
}

impl Waypoint {
    /// Whether the next step ends the program.
    fn is_last(&self) -> bool
        ensures { result ≡ is_end self.now.next }
    {
        matches!(self.next, NextStep::Ends(_))
    }
}

/// Where the machine is, and what its next step does; the step is made.
fn pass(
    alloc: Global,
    isa: Isa,
    image: &Image,
    machine: &mut Machine,
    changes: &mut Changes,
) -> Result<Waypoint, AllocError>
    requires count { machine.old.retired + 1 < 2 ^ 64 }
    requires changes { AreChangesOf image.now machine.old.mem changes.old }
    ensures pc { IfOk result (λ place. place.pc ≡ machine.old.pc) }
    ensures regs { IfOk result (λ place. place.regs ≡ machine.old.regs) }
    ensures was { IfOk result (λ place. AreChangesOf image.now machine.old.mem place.changes) }
    ensures taken { IfOk result (λ place. IsStepMade isa machine.old machine.new place.next) }
    ensures changes { IfOk result (λ place. AreChangesOf image.now machine.new.mem changes.new) }
    ensures count { machine.new.retired ≤ machine.old.retired + 1 }
{
    let pc = machine.pc();
    let regs = *machine.regs();
    let was = changes.copy()?;
    let next = advance(alloc, isa, image, machine, changes)?;
    Ok(Waypoint {
        pc,
        regs,
        changes: was,
        next,
    })
}

/// The places of the machine before its first step, after one step, and so on, up to this many steps, or up to the step
/// that ends the program. Nothing is left of the input.
#[tactic(auto, using(crate::proofs::Passed::passing))]
pub fn waypoints(
    alloc: Global,
    isa: Isa,
    image: &Image,
    machine: Machine,
    most: u32,
) -> Result<Vec<Waypoint>, AllocError>
    requires loaded { machine.mem ≡ image.now }
    requires count { machine.retired + most + 1 < 2 ^ 64 }
    ensures places { IfOk result (λ places. AreWaypoints isa image.now (machine_of machine) 0 places.items) }
    ensures enough { IfOk result (λ places. (length places.items ≡ most + 1) ⊎ IsTrue (ends_at_last places.items)) }
{
    let mut machine = machine;
    let mut changes = Changes::none(alloc, image);
    let mut places = Vec::new(alloc);
    for _step in 0..u64::from(most) + 1 {
        let place = pass(alloc, isa, image, &mut machine, &mut changes)?;
        let last = place.is_last();
        places.push(place)?;
        if last {
            return Ok(places);
        }
    }
    Ok(places)
}
