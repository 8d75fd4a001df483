//! The operation of an instruction, and whether it may be launched.

ghost use Rattle.std.specs.Prelude.{◌≡◌, IfSome};
ghost use Rattle.rv_inst.specs.declared.isa.Isa.{Isa as InstructionSet};
ghost use Rattle.mem_regions.specs.Access.{bounds_of};
ghost use Rattle.cf_semantics.specs.moves.Moves.{operation as operation_of};
ghost use Rattle.cf_passengers.specs.Launching.{trap_at_launch};
ghost use Rattle.cf_passengers.specs.Facts.{IsInstruction, IsOperation, IsPassenger};

use crate::reading::{instruction, kind, value_in};
use cf_bind::{End, Op, Passenger};
use mem_regions::{MemErr, Regions};
use rv_inst::{Class, access_of};

/// The operation of the instruction, which has no answer yet.
#[inline(always)]
pub fn operation(p: &Passenger) -> Op
    ensures operation { result ≡ operation_of p.now }
    ensures facts { (isa : InstructionSet) → IfSome p.now.what (λ i. IsInstruction isa i) → IsOperation isa result }
{
    Op {
        pc: p.pc,
        instr: instruction(p),
        a: value_in(p.src1),
        b: value_in(p.src2),
        answer: None,
    }
}

/// The trap of a load or a store that memory does not permit: cause 4 or 6 if the width does not divide the address,
/// and 5 or 7 if the bytes do not lie in a region that permits it, the lower for a load and the higher for a store.
/// Other instructions have no such trap.
#[inline(always)]
#[tactic(auto, unfolding(cf_semantics::specs::moves::Instructions::access_trap, cf_semantics::specs::moves::Instructions::kind_of))]
pub fn launch_trap(p: &Passenger, mem: &Regions) -> Option<End>
    ensures { result ≡ trap_at_launch p.now (bounds_of mem.now) }
{
    match kind(p) {
        Class::Memory => {
            let access = access_of(instruction(p), value_in(p.src1), 0);
            match mem.permits(access.addr, access.width, access.write) {
                Ok(()) => None,
                Err(MemErr::Misaligned) => Some(End::Trap {
                    cause: if access.write { 6 } else { 4 },
                    pc: p.pc,
                    detail: access.addr,
                }),
                Err(MemErr::NoAccess) => Some(End::Trap {
                    cause: if access.write { 7 } else { 5 },
                    pc: p.pc,
                    detail: access.addr,
                }),
            }
        }
        _ => None,
    }
}
