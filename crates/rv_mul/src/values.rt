//! What an instruction of RV32IM computes from its address and its sources.
#![tactic(auto, unfolding(crate::specs::Values::value_of))]

ghost use Rattle.std.specs.Prelude.{◌≡◌, IsTrue};
ghost use Rattle.rv_inst.specs.Operands.{class_of};
ghost use Rattle.rv_mul.specs.Values.{computes, value_of};

use crate::products::product;
use rv_inst::{Instr, alu};

/// The value that the instruction at `pc` gives its destination, if its first source has the value `a` and its second
/// has `b`. It is 0 for a branch, which has no destination.
#[inline(always)]
pub fn value(i: Instr, pc: u32, a: u32, b: u32) -> u32
    requires computing { IsTrue (computes (class_of i)) }
    ensures { result ≡ value_of i pc a b }
{
    match i {
        Instr::Mul { op, .. } => product(op, a, b),
        _ => alu(i, pc, a, b),
    }
}
