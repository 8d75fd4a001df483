//! What an instruction computes from its address and its sources.
#![tactic(auto, unfolding(crate::specs::Arithmetic::op_value, crate::specs::Arithmetic::is_taken, crate::specs::Arithmetic::alu_value, crate::specs::Arithmetic::next_pc))]

ghost use Rattle.std.specs.Prelude.{◌≡◌, IsTrue};
ghost use Rattle.rv_inst.specs.Operands.{class_of};
ghost use Rattle.rv_inst.specs.Arithmetic.{op_value, is_taken, is_arithmetic, alu_value, next_pc};

use crate::instruction::{Cond, Instr, RegOp};
use crate::operands::register_op;

#[inline(always)]
fn operate(op: RegOp, a: u32, b: u32) -> u32
    ensures { result ≡ op_value op a b }
{
    match op {
        RegOp::Add => a.wrapping_add(b),
        RegOp::Sub => a.wrapping_sub(b),
        RegOp::Sll => a.wrapping_shl(b),
        RegOp::Slt => u32::from(a.cast_signed() < b.cast_signed()),
        RegOp::Sltu => u32::from(a < b),
        RegOp::Xor => a ^ b,
        RegOp::Srl => a.wrapping_shr(b),
        RegOp::Sra => a.cast_signed().wrapping_shr(b).cast_unsigned(),
        RegOp::Or => a | b,
        RegOp::And => a & b,
    }
}

/// Whether a branch on the condition is taken, if its first source has the value `a` and its second has `b`.
#[inline(always)]
pub fn is_taken(cond: Cond, a: u32, b: u32) -> bool
    ensures { result ≡ is_taken cond a b }
{
    match cond {
        Cond::Eq => a == b,
        Cond::Ne => a != b,
        Cond::Lt => a.cast_signed() < b.cast_signed(),
        Cond::Ge => a.cast_signed() >= b.cast_signed(),
        Cond::Ltu => a < b,
        Cond::Geu => a >= b,
    }
}

/// The value that the instruction at `pc` gives its destination, if its first source has the value `a` and its second
/// has `b`. It is 0 for a branch, which has no destination.
#[inline(always)]
pub fn alu(i: Instr, pc: u32, a: u32, b: u32) -> u32
    requires arithmetic { IsTrue (is_arithmetic (class_of i)) }
    ensures { result ≡ alu_value i pc a b }
{
    match i {
        Instr::Lui { imm, .. } => imm << 12,
        Instr::Auipc { imm, .. } => pc.wrapping_add(imm << 12),
        Instr::Jal { .. } | Instr::Jalr { .. } => pc.wrapping_add(4),
        Instr::OpImm { op, imm, .. } => operate(register_op(op), a, imm.cast_unsigned()),
        Instr::Op { op, .. } => operate(op, a, b),
        _ => 0,
    }
}

/// The address of the instruction to run after the one at `pc`: the target of a jump or of a taken branch, and
/// otherwise `pc + 4`.
#[inline(always)]
pub fn next_of(i: Instr, pc: u32, a: u32, b: u32) -> u32
    ensures { result ≡ next_pc i pc a b }
{
    match i {
        Instr::Jal { imm, .. } => pc.wrapping_add(imm.cast_unsigned()),
        Instr::Jalr { imm, .. } => a.wrapping_add(imm.cast_unsigned()) & !1,
        Instr::Branch { cond, imm, .. } if is_taken(cond, a, b) => {
            pc.wrapping_add(imm.cast_unsigned())
        }
        _ => pc.wrapping_add(4),
    }
}
