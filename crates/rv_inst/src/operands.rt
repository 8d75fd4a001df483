//! The registers that an instruction reads and writes, and the operation that it performs.
ghost use Rattle.std.specs.Prelude.{◌≡◌};
ghost use Rattle.rv_inst.specs.Ranges.{Fits, IsRegister};
ghost use Rattle.rv_inst.specs.Operands.{sources_of, dest_of, register_op};

use crate::instruction::{ImmOp, Instr, RegOp};

/// The operation on two registers that an operation with an immediate performs on its register and the immediate.
#[inline(always)]
pub fn register_op(op: ImmOp) -> RegOp
    ensures { result ≡ register_op op }
{
    match op {
        ImmOp::Add => RegOp::Add,
        ImmOp::Slt => RegOp::Slt,
        ImmOp::Sltu => RegOp::Sltu,
        ImmOp::Xor => RegOp::Xor,
        ImmOp::Or => RegOp::Or,
        ImmOp::And => RegOp::And,
        ImmOp::Sll => RegOp::Sll,
        ImmOp::Srl => RegOp::Srl,
        ImmOp::Sra => RegOp::Sra,
    }
}

/// The numbers of the two source registers, 0 if there is none. They are below 32 if the fields are in range.
#[inline(always)]
pub fn sources(i: Instr) -> (u8, u8)
    ensures exact { result ≡ sources_of i }
    ensures registers { Fits i → IsRegister result.0 × IsRegister result.1 }
{
    match i {
        Instr::Jalr { rs1, .. } | Instr::Load { rs1, .. } | Instr::OpImm { rs1, .. } => (rs1, 0),
        Instr::Branch { rs1, rs2, .. }
        | Instr::Store { rs1, rs2, .. }
        | Instr::Op { rs1, rs2, .. }
        | Instr::Mul { rs1, rs2, .. } => (rs1, rs2),
        _ => (0, 0),
    }
}

/// The number of the destination register, 0 if there is none.
#[inline(always)]
fn destination(i: Instr) -> u8
    ensures { result ≡ dest_of i }
{
    match i {
        Instr::Lui { rd, .. }
        | Instr::Auipc { rd, .. }
        | Instr::Jal { rd, .. }
        | Instr::Jalr { rd, .. }
        | Instr::Load { rd, .. }
        | Instr::OpImm { rd, .. }
        | Instr::Op { rd, .. }
        | Instr::Mul { rd, .. } => rd,
        Instr::Ecall => 10,
        _ => 0,
    }
}

/// The number of the destination register, 0 if there is none. An environment call returns its answer in x10. The
/// number is below 32 if the fields are in range.
#[inline(always)]
#[tactic(auto, using(crate::proofs::Destinations::dest_fits))]
pub fn dest(i: Instr) -> u8
    ensures exact { result ≡ dest_of i }
    ensures register { Fits i → IsRegister result }
{
    destination(i)
}
