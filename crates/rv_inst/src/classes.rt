//! The class of an instruction: which kind of unit computes it.
ghost use Rattle.std.specs.Prelude.{◌≡◌};
ghost use Rattle.rv_inst.specs.Operands.{class_of, op_class, mul_op_class};

use crate::instruction::{Instr, MulOp, RegOp};
use crate::operands::register_op;

/// The classes of instructions.
#[derive(Clone, Copy, PartialEq, Eq)]
pub enum Class {
    /// LUI, AUIPC, ADDI, ADD and SUB.
    Add,
    /// XORI, ORI, ANDI, XOR, OR and AND.
    Logic,
    /// SLLI, SRLI, SRAI, SLL, SRL and SRA.
    Shift,
    /// SLTI, SLTIU, SLT and SLTU.
    Compare,
    /// The six conditional branches.
    Branch,
    /// JAL and JALR.
    Jump,
    /// Loads and stores.
    Memory,
    /// ECALL and FENCE.I, which need the whole machine.
    Serial,
    /// FENCE and EBREAK, which need no unit.
    Free,
    /// MUL, MULH, MULHSU and MULHU.
    Mul,
    /// DIV, DIVU, REM and REMU.
    Div,
}

#[inline(always)]
fn op_class(op: RegOp) -> Class
    ensures { result ≡ op_class op }
{
    match op {
        RegOp::Add | RegOp::Sub => Class::Add,
        RegOp::Xor | RegOp::Or | RegOp::And => Class::Logic,
        RegOp::Sll | RegOp::Srl | RegOp::Sra => Class::Shift,
        RegOp::Slt | RegOp::Sltu => Class::Compare,
    }
}

#[inline(always)]
fn mul_op_class(op: MulOp) -> Class
    ensures { result ≡ mul_op_class op }
{
    match op {
        MulOp::Mul | MulOp::Mulh | MulOp::Mulhsu | MulOp::Mulhu => Class::Mul,
        MulOp::Div | MulOp::Divu | MulOp::Rem | MulOp::Remu => Class::Div,
    }
}

/// The class of the instruction.
#[inline(always)]
pub fn class_of(i: Instr) -> Class
    ensures { result ≡ class_of i }
{
    match i {
        Instr::Lui { .. } | Instr::Auipc { .. } => Class::Add,
        Instr::Jal { .. } | Instr::Jalr { .. } => Class::Jump,
        Instr::Branch { .. } => Class::Branch,
        Instr::Load { .. } | Instr::Store { .. } => Class::Memory,
        Instr::OpImm { op, .. } => op_class(register_op(op)),
        Instr::Op { op, .. } => op_class(op),
        Instr::Fence { .. } | Instr::Ebreak => Class::Free,
        Instr::Ecall | Instr::FenceI { .. } => Class::Serial,
        Instr::Mul { op, .. } => mul_op_class(op),
    }
}
