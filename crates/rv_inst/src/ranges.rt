//! Which values represent an instruction of the machine.
ghost use Rattle.std.specs.Prelude.{◌↔◌, ◌^◌, IsTrue};
ghost use Rattle.rv_inst.specs.Ranges.{Fits, IsAmount, IsEven, IsImmediate, IsRegister, IsWithin};

use crate::instruction::{ImmOp, Instr};

fn is_register(number: u8) -> bool
    ensures { IsTrue result ↔ IsRegister number }
{
    number < 32
}

fn are_registers(first: u8, second: u8) -> bool
    ensures { IsTrue result ↔ IsRegister first × IsRegister second }
{
    is_register(first) && is_register(second)
}

/// Whether it is a signed number of 12 bits.
fn is_short(imm: i32) -> bool
    ensures { IsTrue result ↔ IsWithin (2 ^ 11) imm }
{
    -0x800 <= imm && imm < 0x800
}

/// Whether it is a shift amount.
fn is_amount(imm: i32) -> bool
    ensures { IsTrue result ↔ IsAmount imm }
{
    0 <= imm && imm < 32
}

/// Whether it is a branch distance.
fn is_branch_distance(imm: i32) -> bool
    ensures { IsTrue result ↔ IsWithin (2 ^ 12) imm × IsEven imm }
{
    -0x1000 <= imm && imm < 0x1000 && imm.unsigned_abs() % 2 == 0
}

/// Whether it is a jump distance.
fn is_jump_distance(imm: i32) -> bool
    ensures { IsTrue result ↔ IsWithin (2 ^ 20) imm × IsEven imm }
{
    -0x10_0000 <= imm && imm < 0x10_0000 && imm.unsigned_abs() % 2 == 0
}

/// Whether it is an immediate of the operation: an amount for a shift, otherwise a signed number of 12 bits.
fn is_immediate(op: ImmOp, imm: i32) -> bool
    ensures { IsTrue result ↔ IsImmediate op imm }
{
    match op {
        ImmOp::Sll | ImmOp::Srl | ImmOp::Sra => is_amount(imm),
        _ => is_short(imm),
    }
}

/// Whether all fields are in range: registers below 32, and each immediate in the range of its format.
pub fn fits(i: Instr) -> bool
    ensures { IsTrue result ↔ Fits i }
{
    match i {
        Instr::Lui { rd, imm } | Instr::Auipc { rd, imm } => is_register(rd) && imm < 0x10_0000,
        Instr::Jal { rd, imm } => is_register(rd) && is_jump_distance(imm),
        Instr::Jalr { rd, rs1, imm } => are_registers(rd, rs1) && is_short(imm),
        Instr::Load { rd, rs1, imm, .. } => are_registers(rd, rs1) && is_short(imm),
        Instr::Branch { rs1, rs2, imm, .. } => are_registers(rs1, rs2) && is_branch_distance(imm),
        Instr::Store { rs1, rs2, imm, .. } => are_registers(rs1, rs2) && is_short(imm),
        Instr::OpImm { op, rd, rs1, imm } => are_registers(rd, rs1) && is_immediate(op, imm),
        Instr::Op { rd, rs1, rs2, .. } | Instr::Mul { rd, rs1, rs2, .. } => {
            are_registers(rd, rs1) && is_register(rs2)
        }
        Instr::Fence { rd, rs1, imm } | Instr::FenceI { rd, rs1, imm } => {
            are_registers(rd, rs1) && imm < 0x1000
        }
        Instr::Ecall | Instr::Ebreak => true,
    }
}
