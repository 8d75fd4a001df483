//! Instructions in keys: the number of the form, then the fields.

ghost use Rattle.std.specs.Prelude.{◌≡◌};
ghost use Rattle.order_keys.specs.Instructions.{form_number, far_form, near_form};

use crate::pack::Pack;
use crate::unread::Unread;
use rv_inst::{Cond, ImmOp, Instr, LoadKind, MulOp, RegOp, StoreKind};
use std::alloc::AllocError;

/// Reads the fields of an instruction that jumps, branches or uses memory, by the number of its form.
#[tactic(auto, unfolding(crate::specs::Instructions::far_form))]
fn unpack_far(form: u8, key: &mut Unread<'_>) -> Instr
    ensures value { result ≡ (far_form form key.old).value }
    ensures left { key.new ≡ (far_form form key.old).left }
{
    match form {
        0 => {
            let (rd, imm) = <(u8, i32)>::unpack(key);
            Instr::Jal { rd, imm }
        }
        1 => {
            let (rd, rs1, imm) = <(u8, u8, i32)>::unpack(key);
            Instr::Jalr { rd, rs1, imm }
        }
        2 => {
            let (cond, (rs1, rs2, imm)) = <(Cond, (u8, u8, i32))>::unpack(key);
            Instr::Branch {
                cond,
                rs1,
                rs2,
                imm,
            }
        }
        3 => {
            let (kind, (rd, rs1, imm)) = <(LoadKind, (u8, u8, i32))>::unpack(key);
            Instr::Load { kind, rd, rs1, imm }
        }
        4 => {
            let (kind, (rs1, rs2, imm)) = <(StoreKind, (u8, u8, i32))>::unpack(key);
            Instr::Store {
                kind,
                rs1,
                rs2,
                imm,
            }
        }
        5 => {
            let (rd, rs1, imm) = <(u8, u8, u32)>::unpack(key);
            Instr::Fence { rd, rs1, imm }
        }
        _ => {
            let (rd, rs1, imm) = <(u8, u8, u32)>::unpack(key);
            Instr::FenceI { rd, rs1, imm }
        }
    }
}

/// Reads the fields of any other instruction, by the number of its form.
#[tactic(auto, unfolding(crate::specs::Instructions::near_form))]
fn unpack_near(form: u8, key: &mut Unread<'_>) -> Instr
    ensures value { result ≡ (near_form form key.old).value }
    ensures left { key.new ≡ (near_form form key.old).left }
{
    match form {
        7 => {
            let (rd, imm) = <(u8, u32)>::unpack(key);
            Instr::Lui { rd, imm }
        }
        8 => {
            let (rd, imm) = <(u8, u32)>::unpack(key);
            Instr::Auipc { rd, imm }
        }
        9 => {
            let (op, (rd, rs1, imm)) = <(ImmOp, (u8, u8, i32))>::unpack(key);
            Instr::OpImm { op, rd, rs1, imm }
        }
        10 => {
            let (op, (rd, rs1, rs2)) = <(RegOp, (u8, u8, u8))>::unpack(key);
            Instr::Op { op, rd, rs1, rs2 }
        }
        11 => {
            let (op, (rd, rs1, rs2)) = <(MulOp, (u8, u8, u8))>::unpack(key);
            Instr::Mul { op, rd, rs1, rs2 }
        }
        12 => Instr::Ecall,
        _ => Instr::Ebreak,
    }
}

/// The number of the instruction's form.
fn form_of(instruction: Instr) -> u8
    ensures { result ≡ form_number instruction }
{
    match instruction {
        Instr::Jal { .. } => 0,
        Instr::Jalr { .. } => 1,
        Instr::Branch { .. } => 2,
        Instr::Load { .. } => 3,
        Instr::Store { .. } => 4,
        Instr::Fence { .. } => 5,
        Instr::FenceI { .. } => 6,
        Instr::Lui { .. } => 7,
        Instr::Auipc { .. } => 8,
        Instr::OpImm { .. } => 9,
        Instr::Op { .. } => 10,
        Instr::Mul { .. } => 11,
        Instr::Ecall => 12,
        Instr::Ebreak => 13,
    }
}

impl Pack for Instr {
    ghost use Rattle.order_keys.specs.Instructions.{packed_instr, unpacked_instr};

    ghost packed = { packed_instr };

    ghost unpacked = { unpacked_instr };

    #[inline(always)]
    #[tactic(auto, unfolding(crate::specs::Instructions::packed_instr, crate::specs::Instructions::packed_fields))]
    fn pack(&self, key: &mut Vec<u8>) -> Result<(), AllocError> {
        let instruction = *self;
        key.push(form_of(instruction))?;
        match instruction {
            Instr::Jal { rd, imm } => (rd, imm).pack(key),
            Instr::Lui { rd, imm } | Instr::Auipc { rd, imm } => (rd, imm).pack(key),
            Instr::Jalr { rd, rs1, imm } => (rd, rs1, imm).pack(key),
            Instr::Branch {
                cond,
                rs1,
                rs2,
                imm,
            } => (cond, (rs1, rs2, imm)).pack(key),
            Instr::Load { kind, rd, rs1, imm } => (kind, (rd, rs1, imm)).pack(key),
            Instr::Store {
                kind,
                rs1,
                rs2,
                imm,
            } => (kind, (rs1, rs2, imm)).pack(key),
            Instr::Fence { rd, rs1, imm } | Instr::FenceI { rd, rs1, imm } => (rd, rs1, imm).pack(
                key,
            ),
            Instr::OpImm { op, rd, rs1, imm } => (op, (rd, rs1, imm)).pack(key),
            Instr::Op { op, rd, rs1, rs2 } => (op, (rd, rs1, rs2)).pack(key),
            Instr::Mul { op, rd, rs1, rs2 } => (op, (rd, rs1, rs2)).pack(key),
            Instr::Ecall | Instr::Ebreak => Ok(()),
        }
    }

    #[inline(always)]
    #[tactic(auto, unfolding(crate::specs::Instructions::unpacked_instr))]
    fn unpack(key: &mut Unread<'_>) -> Instr {
        let form = key.byte();
        if form < 7 {
            unpack_far(form, key)
        } else {
            unpack_near(form, key)
        }
    }
}
