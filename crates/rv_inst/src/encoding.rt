//! The word that encodes an instruction.
ghost use Rattle.std.specs.Prelude.{◌≡◌, ◌^◌, ℕ, ◌<◌, IsTrue};
ghost use Rattle.rv_inst.specs.Encoding.{Encodes, is_base};
ghost use Rattle.rv_inst.specs.Ranges.{Fits};
ghost use Rattle.rv_inst.specs.Decoding.{decoded, decoded_m};

use crate::instruction::{Cond, ImmOp, Instr, LoadKind, MulOp, RegOp, StoreKind};
use crate::opcodes::{AUIPC, BRANCH, JAL, JALR, LOAD, LUI, MISC_MEM, OP, OP_IMM, STORE};
use crate::packing::{pack_b, pack_fence, pack_i, pack_j, pack_r, pack_s, pack_shift, pack_u};

fn encode_branch(cond: Cond, rs1: u8, rs2: u8, imm: i32) -> u32
    requires { Fits (Instr.Branch cond rs1 rs2 imm) }
    ensures { Encodes result (Instr.Branch cond rs1 rs2 imm) }
{
    match cond {
        Cond::Eq => pack_b(BRANCH, 0b000, rs1, rs2, imm),
        Cond::Ne => pack_b(BRANCH, 0b001, rs1, rs2, imm),
        Cond::Lt => pack_b(BRANCH, 0b100, rs1, rs2, imm),
        Cond::Ge => pack_b(BRANCH, 0b101, rs1, rs2, imm),
        Cond::Ltu => pack_b(BRANCH, 0b110, rs1, rs2, imm),
        Cond::Geu => pack_b(BRANCH, 0b111, rs1, rs2, imm),
    }
}

fn encode_load(kind: LoadKind, rd: u8, rs1: u8, imm: i32) -> u32
    requires { Fits (Instr.Load kind rd rs1 imm) }
    ensures { Encodes result (Instr.Load kind rd rs1 imm) }
{
    match kind {
        LoadKind::Byte => pack_i(LOAD, 0b000, rd, rs1, imm),
        LoadKind::Half => pack_i(LOAD, 0b001, rd, rs1, imm),
        LoadKind::Word => pack_i(LOAD, 0b010, rd, rs1, imm),
        LoadKind::ByteU => pack_i(LOAD, 0b100, rd, rs1, imm),
        LoadKind::HalfU => pack_i(LOAD, 0b101, rd, rs1, imm),
    }
}

fn encode_store(kind: StoreKind, rs1: u8, rs2: u8, imm: i32) -> u32
    requires { Fits (Instr.Store kind rs1 rs2 imm) }
    ensures { Encodes result (Instr.Store kind rs1 rs2 imm) }
{
    match kind {
        StoreKind::Byte => pack_s(STORE, 0b000, rs1, rs2, imm),
        StoreKind::Half => pack_s(STORE, 0b001, rs1, rs2, imm),
        StoreKind::Word => pack_s(STORE, 0b010, rs1, rs2, imm),
    }
}

fn encode_imm_op(op: ImmOp, rd: u8, rs1: u8, imm: i32) -> u32
    requires { Fits (Instr.OpImm op rd rs1 imm) }
    ensures { Encodes result (Instr.OpImm op rd rs1 imm) }
{
    match op {
        ImmOp::Add => pack_i(OP_IMM, 0b000, rd, rs1, imm),
        ImmOp::Slt => pack_i(OP_IMM, 0b010, rd, rs1, imm),
        ImmOp::Sltu => pack_i(OP_IMM, 0b011, rd, rs1, imm),
        ImmOp::Xor => pack_i(OP_IMM, 0b100, rd, rs1, imm),
        ImmOp::Or => pack_i(OP_IMM, 0b110, rd, rs1, imm),
        ImmOp::And => pack_i(OP_IMM, 0b111, rd, rs1, imm),
        ImmOp::Sll => pack_shift(OP_IMM, 0b001, 0b000_0000, rd, rs1, imm),
        ImmOp::Srl => pack_shift(OP_IMM, 0b101, 0b000_0000, rd, rs1, imm),
        ImmOp::Sra => pack_shift(OP_IMM, 0b101, 0b010_0000, rd, rs1, imm),
    }
}

fn encode_op(op: RegOp, rd: u8, rs1: u8, rs2: u8) -> u32
    requires { Fits (Instr.Op op rd rs1 rs2) }
    ensures { Encodes result (Instr.Op op rd rs1 rs2) }
{
    match op {
        RegOp::Add => pack_r(OP, 0b000, 0b000_0000, rd, rs1, rs2),
        RegOp::Sub => pack_r(OP, 0b000, 0b010_0000, rd, rs1, rs2),
        RegOp::Sll => pack_r(OP, 0b001, 0b000_0000, rd, rs1, rs2),
        RegOp::Slt => pack_r(OP, 0b010, 0b000_0000, rd, rs1, rs2),
        RegOp::Sltu => pack_r(OP, 0b011, 0b000_0000, rd, rs1, rs2),
        RegOp::Xor => pack_r(OP, 0b100, 0b000_0000, rd, rs1, rs2),
        RegOp::Srl => pack_r(OP, 0b101, 0b000_0000, rd, rs1, rs2),
        RegOp::Sra => pack_r(OP, 0b101, 0b010_0000, rd, rs1, rs2),
        RegOp::Or => pack_r(OP, 0b110, 0b000_0000, rd, rs1, rs2),
        RegOp::And => pack_r(OP, 0b111, 0b000_0000, rd, rs1, rs2),
    }
}

fn encode_mul_op(op: MulOp, rd: u8, rs1: u8, rs2: u8) -> u32
    requires { Fits (Instr.Mul op rd rs1 rs2) }
    ensures { Encodes result (Instr.Mul op rd rs1 rs2) }
{
    match op {
        MulOp::Mul => pack_r(OP, 0b000, 0b000_0001, rd, rs1, rs2),
        MulOp::Mulh => pack_r(OP, 0b001, 0b000_0001, rd, rs1, rs2),
        MulOp::Mulhsu => pack_r(OP, 0b010, 0b000_0001, rd, rs1, rs2),
        MulOp::Mulhu => pack_r(OP, 0b011, 0b000_0001, rd, rs1, rs2),
        MulOp::Div => pack_r(OP, 0b100, 0b000_0001, rd, rs1, rs2),
        MulOp::Divu => pack_r(OP, 0b101, 0b000_0001, rd, rs1, rs2),
        MulOp::Rem => pack_r(OP, 0b110, 0b000_0001, rd, rs1, rs2),
        MulOp::Remu => pack_r(OP, 0b111, 0b000_0001, rd, rs1, rs2),
    }
}

fn encode_word(i: Instr) -> u32
    requires { Fits i }
    ensures { Encodes result i }
{
    match i {
        Instr::Lui { rd, imm } => pack_u(LUI, rd, imm),
        Instr::Auipc { rd, imm } => pack_u(AUIPC, rd, imm),
        Instr::Jal { rd, imm } => pack_j(JAL, rd, imm),
        Instr::Jalr { rd, rs1, imm } => pack_i(JALR, 0b000, rd, rs1, imm),
        Instr::Branch {
            cond,
            rs1,
            rs2,
            imm,
        } => encode_branch(cond, rs1, rs2, imm),
        Instr::Load { kind, rd, rs1, imm } => encode_load(kind, rd, rs1, imm),
        Instr::Store {
            kind,
            rs1,
            rs2,
            imm,
        } => encode_store(kind, rs1, rs2, imm),
        Instr::OpImm { op, rd, rs1, imm } => encode_imm_op(op, rd, rs1, imm),
        Instr::Op { op, rd, rs1, rs2 } => encode_op(op, rd, rs1, rs2),
        Instr::Fence { rd, rs1, imm } => pack_fence(MISC_MEM, 0b000, rd, rs1, imm),
        Instr::Ecall => 0x0000_0073,
        Instr::Ebreak => 0x0010_0073,
        Instr::FenceI { rd, rs1, imm } => pack_fence(MISC_MEM, 0b001, rd, rs1, imm),
        Instr::Mul { op, rd, rs1, rs2 } => encode_mul_op(op, rd, rs1, rs2),
    }
}

/// The only word that encodes the instruction, whose fields are in range.
#[tactic(auto, using(crate::proofs::Reading::writing))]
pub fn encode(i: Instr) -> u32
    requires { Fits i }
    ensures encodes { Encodes result i }
    ensures back { decoded_m result ≡ Some i }
    ensures back_base { IsTrue (is_base i) → decoded result ≡ Some i }
    ensures only { (w : ℕ) → w < 2 ^ 32 → decoded_m w ≡ Some i → result ≡ w }
{
    encode_word(i)
}
