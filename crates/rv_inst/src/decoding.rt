//! The instruction that a word encodes.
#![tactic(auto, unfolding(crate::specs::Decoding::decoded, crate::specs::Decoding::decoded_jalr, crate::specs::Decoding::decoded_branch, crate::specs::Decoding::decoded_load, crate::specs::Decoding::decoded_store, crate::specs::Decoding::decoded_imm, crate::specs::Decoding::decoded_op, crate::specs::Decoding::decoded_fence, crate::specs::Decoding::decoded_system, crate::specs::Decoding::decoded_mul, crate::specs::Decoding::decoded_m))]

ghost use Rattle.std.specs.Prelude.{◌≡◌, IfSome, IfNone, IsTrue};
ghost use Rattle.rv_inst.specs.declared.instruction.Instr.{Instr as Instruction};
ghost use Rattle.rv_inst.specs.Encoding.{Encodes, is_base};
ghost use Rattle.rv_inst.specs.Ranges.{Fits};
ghost use Rattle.rv_inst.specs.Decoding.{cond_at, load_kind_of, store_at, imm_op_at, shift_at, op_at, mul_op_at, decoded, decoded_jalr, decoded_branch, decoded_load, decoded_store, decoded_imm, decoded_op, decoded_fence, decoded_system, decoded_mul, decoded_m};

use crate::fields;
use crate::instruction::{Cond, ImmOp, Instr, LoadKind, MulOp, RegOp, StoreKind};
use crate::opcodes::{AUIPC, BRANCH, JAL, JALR, LOAD, LUI, MISC_MEM, OP, OP_IMM, STORE, SYSTEM};

#[inline(always)]
fn cond(funct3: u32) -> Option<Cond>
    ensures { result ≡ cond_at funct3 }
{
    match funct3 {
        0b000 => Some(Cond::Eq),
        0b001 => Some(Cond::Ne),
        0b100 => Some(Cond::Lt),
        0b101 => Some(Cond::Ge),
        0b110 => Some(Cond::Ltu),
        0b111 => Some(Cond::Geu),
        _ => None,
    }
}

#[inline(always)]
fn load_kind(funct3: u32) -> Option<LoadKind>
    ensures { result ≡ load_kind_of funct3 }
{
    match funct3 {
        0b000 => Some(LoadKind::Byte),
        0b001 => Some(LoadKind::Half),
        0b010 => Some(LoadKind::Word),
        0b100 => Some(LoadKind::ByteU),
        0b101 => Some(LoadKind::HalfU),
        _ => None,
    }
}

#[inline(always)]
fn store_kind(funct3: u32) -> Option<StoreKind>
    ensures { result ≡ store_at funct3 }
{
    match funct3 {
        0b000 => Some(StoreKind::Byte),
        0b001 => Some(StoreKind::Half),
        0b010 => Some(StoreKind::Word),
        _ => None,
    }
}

#[inline(always)]
fn imm_op(funct3: u32) -> Option<ImmOp>
    ensures { result ≡ imm_op_at funct3 }
{
    match funct3 {
        0b000 => Some(ImmOp::Add),
        0b010 => Some(ImmOp::Slt),
        0b011 => Some(ImmOp::Sltu),
        0b100 => Some(ImmOp::Xor),
        0b110 => Some(ImmOp::Or),
        0b111 => Some(ImmOp::And),
        _ => None,
    }
}

#[inline(always)]
fn shift(funct3: u32, funct7: u32) -> Option<ImmOp>
    ensures { result ≡ shift_at funct3 funct7 }
{
    match (funct3, funct7) {
        (0b001, 0b000_0000) => Some(ImmOp::Sll),
        (0b101, 0b000_0000) => Some(ImmOp::Srl),
        (0b101, 0b010_0000) => Some(ImmOp::Sra),
        _ => None,
    }
}

#[inline(always)]
fn reg_op(funct3: u32, funct7: u32) -> Option<RegOp>
    ensures { result ≡ op_at funct3 funct7 }
{
    match (funct3, funct7) {
        (0b000, 0b000_0000) => Some(RegOp::Add),
        (0b000, 0b010_0000) => Some(RegOp::Sub),
        (0b001, 0b000_0000) => Some(RegOp::Sll),
        (0b010, 0b000_0000) => Some(RegOp::Slt),
        (0b011, 0b000_0000) => Some(RegOp::Sltu),
        (0b100, 0b000_0000) => Some(RegOp::Xor),
        (0b101, 0b000_0000) => Some(RegOp::Srl),
        (0b101, 0b010_0000) => Some(RegOp::Sra),
        (0b110, 0b000_0000) => Some(RegOp::Or),
        (0b111, 0b000_0000) => Some(RegOp::And),
        _ => None,
    }
}

#[inline(always)]
fn mul_op(funct3: u32) -> Option<MulOp>
    ensures { result ≡ mul_op_at funct3 }
{
    match funct3 {
        0b000 => Some(MulOp::Mul),
        0b001 => Some(MulOp::Mulh),
        0b010 => Some(MulOp::Mulhsu),
        0b011 => Some(MulOp::Mulhu),
        0b100 => Some(MulOp::Div),
        0b101 => Some(MulOp::Divu),
        0b110 => Some(MulOp::Rem),
        0b111 => Some(MulOp::Remu),
        _ => None,
    }
}

#[inline(always)]
fn decode_jalr(word: u32) -> Option<Instr>
    ensures { result ≡ decoded_jalr word }
{
    (fields::funct3(word) == 0b000).then_some(Instr::Jalr {
        rd: fields::rd(word),
        rs1: fields::rs1(word),
        imm: fields::imm_i(word),
    })
}

#[inline(always)]
fn decode_branch(word: u32) -> Option<Instr>
    ensures { result ≡ decoded_branch word }
{
    Some(Instr::Branch {
        cond: cond(fields::funct3(word))?,
        rs1: fields::rs1(word),
        rs2: fields::rs2(word),
        imm: fields::imm_b(word),
    })
}

#[inline(always)]
fn decode_load(word: u32) -> Option<Instr>
    ensures { result ≡ decoded_load word }
{
    Some(Instr::Load {
        kind: load_kind(fields::funct3(word))?,
        rd: fields::rd(word),
        rs1: fields::rs1(word),
        imm: fields::imm_i(word),
    })
}

#[inline(always)]
fn decode_store(word: u32) -> Option<Instr>
    ensures { result ≡ decoded_store word }
{
    Some(Instr::Store {
        kind: store_kind(fields::funct3(word))?,
        rs1: fields::rs1(word),
        rs2: fields::rs2(word),
        imm: fields::imm_s(word),
    })
}

#[inline(always)]
fn decode_imm(word: u32) -> Option<Instr>
    ensures { result ≡ decoded_imm word }
{
    let rd = fields::rd(word);
    let rs1 = fields::rs1(word);
    let funct3 = fields::funct3(word);
    if funct3 == 0b001 || funct3 == 0b101 {
        let op = shift(funct3, fields::funct7(word))?;
        let imm = i32::from(fields::rs2(word));
        Some(Instr::OpImm { op, rd, rs1, imm })
    } else {
        let op = imm_op(funct3)?;
        let imm = fields::imm_i(word);
        Some(Instr::OpImm { op, rd, rs1, imm })
    }
}

#[inline(always)]
fn decode_op(word: u32) -> Option<Instr>
    ensures { result ≡ decoded_op word }
{
    Some(Instr::Op {
        op: reg_op(fields::funct3(word), fields::funct7(word))?,
        rd: fields::rd(word),
        rs1: fields::rs1(word),
        rs2: fields::rs2(word),
    })
}

#[inline(always)]
fn decode_fence(word: u32) -> Option<Instr>
    ensures { result ≡ decoded_fence word }
{
    let rd = fields::rd(word);
    let rs1 = fields::rs1(word);
    let imm = fields::high12(word);
    match fields::funct3(word) {
        0b000 => Some(Instr::Fence { rd, rs1, imm }),
        0b001 => Some(Instr::FenceI { rd, rs1, imm }),
        _ => None,
    }
}

#[inline(always)]
fn decode_system(word: u32) -> Option<Instr>
    ensures { result ≡ decoded_system word }
{
    match word {
        0x0000_0073 => Some(Instr::Ecall),
        0x0010_0073 => Some(Instr::Ebreak),
        _ => None,
    }
}

#[inline(always)]
fn decode_base(word: u32) -> Option<Instr>
    ensures { result ≡ decoded word }
{
    match fields::opcode(word) {
        LUI => Some(Instr::Lui {
            rd: fields::rd(word),
            imm: fields::imm_u(word),
        }),
        AUIPC => Some(Instr::Auipc {
            rd: fields::rd(word),
            imm: fields::imm_u(word),
        }),
        JAL => Some(Instr::Jal {
            rd: fields::rd(word),
            imm: fields::imm_j(word),
        }),
        JALR => decode_jalr(word),
        BRANCH => decode_branch(word),
        LOAD => decode_load(word),
        STORE => decode_store(word),
        OP_IMM => decode_imm(word),
        OP => decode_op(word),
        MISC_MEM => decode_fence(word),
        SYSTEM => decode_system(word),
        _ => None,
    }
}

#[inline(always)]
fn decode_mul(word: u32) -> Option<Instr>
    ensures { result ≡ decoded_mul word }
{
    Some(Instr::Mul {
        op: mul_op(fields::funct3(word))?,
        rd: fields::rd(word),
        rs1: fields::rs1(word),
        rs2: fields::rs2(word),
    })
}

#[inline(always)]
fn decode_extended(word: u32) -> Option<Instr>
    ensures { result ≡ decoded_m word }
{
    if fields::opcode(word) == OP && fields::funct7(word) == 0b000_0001 {
        decode_mul(word)
    } else {
        decode_base(word)
    }
}

/// The instruction of RV32I with FENCE.I that the word encodes.
///
/// It is `None` if and only if the word encodes no such instruction, for example if it is a word of the M extension.
#[inline(always)]
#[tactic(auto, using(crate::proofs::Reading::reading))]
pub fn decode(word: u32) -> Option<Instr>
    ensures exact { result ≡ decoded word }
    ensures found { IfSome result (λ i. Encodes word i) }
    ensures base { IfSome result (λ i. IsTrue (is_base i)) }
    ensures fits { IfSome result (λ i. Fits i) }
    ensures none { IfNone result ((i : Instruction) → IsTrue (is_base i) → Encodes word i → ⊥) }
{
    decode_base(word)
}

/// The instruction that the word encodes, with the M extension.
///
/// It is `None` if and only if the word encodes no instruction.
#[inline(always)]
#[tactic(auto, using(crate::proofs::Reading::reading_m))]
pub fn decode_m(word: u32) -> Option<Instr>
    ensures exact { result ≡ decoded_m word }
    ensures found { IfSome result (λ i. Encodes word i) }
    ensures fits { IfSome result (λ i. Fits i) }
    ensures none { IfNone result ((i : Instruction) → Encodes word i → ⊥) }
{
    decode_extended(word)
}
