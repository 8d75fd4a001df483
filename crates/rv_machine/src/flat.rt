//! Flat operations: instructions whose operation is one number and whose fields are unpacked.

ghost use Rattle.std.specs.Prelude.{◌≡◌, ◌<◌, IfSome, IsTrue};
ghost use Rattle.rv_machine.specs.Flat.{instr_of, branch_op, load_op, store_op, imm_op, reg_op, writes_plainly};

use rv_inst::{Cond, ImmOp, Instr, LoadKind, RegOp, StoreKind};

/// What a flat operation does: one case for each instruction, by the manual's name, and one for everything that is left
/// to [`Machine::step`](crate::Machine::step).
#[derive(Clone, Copy, PartialEq, Eq)]
pub(crate) enum FlatOp {
    /// Unknown here.
    Slow,
    /// ADDI of x0.
    Nop,
    Lui,
    Auipc,
    Jal,
    Jalr,
    Beq,
    Bne,
    Blt,
    Bge,
    Bltu,
    Bgeu,
    Lb,
    Lh,
    Lw,
    Lbu,
    Lhu,
    Sb,
    Sh,
    Sw,
    Addi,
    Slti,
    Sltiu,
    Xori,
    Ori,
    Andi,
    Slli,
    Srli,
    Srai,
    Add,
    Sub,
    Sll,
    Slt,
    Sltu,
    Xor,
    Srl,
    Sra,
    Or,
    And,
}

/// An operation with its fields; fields that its instruction does not have are 0.
#[derive(Clone, Copy, PartialEq, Eq)]
pub(crate) struct Flat {
    pub(crate) op: FlatOp,
    pub(crate) rd: u8,
    pub(crate) rs1: u8,
    pub(crate) rs2: u8,
    pub(crate) imm: i32,
}

/// An unknown operation.
pub(crate) const SLOW: Flat = Flat {
    op: FlatOp::Slow,
    rd: 0,
    rs1: 0,
    rs2: 0,
    imm: 0,
};

fn branch_op(cond: Cond) -> FlatOp
    ensures { result ≡ branch_op cond }
{
    match cond {
        Cond::Eq => FlatOp::Beq,
        Cond::Ne => FlatOp::Bne,
        Cond::Lt => FlatOp::Blt,
        Cond::Ge => FlatOp::Bge,
        Cond::Ltu => FlatOp::Bltu,
        Cond::Geu => FlatOp::Bgeu,
    }
}

fn load_op(kind: LoadKind) -> FlatOp
    ensures { result ≡ load_op kind }
{
    match kind {
        LoadKind::Byte => FlatOp::Lb,
        LoadKind::Half => FlatOp::Lh,
        LoadKind::Word => FlatOp::Lw,
        LoadKind::ByteU => FlatOp::Lbu,
        LoadKind::HalfU => FlatOp::Lhu,
    }
}

fn store_op(kind: StoreKind) -> FlatOp
    ensures { result ≡ store_op kind }
{
    match kind {
        StoreKind::Byte => FlatOp::Sb,
        StoreKind::Half => FlatOp::Sh,
        StoreKind::Word => FlatOp::Sw,
    }
}

fn imm_op(op: ImmOp) -> FlatOp
    ensures { result ≡ imm_op op }
{
    match op {
        ImmOp::Add => FlatOp::Addi,
        ImmOp::Slt => FlatOp::Slti,
        ImmOp::Sltu => FlatOp::Sltiu,
        ImmOp::Xor => FlatOp::Xori,
        ImmOp::Or => FlatOp::Ori,
        ImmOp::And => FlatOp::Andi,
        ImmOp::Sll => FlatOp::Slli,
        ImmOp::Srl => FlatOp::Srli,
        ImmOp::Sra => FlatOp::Srai,
    }
}

fn reg_op(op: RegOp) -> FlatOp
    ensures { result ≡ reg_op op }
{
    match op {
        RegOp::Add => FlatOp::Add,
        RegOp::Sub => FlatOp::Sub,
        RegOp::Sll => FlatOp::Sll,
        RegOp::Slt => FlatOp::Slt,
        RegOp::Sltu => FlatOp::Sltu,
        RegOp::Xor => FlatOp::Xor,
        RegOp::Srl => FlatOp::Srl,
        RegOp::Sra => FlatOp::Sra,
        RegOp::Or => FlatOp::Or,
        RegOp::And => FlatOp::And,
    }
}

/// The operation with the instruction's own name, or `SLOW` if there is none.
#[tactic(auto, using(crate::proofs::Flattening::flattening))]
fn named(i: Instr) -> Flat
    ensures { IfSome (instr_of result) (λ j. j ≡ i) }
{
    match i {
        Instr::Lui { rd, imm } => Flat {
            op: FlatOp::Lui,
            rd,
            imm: imm.cast_signed(),
            ..SLOW
        },
        Instr::Auipc { rd, imm } => Flat {
            op: FlatOp::Auipc,
            rd,
            imm: imm.cast_signed(),
            ..SLOW
        },
        Instr::Jal { rd, imm } => Flat {
            op: FlatOp::Jal,
            rd,
            imm,
            ..SLOW
        },
        Instr::Jalr { rd, rs1, imm } => Flat {
            op: FlatOp::Jalr,
            rd,
            rs1,
            imm,
            ..SLOW
        },
        Instr::Branch {
            cond,
            rs1,
            rs2,
            imm,
        } => Flat {
            op: branch_op(cond),
            rd: 0,
            rs1,
            rs2,
            imm,
        },
        Instr::Load { kind, rd, rs1, imm } => Flat {
            op: load_op(kind),
            rd,
            rs1,
            rs2: 0,
            imm,
        },
        Instr::Store {
            kind,
            rs1,
            rs2,
            imm,
        } => Flat {
            op: store_op(kind),
            rd: 0,
            rs1,
            rs2,
            imm,
        },
        Instr::OpImm { op, rd, rs1, imm } => Flat {
            op: imm_op(op),
            rd,
            rs1,
            rs2: 0,
            imm,
        },
        Instr::Op { op, rd, rs1, rs2 } => Flat {
            op: reg_op(op),
            rd,
            rs1,
            rs2,
            imm: 0,
        },
        Instr::Mul { .. }
        | Instr::Fence { .. }
        | Instr::Ebreak
        | Instr::Ecall
        | Instr::FenceI { .. } => SLOW,
    }
}

/// Whether the operation writes its destination without testing whether it is x0.
fn writes(op: FlatOp) -> bool
    ensures { result ≡ writes_plainly op }
{
    match op {
        FlatOp::Slow
        | FlatOp::Nop
        | FlatOp::Jal
        | FlatOp::Jalr
        | FlatOp::Beq
        | FlatOp::Bne
        | FlatOp::Blt
        | FlatOp::Bge
        | FlatOp::Bltu
        | FlatOp::Bgeu
        | FlatOp::Sb
        | FlatOp::Sh
        | FlatOp::Sw => false,
        FlatOp::Lui
        | FlatOp::Auipc
        | FlatOp::Lb
        | FlatOp::Lh
        | FlatOp::Lw
        | FlatOp::Lbu
        | FlatOp::Lhu
        | FlatOp::Addi
        | FlatOp::Slti
        | FlatOp::Sltiu
        | FlatOp::Xori
        | FlatOp::Ori
        | FlatOp::Andi
        | FlatOp::Slli
        | FlatOp::Srli
        | FlatOp::Srai
        | FlatOp::Add
        | FlatOp::Sub
        | FlatOp::Sll
        | FlatOp::Slt
        | FlatOp::Sltu
        | FlatOp::Xor
        | FlatOp::Srl
        | FlatOp::Sra
        | FlatOp::Or
        | FlatOp::And => true,
    }
}

/// The operation that represents the instruction, or `SLOW` if none does: of the instructions that write x0 only ADDI
/// has one.
#[tactic(auto, using(crate::proofs::Flattening::sparing))]
pub(crate) fn flatten(i: Instr) -> Flat
    ensures is { IfSome (instr_of result) (λ j. j ≡ i) }
    ensures written { IsTrue (writes_plainly result.op) → 0 < result.rd }
{
    let flat = named(i);
    if flat.rd != 0 || !writes(flat.op) {
        return flat;
    }
    match flat.op {
        FlatOp::Addi => Flat {
            op: FlatOp::Nop,
            ..flat
        },
        _ => SLOW,
    }
}
