//! Instructions as values, by the RISC-V Unprivileged ISA Manual.

/// The condition of a branch ("RV32I Base Integer Instruction Set", Conditional Branches).
#[derive(Clone, Copy, PartialEq, Eq)]
pub enum Cond {
    /// BEQ: equal.
    Eq,
    /// BNE: not equal.
    Ne,
    /// BLT: less, both read as signed numbers.
    Lt,
    /// BGE: not less, both read as signed numbers.
    Ge,
    /// BLTU: less, both read as unsigned numbers.
    Ltu,
    /// BGEU: not less, both read as unsigned numbers.
    Geu,
}

/// The width of a load and how it fills the register ("RV32I Base Integer Instruction Set", Load and Store
/// Instructions).
#[derive(Clone, Copy, PartialEq, Eq)]
pub enum LoadKind {
    /// LB: one byte, sign-extended.
    Byte,
    /// LH: two bytes, sign-extended.
    Half,
    /// LW: four bytes.
    Word,
    /// LBU: one byte, zero-extended.
    ByteU,
    /// LHU: two bytes, zero-extended.
    HalfU,
}

/// The width of a store ("RV32I Base Integer Instruction Set", Load and Store Instructions).
#[derive(Clone, Copy, PartialEq, Eq)]
pub enum StoreKind {
    /// SB: the lowest byte.
    Byte,
    /// SH: the lowest two bytes.
    Half,
    /// SW: all four bytes.
    Word,
}

/// An operation on a register and an immediate ("RV32I Base Integer Instruction Set", Integer Register-Immediate
/// Instructions).
#[derive(Clone, Copy, PartialEq, Eq)]
pub enum ImmOp {
    /// ADDI.
    Add,
    /// SLTI.
    Slt,
    /// SLTIU.
    Sltu,
    /// XORI.
    Xor,
    /// ORI.
    Or,
    /// ANDI.
    And,
    /// SLLI.
    Sll,
    /// SRLI.
    Srl,
    /// SRAI.
    Sra,
}

/// An operation on two registers ("RV32I Base Integer Instruction Set", Integer Register-Register Operations).
#[derive(Clone, Copy, PartialEq, Eq)]
pub enum RegOp {
    /// ADD.
    Add,
    /// SUB.
    Sub,
    /// SLL.
    Sll,
    /// SLT.
    Slt,
    /// SLTU.
    Sltu,
    /// XOR.
    Xor,
    /// SRL.
    Srl,
    /// SRA.
    Sra,
    /// OR.
    Or,
    /// AND.
    And,
}

/// A multiplication or a division ("M" Extension for Integer Multiplication and Division).
#[derive(Clone, Copy, PartialEq, Eq)]
pub enum MulOp {
    /// MUL: the low word of the product.
    Mul,
    /// MULH: the high word, both factors signed.
    Mulh,
    /// MULHSU: the high word, the first factor signed.
    Mulhsu,
    /// MULHU: the high word, both factors unsigned.
    Mulhu,
    /// DIV: the signed quotient.
    Div,
    /// DIVU: the unsigned quotient.
    Divu,
    /// REM: the signed remainder.
    Rem,
    /// REMU: the unsigned remainder.
    Remu,
}

/// An instruction: its registers by number, and its immediate as the manual's assembly writes it.
///
/// `fits` says which values represent an instruction of the machine.
#[derive(Clone, Copy, PartialEq, Eq)]
pub enum Instr {
    /// LUI; `imm` is the 20-bit field, in units of 4096.
    Lui {
        rd: u8,
        imm: u32,
    },
    /// AUIPC; `imm` is the 20-bit field, in units of 4096.
    Auipc {
        rd: u8,
        imm: u32,
    },
    /// JAL; `imm` is the even offset from the instruction's own address.
    Jal {
        rd: u8,
        imm: i32,
    },
    /// JALR; `imm` is added to the register.
    Jalr {
        rd: u8,
        rs1: u8,
        imm: i32,
    },
    /// A conditional branch; `imm` is the even offset from the instruction's own address.
    Branch {
        cond: Cond,
        rs1: u8,
        rs2: u8,
        imm: i32,
    },
    /// A load from `rs1` plus `imm`.
    Load {
        kind: LoadKind,
        rd: u8,
        rs1: u8,
        imm: i32,
    },
    /// A store of `rs2` to `rs1` plus `imm`.
    Store {
        kind: StoreKind,
        rs1: u8,
        rs2: u8,
        imm: i32,
    },
    /// An operation with an immediate, which for a shift is the amount.
    OpImm {
        op: ImmOp,
        rd: u8,
        rs1: u8,
        imm: i32,
    },
    /// An operation on two registers.
    Op {
        op: RegOp,
        rd: u8,
        rs1: u8,
        rs2: u8,
    },
    /// FENCE; `imm` is bits 31 to 20 of the word (fm, predecessor and successor sets).
    Fence {
        rd: u8,
        rs1: u8,
        imm: u32,
    },
    /// ECALL.
    Ecall,
    /// EBREAK.
    Ebreak,
    /// FENCE.I of "Zifencei"; `imm` is bits 31 to 20 of the word.
    FenceI {
        rd: u8,
        rs1: u8,
        imm: u32,
    },
    /// A multiplication or a division of the M extension.
    Mul {
        op: MulOp,
        rd: u8,
        rs1: u8,
        rs2: u8,
    },
}
