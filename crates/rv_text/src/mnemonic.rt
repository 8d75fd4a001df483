//! The names of the instructions.
ghost use Rattle.std.specs.Prelude.{◌≡◌, ◌≤◌, length};
ghost use Rattle.rv_text.specs.Names.{mnemonic_name, mnemonic_named, mnemonic_of};

use rv_inst::{Cond, ImmOp, Instr, LoadKind, MulOp, RegOp, StoreKind};

/// An instruction without its operands: the meaning of its name.
#[derive(Clone, Copy)]
pub enum Mnemonic {
    Lui,
    Auipc,
    Jal,
    Jalr,
    Branch(Cond),
    Load(LoadKind),
    Store(StoreKind),
    OpImm(ImmOp),
    Op(RegOp),
    Fence,
    Ecall,
    Ebreak,
    FenceI,
    Mul(MulOp),
}

/// All mnemonics.
const MNEMONICS: [Mnemonic; 49] = [
    Mnemonic::Lui,
    Mnemonic::Auipc,
    Mnemonic::Jal,
    Mnemonic::Jalr,
    Mnemonic::Branch(Cond::Eq),
    Mnemonic::Branch(Cond::Ne),
    Mnemonic::Branch(Cond::Lt),
    Mnemonic::Branch(Cond::Ge),
    Mnemonic::Branch(Cond::Ltu),
    Mnemonic::Branch(Cond::Geu),
    Mnemonic::Load(LoadKind::Byte),
    Mnemonic::Load(LoadKind::Half),
    Mnemonic::Load(LoadKind::Word),
    Mnemonic::Load(LoadKind::ByteU),
    Mnemonic::Load(LoadKind::HalfU),
    Mnemonic::Store(StoreKind::Byte),
    Mnemonic::Store(StoreKind::Half),
    Mnemonic::Store(StoreKind::Word),
    Mnemonic::OpImm(ImmOp::Add),
    Mnemonic::OpImm(ImmOp::Slt),
    Mnemonic::OpImm(ImmOp::Sltu),
    Mnemonic::OpImm(ImmOp::Xor),
    Mnemonic::OpImm(ImmOp::Or),
    Mnemonic::OpImm(ImmOp::And),
    Mnemonic::OpImm(ImmOp::Sll),
    Mnemonic::OpImm(ImmOp::Srl),
    Mnemonic::OpImm(ImmOp::Sra),
    Mnemonic::Op(RegOp::Add),
    Mnemonic::Op(RegOp::Sub),
    Mnemonic::Op(RegOp::Sll),
    Mnemonic::Op(RegOp::Slt),
    Mnemonic::Op(RegOp::Sltu),
    Mnemonic::Op(RegOp::Xor),
    Mnemonic::Op(RegOp::Srl),
    Mnemonic::Op(RegOp::Sra),
    Mnemonic::Op(RegOp::Or),
    Mnemonic::Op(RegOp::And),
    Mnemonic::Fence,
    Mnemonic::Ecall,
    Mnemonic::Ebreak,
    Mnemonic::FenceI,
    Mnemonic::Mul(MulOp::Mul),
    Mnemonic::Mul(MulOp::Mulh),
    Mnemonic::Mul(MulOp::Mulhsu),
    Mnemonic::Mul(MulOp::Mulhu),
    Mnemonic::Mul(MulOp::Div),
    Mnemonic::Mul(MulOp::Divu),
    Mnemonic::Mul(MulOp::Rem),
    Mnemonic::Mul(MulOp::Remu),
];

fn branch_name(cond: Cond) -> &'static [u8]
    ensures { result.now ≡ mnemonic_name (Mnemonic.Branch cond) }
{
    match cond {
        Cond::Eq => b"beq",
        Cond::Ne => b"bne",
        Cond::Lt => b"blt",
        Cond::Ge => b"bge",
        Cond::Ltu => b"bltu",
        Cond::Geu => b"bgeu",
    }
}

fn load_name(kind: LoadKind) -> &'static [u8]
    ensures { result.now ≡ mnemonic_name (Mnemonic.Load kind) }
{
    match kind {
        LoadKind::Byte => b"lb",
        LoadKind::Half => b"lh",
        LoadKind::Word => b"lw",
        LoadKind::ByteU => b"lbu",
        LoadKind::HalfU => b"lhu",
    }
}

fn store_name(kind: StoreKind) -> &'static [u8]
    ensures { result.now ≡ mnemonic_name (Mnemonic.Store kind) }
{
    match kind {
        StoreKind::Byte => b"sb",
        StoreKind::Half => b"sh",
        StoreKind::Word => b"sw",
    }
}

fn imm_name(op: ImmOp) -> &'static [u8]
    ensures { result.now ≡ mnemonic_name (Mnemonic.OpImm op) }
{
    match op {
        ImmOp::Add => b"addi",
        ImmOp::Slt => b"slti",
        ImmOp::Sltu => b"sltiu",
        ImmOp::Xor => b"xori",
        ImmOp::Or => b"ori",
        ImmOp::And => b"andi",
        ImmOp::Sll => b"slli",
        ImmOp::Srl => b"srli",
        ImmOp::Sra => b"srai",
    }
}

fn op_name(op: RegOp) -> &'static [u8]
    ensures { result.now ≡ mnemonic_name (Mnemonic.Op op) }
{
    match op {
        RegOp::Add => b"add",
        RegOp::Sub => b"sub",
        RegOp::Sll => b"sll",
        RegOp::Slt => b"slt",
        RegOp::Sltu => b"sltu",
        RegOp::Xor => b"xor",
        RegOp::Srl => b"srl",
        RegOp::Sra => b"sra",
        RegOp::Or => b"or",
        RegOp::And => b"and",
    }
}

fn mul_name(op: MulOp) -> &'static [u8]
    ensures { result.now ≡ mnemonic_name (Mnemonic.Mul op) }
{
    match op {
        MulOp::Mul => b"mul",
        MulOp::Mulh => b"mulh",
        MulOp::Mulhsu => b"mulhsu",
        MulOp::Mulhu => b"mulhu",
        MulOp::Div => b"div",
        MulOp::Divu => b"divu",
        MulOp::Rem => b"rem",
        MulOp::Remu => b"remu",
    }
}

impl Mnemonic {
    /// The mnemonic of an instruction.
    pub fn of(i: Instr) -> Mnemonic
        ensures { result ≡ mnemonic_of i }
    {
        match i {
            Instr::Lui { .. } => Mnemonic::Lui,
            Instr::Auipc { .. } => Mnemonic::Auipc,
            Instr::Jal { .. } => Mnemonic::Jal,
            Instr::Jalr { .. } => Mnemonic::Jalr,
            Instr::Branch { cond, .. } => Mnemonic::Branch(cond),
            Instr::Load { kind, .. } => Mnemonic::Load(kind),
            Instr::Store { kind, .. } => Mnemonic::Store(kind),
            Instr::OpImm { op, .. } => Mnemonic::OpImm(op),
            Instr::Op { op, .. } => Mnemonic::Op(op),
            Instr::Fence { .. } => Mnemonic::Fence,
            Instr::Ecall => Mnemonic::Ecall,
            Instr::Ebreak => Mnemonic::Ebreak,
            Instr::FenceI { .. } => Mnemonic::FenceI,
            Instr::Mul { op, .. } => Mnemonic::Mul(op),
        }
    }

    /// The name, in lower case.
    pub fn name(self) -> &'static [u8]
        ensures value { result.now ≡ mnemonic_name self }
        ensures short { length result.now ≤ 7 }
    {
        match self {
            Mnemonic::Lui => b"lui",
            Mnemonic::Auipc => b"auipc",
            Mnemonic::Jal => b"jal",
            Mnemonic::Jalr => b"jalr",
            Mnemonic::Branch(cond) => branch_name(cond),
            Mnemonic::Load(kind) => load_name(kind),
            Mnemonic::Store(kind) => store_name(kind),
            Mnemonic::OpImm(op) => imm_name(op),
            Mnemonic::Op(op) => op_name(op),
            Mnemonic::Fence => b"fence",
            Mnemonic::Ecall => b"ecall",
            Mnemonic::Ebreak => b"ebreak",
            Mnemonic::FenceI => b"fence.i",
            Mnemonic::Mul(op) => mul_name(op),
        }
    }

    /// The mnemonic with this name.
    #[tactic(auto, unfolding(crate::specs::Names::mnemonic_named))]
    pub fn named(word: &[u8]) -> Option<Mnemonic>
        ensures { result ≡ mnemonic_named word.now }
    {
        MNEMONICS
            .iter()
            .copied()
            .find(|mnemonic| mnemonic.name() == word)
    }
}
