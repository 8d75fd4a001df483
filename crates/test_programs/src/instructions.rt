//! Words and values from other sources: the manual's encodings and pseudoinstructions.
ghost use Rattle.std.specs.Prelude.{◌≡◌};

use rv_inst::{
    Class, Cond, ImmOp, Instr, LoadKind, MulOp, RegOp, StoreKind, alu, class_of, decode, decode_m,
    encode, fits,
};

fn imm_op(op: ImmOp, rd: u8, rs1: u8, imm: i32) -> Instr
    ensures { result ≡ Instr.OpImm op rd rs1 imm }
{
    Instr::OpImm { op, rd, rs1, imm }
}

fn reg_op(op: RegOp, rd: u8, rs1: u8, rs2: u8) -> Instr
    ensures { result ≡ Instr.Op op rd rs1 rs2 }
{
    Instr::Op { op, rd, rs1, rs2 }
}

fn load(kind: LoadKind, rd: u8, imm: i32, rs1: u8) -> Instr {
    Instr::Load { kind, rd, rs1, imm }
}

fn store(kind: StoreKind, rs2: u8, imm: i32, rs1: u8) -> Instr {
    Instr::Store {
        kind,
        rs1,
        rs2,
        imm,
    }
}

fn branch(cond: Cond, rs1: u8, rs2: u8, imm: i32) -> Instr {
    Instr::Branch {
        cond,
        rs1,
        rs2,
        imm,
    }
}

fn mul_op(op: MulOp, rd: u8, rs1: u8, rs2: u8) -> Instr {
    Instr::Mul { op, rd, rs1, rs2 }
}

fn lui(rd: u8, imm: u32) -> Instr {
    Instr::Lui { rd, imm }
}

fn jal(rd: u8, imm: i32) -> Instr {
    Instr::Jal { rd, imm }
}

fn jalr(rd: u8, imm: i32, rs1: u8) -> Instr {
    Instr::Jalr { rd, rs1, imm }
}

fn fence(imm: u32) -> Instr {
    Instr::Fence { rd: 0, rs1: 0, imm }
}

fn fence_i() -> Instr {
    Instr::FenceI {
        rd: 0,
        rs1: 0,
        imm: 0,
    }
}

/// Words with the instructions that the manual's tables give for them. GNU objdump 2.40 reads each as the comment says.
fn words() -> [(u32, Instr); 16] {
    [
        (0x0070_0513, imm_op(ImmOp::Add, 10, 0, 7)), // addi x10, x0, 7
        (0x05d0_0893, imm_op(ImmOp::Add, 17, 0, 93)), // addi x17, x0, 93
        (0xfff2_8293, imm_op(ImmOp::Add, 5, 5, -1)), // addi x5, x5, -1
        (0x0010_1093, imm_op(ImmOp::Sll, 1, 0, 1)), // slli x1, x0, 1
        (0x1234_62b7, lui(5, 0x12346)), // lui x5, 0x12346
        (0x0080_006f, jal(0, 8)), // jal x0, 8
        (0x0020_00e7, jalr(1, 2, 0)), // jalr x1, 2(x0)
        (0x0000_0463, branch(Cond::Eq, 0, 0, 8)), // beq x0, x0, 8
        (0xffe2_a303, load(LoadKind::Word, 6, -2, 5)), // lw x6, -2(x5)
        (0x0011_2023, store(StoreKind::Word, 1, 0, 2)), // sw x1, 0(x2)
        (0x4073_0533, reg_op(RegOp::Sub, 10, 6, 7)), // sub x10, x6, x7
        (0x0ff0_000f, fence(0xff)), // fence iorw, iorw
        (0x0000_0073, Instr::Ecall), // ecall
        (0x0010_0073, Instr::Ebreak), // ebreak
        (0x0000_100f, fence_i()), // fence.i
        (0x0273_0533, mul_op(MulOp::Mul, 10, 6, 7)), // mul x10, x6, x7
    ]
}

/// Whether the word is decoded to the instruction, and the instruction is encoded as the word.
fn is_word_of(word: u32, instruction: Instr) -> bool {
    decode_m(word) == Some(instruction) && fits(instruction) && encode(instruction) == word
}

#[test]
fn words_are_read_and_written(rt: HostRuntime) {
    for (word, instruction) in &words() {
        assert!(rt; is_word_of(*word, *instruction), "{word:08x}");
    }
}

#[test]
fn base_has_no_multiplication(rt: HostRuntime) {
    for (word, instruction) in &words() {
        let multiplies = class_of(*instruction) == Class::Mul;
        assert!(rt; decode(*word).is_none() == multiplies, "{word:08x}");
    }
}

/// The manual's listing of pseudoinstructions says what these instructions are used for.
#[test]
fn pseudoinstructions_mean_what_their_names_say(rt: HostRuntime) {
    let not = imm_op(ImmOp::Xor, 1, 2, -1);
    let seqz = imm_op(ImmOp::Sltu, 1, 2, 1);
    let sltz = reg_op(RegOp::Slt, 1, 2, 0);
    let neg = reg_op(RegOp::Sub, 1, 0, 2);
    assert!(rt; alu(not, 0, 0x0f0f_0f0f, 0) == 0xf0f0_f0f0);
    assert!(rt; alu(seqz, 0, 0, 0) == 1);
    assert!(rt; alu(seqz, 0, 0xffff_ffff, 0) == 0);
    assert!(rt; alu(sltz, 0, 0xffff_ffff, 0) == 1);
    assert!(rt; alu(neg, 0, 0, 1) == 0xffff_ffff);
}
