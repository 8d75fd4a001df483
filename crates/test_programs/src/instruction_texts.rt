//! Texts and words from the GNU assembler, and other spellings, by the grammar.
use rv_inst::{ImmOp, Instr, LoadKind, decode_m, encode, fits};
use rv_text::{TextErr, TextLine, read_instr, read_register, write_instr};

/// Each instruction once, from 0x00010000 on: the word that GNU as 2.40 produces for the text there.
const LISTING: [(u32, &str); 49] = [
    (0x1234_52b7, "lui x5, 0x12345"),
    (0xffff_f317, "auipc x6, 0xfffff"),
    (0x0080_00ef, "jal x1, 0x00010010"),
    (0x0041_00e7, "jalr x1, 4(x2)"),
    (0xfe20_88e3, "beq x1, x2, 0x00010000"),
    (0xfe41_98e3, "bne x3, x4, 0x00010004"),
    (0xfe62_cae3, "blt x5, x6, 0x0001000c"),
    (0x7e83_d0e3, "bge x7, x8, 0x00010ffc"),
    (0xfea4_e0e3, "bltu x9, x10, 0x00010000"),
    (0x00c5_f063, "bgeu x11, x12, 0x00010024"),
    (0xffc1_0083, "lb x1, -4(x2)"),
    (0x0007_1683, "lh x13, 0(x14)"),
    (0x7ff8_2783, "lw x15, 2047(x16)"),
    (0x8009_4883, "lbu x17, -2048(x18)"),
    (0x010a_5983, "lhu x19, 16(x20)"),
    (0x0011_0423, "sb x1, 8(x2)"),
    (0xff5b_1fa3, "sh x21, -1(x22)"),
    (0x077c_2223, "sw x23, 100(x24)"),
    (0xffb1_0093, "addi x1, x2, -5"),
    (0x7ffd_2c93, "slti x25, x26, 2047"),
    (0x001e_3d93, "sltiu x27, x28, 1"),
    (0xffff_4e93, "xori x29, x30, -1"),
    (0x0ff0_6f93, "ori x31, x0, 255"),
    (0x8000_f093, "andi x1, x1, -2048"),
    (0x0001_9113, "slli x2, x3, 0"),
    (0x01f2_d213, "srli x4, x5, 31"),
    (0x40f3_d313, "srai x6, x7, 15"),
    (0x0031_00b3, "add x1, x2, x3"),
    (0x4073_0533, "sub x10, x6, x7"),
    (0x00a4_9433, "sll x8, x9, x10"),
    (0x00d6_25b3, "slt x11, x12, x13"),
    (0x0107_b733, "sltu x14, x15, x16"),
    (0x0139_48b3, "xor x17, x18, x19"),
    (0x016a_da33, "srl x20, x21, x22"),
    (0x419c_5bb3, "sra x23, x24, x25"),
    (0x01cd_ed33, "or x26, x27, x28"),
    (0x01ff_7eb3, "and x29, x30, x31"),
    (0x0ff0_000f, "fence"),
    (0x0000_0073, "ecall"),
    (0x0010_0073, "ebreak"),
    (0x0000_100f, "fence.i"),
    (0x0273_02b3, "mul x5, x6, x7"),
    (0x02a4_9433, "mulh x8, x9, x10"),
    (0x02d6_25b3, "mulhsu x11, x12, x13"),
    (0x0307_b733, "mulhu x14, x15, x16"),
    (0x0339_48b3, "div x17, x18, x19"),
    (0x036a_da33, "divu x20, x21, x22"),
    (0x039c_6bb3, "rem x23, x24, x25"),
    (0x03cd_fd33, "remu x26, x27, x28"),
];

/// The registers' names in the calling convention, in the order of their numbers.
const USUAL_NAMES: [&str; 32] = [
    "zero", "ra", "sp", "gp", "tp", "t0", "t1", "t2", "s0", "s1", "a0", "a1", "a2", "a3", "a4",
    "a5", "a6", "a7", "s2", "s3", "s4", "s5", "s6", "s7", "s8", "s9", "s10", "s11", "t3", "t4",
    "t5", "t6",
];

fn word_of(text: &str, pc: u32) -> Option<u32> {
    match read_instr(text, pc) {
        Ok(instruction) if fits(instruction) => Some(encode(instruction)),
        _ => None,
    }
}

fn is_written(word: u32, pc: u32, text: &str) -> bool {
    let mut line = TextLine::new();
    match decode_m(word) {
        Some(instruction) if fits(instruction) => {
            write_instr(instruction, pc, &mut line);
            line.bytes() == text.as_bytes()
        }
        _ => false,
    }
}

#[test]
fn each_instruction_is_read_and_written(rt: HostRuntime) {
    let mut pc = 0x0001_0000u32;
    for (word, text) in &LISTING {
        assert!(rt;
            word_of(text, pc) == Some(*word) && is_written(*word, pc, text),
            "{text}"
        );
        pc = pc.wrapping_add(4);
    }
}

#[test]
fn registers_have_usual_names(rt: HostRuntime) {
    let mut number = 0u8;
    for name in &USUAL_NAMES {
        assert!(rt; read_register(name.as_bytes()) == Some(number), "{name}");
        number = number.wrapping_add(1);
    }
    assert!(rt; read_register(b"fp") == Some(8));
    assert!(rt; read_register(b"x00") == Some(0));
    assert!(rt; read_register(b"x031") == Some(31));
}

const ADDI_7: Instr = Instr::OpImm {
    op: ImmOp::Add,
    rd: 10,
    rs1: 0,
    imm: 7,
};

const ADDI_0: Instr = Instr::OpImm {
    op: ImmOp::Add,
    rd: 10,
    rs1: 0,
    imm: 0,
};

const ADDI_MINUS_2047: Instr = Instr::OpImm {
    op: ImmOp::Add,
    rd: 10,
    rs1: 0,
    imm: -0x7ff,
};

const LW_MINUS_4: Instr = Instr::Load {
    kind: LoadKind::Word,
    rd: 1,
    rs1: 2,
    imm: -4,
};

const JUMP_BACK: Instr = Instr::Jal {
    rd: 0,
    imm: -0x1_0004,
};

const LUI_74565: Instr = Instr::Lui {
    rd: 5,
    imm: 0x12345,
};

const FENCE_I_15: Instr = Instr::FenceI {
    rd: 1,
    rs1: 2,
    imm: 15,
};

const SPELLINGS: [(&str, Instr); 8] = [
    ("addi a0,zero,7", ADDI_7),
    (" \t addi\tx010 , x0 ,\t0x7 ", ADDI_7),
    ("addi x10, x0, -0", ADDI_0),
    ("addi x10, x0, -0x7fF", ADDI_MINUS_2047),
    ("lw ra, -4 ( sp )", LW_MINUS_4),
    ("jal x0, -4", JUMP_BACK),
    ("lui x5, 74565", LUI_74565),
    ("fence.i x1, x2, 15", FENCE_I_15),
];

#[test]
fn other_spellings_are_read(rt: HostRuntime) {
    for (text, instruction) in &SPELLINGS {
        let read = read_instr(text, 0x0001_0000);
        assert!(rt; read == Ok(*instruction), "{text}");
    }
}

const REFUSALS: [(&str, TextErr); 24] = [
    ("", TextErr::UnknownName),
    (" \t ", TextErr::UnknownName),
    ("addi,x1", TextErr::UnknownName),
    ("ADD x1, x2", TextErr::UnknownName),
    ("add x99, x1", TextErr::WrongCount { got: 2, wanted: 3 }),
    ("addi x1,", TextErr::WrongCount { got: 2, wanted: 3 }),
    ("ecall ,", TextErr::WrongCount { got: 2, wanted: 0 }),
    ("fence x1", TextErr::WrongCount { got: 1, wanted: 3 }),
    ("add x1, x032, x2", TextErr::BadRegister),
    ("add x000, x1, x2", TextErr::BadRegister),
    ("addi x32, x0, 5000", TextErr::BadRegister),
    ("addi x1, x2, ", TextErr::BadNumber),
    ("addi x1, x2, 12345678901", TextErr::BadNumber),
    ("addi x1, x2, 0x000000000", TextErr::BadNumber),
    ("lw x1, (x2)", TextErr::BadNumber),
    ("lw x1, 4", TextErr::BadRegister),
    ("lw x1, 4(x2)(x3)", TextErr::BadRegister),
    ("lw x1, 5000", TextErr::OutOfRange(5000)),
    ("addi x1, x2, 2048", TextErr::OutOfRange(2048)),
    ("slli x1, x2, 32", TextErr::OutOfRange(32)),
    ("lui x1, -1", TextErr::OutOfRange(-1)),
    ("fence x0, x0, 4096", TextErr::OutOfRange(4096)),
    ("beq x1, x2, 0x11000", TextErr::OutOfRange(4096)),
    ("jal x0, 9999999999", TextErr::OutOfRange(1_409_999_871)),
];

#[test]
fn refusals_come_in_their_order(rt: HostRuntime) {
    for (text, refusal) in &REFUSALS {
        let read = read_instr(text, 0x0001_0000);
        assert!(rt; read == Err(*refusal), "{text}");
    }
}
