//! Programs and environment calls that were worked out by hand from the manual and the tables of Linux.
use crate::programs::{BASE, STACK, machine_of, memory_of};
use cf_io::{Empty, MemSink, MemSource, Nowhere};
use mem_regions::Regions;
use rv_inst::Isa;
use rv_machine::{Machine, Served, Stepped, serve};
use std::process::Abort;

/// Steps until an instruction does not retire, with this instruction set.
fn run(machine: &mut Machine, isa: Isa) -> Stepped {
    for _ in 0..100 {
        if machine.retired() > 1000 {
            break;
        }
        let stepped = match isa {
            Isa::Rv32i => machine.step(&mut Empty, &mut Nowhere),
            Isa::Rv32im => machine.step_m(&mut Empty, &mut Nowhere),
        };
        match stepped {
            Stepped::Next(_) => {}
            end => return end,
        }
    }
    Stepped::ReadFault
}

/// A program that traps: its words, the cause, the address and the detail, and how many instructions have retired by
/// then.
type Trapping = (&'static [u32], (u8, u32, u32), u64);

static TRAPPING: [Trapping; 7] = [
    // jalr x1, 2(x0): the target is not a multiple of 4.
    (&[0x0020_00e7], (0, BASE, 2), 0),
    // lui x5, 0x7f100; lw x6, -2(x5): the address is not a multiple of 4, which is tested first.
    (&[0x7f10_02b7, 0xffe2_a303], (4, BASE + 4, 0x7f0f_fffe), 1),
    (&[0x7f10_02b7, 0x0022_a303], (4, BASE + 4, 0x7f10_0002), 1),
    // lw x6, 0(x5): one byte past the stack.
    (&[0x7f10_02b7, 0x0002_a303], (5, BASE + 4, 0x7f10_0000), 1),
    // ebreak
    (&[0x0010_0073], (3, BASE, BASE), 0),
    // not an instruction
    (&[0xffff_ffff], (2, BASE, 0xffff_ffff), 0),
    // addi x6, x0, 6; addi x7, x0, 7; mul x10, x6, x7: the base machine does not multiply.
    (
        &[0x0060_0313, 0x0070_0393, 0x0273_0533],
        (2, BASE + 8, 0x0273_0533),
        2,
    ),
];

/// A program that ends itself: its words, its status, and how many instructions have retired by then.
type Ending = (&'static [u32], u8, u64);

static ENDING: [Ending; 2] = [
    // A program that writes its last instruction over its fifth: with fence.i it is fetched again, with fence it is
    // not.
    (
        &[
            0x0001_02b7,
            0x01c2_a303,
            0x0062_a823,
            0x0000_100f,
            0x0010_0513,
            0x05d0_0893,
            0x0000_0073,
            0x0090_0513,
        ],
        9,
        6,
    ),
    (
        &[
            0x0001_02b7,
            0x01c2_a303,
            0x0062_a823,
            0x0ff0_000f,
            0x0010_0513,
            0x05d0_0893,
            0x0000_0073,
            0x0090_0513,
        ],
        1,
        6,
    ),
];

/// Compares how the machine ends, and how many instructions have retired by then.
fn assert_ends(rt: &impl Abort, mut machine: Machine, isa: Isa, ends: (Stepped, u64)) {
    let end = run(&mut machine, isa);
    assert_eq!(rt; (end, machine.retired()), ends);
}

#[test]
fn traps_as_the_manual_says(rt: HostRuntime) {
    for row in TRAPPING.iter() {
        let (words, (cause, pc, detail), retired) = *row;
        let end = Stepped::Trap { cause, pc, detail };
        assert_ends(
            &rt,
            machine_of(&rt, words, BASE),
            Isa::Rv32i,
            (end, retired),
        );
    }
}

#[test]
fn ends_as_the_manual_says(rt: HostRuntime) {
    for row in ENDING.iter() {
        let (words, status, retired) = *row;
        let end = Stepped::Exit(status);
        assert_ends(
            &rt,
            machine_of(&rt, words, BASE),
            Isa::Rv32i,
            (end, retired),
        );
    }
}

#[test]
fn entry_is_no_multiple_of_four(rt: HostRuntime) {
    let machine = machine_of(&rt, &[0x0070_0513], BASE + 2);
    let end = Stepped::Trap {
        cause: 0,
        pc: BASE + 2,
        detail: BASE + 2,
    };
    assert_ends(&rt, machine, Isa::Rv32i, (end, 0));
}

#[test]
fn multiplies_with_the_m_extension(rt: HostRuntime) {
    // addi x6, x0, 6; addi x7, x0, 7; mul x10, x6, x7; addi x17, x0, 93; ecall
    let words = [
        0x0060_0313,
        0x0070_0393,
        0x0273_0533,
        0x05d0_0893,
        0x0000_0073,
    ];
    let machine = machine_of(&rt, &words, BASE);
    assert_ends(&rt, machine, Isa::Rv32im, (Stepped::Exit(42), 4));
}

fn regs_of(number: u32, arguments: [u32; 3]) -> [u32; 32] {
    let mut regs = [0; 32];
    regs[17] = number;
    regs[10] = arguments[0];
    regs[11] = arguments[1];
    regs[12] = arguments[2];
    regs
}

/// The number of a call, its arguments, and its answer.
type Call = (u32, [u32; 3], Served);

static CALLS: [Call; 11] = [
    (64, [7, 0, 0], Served::Value(0xffff_fff7)),
    (64, [1, 0, 0], Served::Value(0)),
    // One byte beyond the region.
    (64, [1, 0x7f0f_fff8, 9], Served::Value(0xffff_fff2)),
    (64, [1, 0x7f0f_fff8, 8], Served::Value(8)),
    (93, [0x107, 0, 0], Served::Exit(7)),
    (94, [0x107, 0, 0], Served::Exit(7)),
    (214, [0, 0, 0], Served::Value(0x7f00_0000)),
    (214, [0x7f00_1000, 0, 0], Served::Value(0x7f00_1000)),
    (214, [0x7f08_0001, 0, 0], Served::Value(0x7f00_1000)),
    (214, [0x7f08_0000, 0, 0], Served::Value(0x7f08_0000)),
    (500, [0, 0, 0], Served::Value(0xffff_ffda)),
];

/// Only the zeroed stack.
fn stack_alone(rt: &(impl Abort + AllocGlobal)) -> Regions {
    memory_of(rt, b"", &[STACK])
}

/// Compares the answer of a call without input.
fn assert_answers(
    rt: &impl Abort,
    (number, arguments, wanted): Call,
    memory: &mut Regions,
    output: &mut MemSink,
) {
    let regs = regs_of(number, arguments);
    assert_eq!(rt; serve(&regs, memory, &mut Empty, output), wanted);
}

#[test]
fn serves(rt: HostRuntime) {
    let mut memory = stack_alone(&rt);
    let mut output = MemSink::new(rt.alloc(), 20, Vec::new(rt.alloc())).expect(&rt, "an output");
    for call in CALLS.iter() {
        assert_answers(&rt, *call, &mut memory, &mut output);
    }
    assert!(rt; output.bytes() == [0; 8].as_slice());
}

/// An input of six bytes, three at a time, that fails at these calls.
fn six_bytes(rt: &(impl Abort + AllocGlobal), fails: &[u64]) -> MemSource {
    let bytes = b"abcdef".to_vec(rt.alloc()).expect(rt, "an input");
    let fails = fails.to_vec(rt.alloc()).expect(rt, "its failures");
    MemSource::new(bytes, 3, fails)
}

/// Whether the bytes are at the bottom of the stack.
fn stand_below(memory: &Regions, bytes: &[u8; 8]) -> bool {
    memory.part(0x7f00_0000, 8) == Some(bytes.as_slice())
}

/// Reads eight bytes to the bottom of the stack from an input that fails at these calls.
fn assert_reads(rt: &(impl Abort + AllocGlobal), fails: &[u64], wanted: Served, buffer: &[u8; 8]) {
    let mut memory = stack_alone(rt);
    let mut input = six_bytes(rt, fails);
    let regs = regs_of(63, [0, 0x7f00_0000, 8]);
    assert_eq!(rt; serve(&regs, &mut memory, &mut input, &mut Nowhere), wanted);
    assert!(rt; stand_below(&memory, buffer), "another buffer");
}

#[test]
fn reads_into_the_buffer(rt: HostRuntime) {
    assert_reads(&rt, &[2], Served::ReadFault, b"abc\0\0\0\0\0");
    assert_reads(&rt, &[], Served::Value(6), b"abcdef\0\0");
}
