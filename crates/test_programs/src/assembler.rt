//! Sources and the words that GNU as and ld 2.40 produce for them, and refusals in their order.
ghost use Rattle.rv_asm.specs.Small.{IsSmallObject};
ghost use Rattle.std.specs.Prelude.{IfSome};

use rv_asm::{AsmKind, Object, assemble};
use rv_text::TextErr;
use std::alloc::{AllocError, Global};

const SOURCE: &str = "\
    .globl _start\n\
    _start:\n\
    nop\n\
    mv a0, a1\n\
    not t0, t1\n\
    neg s0, s1\n\
    li a0, 2047\n\
    li a0, -2048\n\
    li a0, 2048\n\
    li a0, -2049\n\
    li a0, 4294967295\n\
    li a0, 0x12345fff\n\
    li a0, 4096\n\
    loop: beqz a0, loop\n\
    bnez a1, next\n\
    bltz a2, loop\n\
    bgez a3, next\n\
    next: j loop\n\
    jr t2\n\
    la a4, table\n\
    call sub\n\
    ret\n\
    sub: beq x1, x2, next\n\
    lw x5, 8(x6)\n\
    jal x1, loop\n\
    mul x5, x6, x7\n\
    .data\n\
    table: .word 1, -1, loop, 0xffffffff\n\
    .half 2, -2\n\
    .byte 255, -128, 7\n\
    .ascii \"a\\n\\\"#\"\n\
    .asciz \"z\\\\\"\n\
    .space 3\n\
    .align 2\n\
    .word table\n\
";

const TEXT: [u32; 29] = [
    0x0000_0013,
    0x0005_8513,
    0xfff3_4293,
    0x4090_0433,
    0x7ff0_0513,
    0x8000_0513,
    0x0000_1537,
    0x8005_0513,
    0xffff_f537,
    0x7ff5_0513,
    0xfff0_0513,
    0x1234_6537,
    0xfff5_0513,
    0x0000_1537,
    0x0005_0063,
    0x0005_9663,
    0xfe06_4ce3,
    0x0006_d263,
    0xff1f_f06f,
    0x0003_8067,
    0x001f_0717,
    0xfb07_0713,
    0x0000_0097,
    0x00c0_80e7,
    0x0000_8067,
    0xfe20_82e3,
    0x0083_2283,
    0xfcdf_f0ef,
    0x0273_02b3,
];

const DATA: [u32; 10] = [
    0x0000_0001,
    0xffff_ffff,
    0x0001_0038,
    0xffff_ffff,
    0xfffe_0002,
    0x6107_80ff,
    0x7a23_220a,
    0x0000_005c,
    0x0000_0000,
    0x0020_0000,
];

/// Whether the bytes are those of the words, the low byte of each first.
fn spell(bytes: &[u8], words: &[u32]) -> bool {
    let mut rest = bytes;
    for word in words {
        match rest.strip_prefix(&word.to_le_bytes()) {
            Some(after) => rest = after,
            None => return false,
        }
    }
    rest.is_empty()
}

/// The object that a source is assembled into, if it is accepted.
pub(crate) fn object_of(rt: &impl AllocGlobal, source: &[u8]) -> Option<Object>
    ensures { IfSome result (λ object. IsSmallObject object) }
{
    assemble(rt.alloc(), source).ok()
}

/// Whether the object has these words and no others.
fn holds(object: &Object, text: &[u32], data: &[u32]) -> bool {
    spell(object.text_bytes.as_slice(), text) && spell(object.data_bytes.as_slice(), data)
}

fn gives(rt: &impl AllocGlobal, source: &[u8], text: &[u32], data: &[u32]) -> bool {
    match object_of(rt, source) {
        Some(object) => holds(&object, text, data),
        None => false,
    }
}

#[test]
fn a_program_is_assembled(rt: HostRuntime) {
    assert!(rt; gives(&rt, SOURCE.as_bytes(), &TEXT, &DATA));
    assert!(rt; gives(&rt, b"", &[], &[]));
}

/// Addresses that are almost 4 GiB away from the instruction's, computed in 32 bits, or half as far.
const FAR: &str = "la a0, 0xfffff800\nla a1, 0x7ffffffc\ncall 0xfffff800\n.text\nnop\n";

#[test]
fn distances_are_taken_in_32_bits(rt: HostRuntime) {
    let text = [
        0xffff_0517,
        0x8005_0513,
        0x7fff_0597,
        0xff45_8593,
        0xfffe_f097,
        0x7f00_80e7,
        0x0000_0013,
    ];
    assert!(rt; gives(&rt, FAR.as_bytes(), &text, &[]));
}

/// Empty lines and a last one, 1,048,576 bytes in total.
fn longest(alloc: Global) -> Result<Vec<u8>, AllocError> {
    let mut source = Vec::new(alloc);
    source.resize(1_048_572, b'\n')?;
    source.extend_from_slice(b"ret\n")?;
    Ok(source)
}

#[test]
fn a_source_may_have_1048576_bytes(rt: HostRuntime) {
    let source = longest(rt.alloc()).ok().expect(&rt, "memory");
    assert!(rt; gives(&rt, source.as_slice(), &[0x0000_8067], &[]));
}

fn entry(rt: &impl AllocGlobal, source: &str) -> u32 {
    match object_of(rt, source.as_bytes()) {
        Some(object) => object.entry,
        None => 0,
    }
}

#[test]
fn a_program_is_entered_at_its_label(rt: HostRuntime) {
    assert!(rt; entry(&rt, "nop") == 0x1_0000);
    assert!(rt; entry(&rt, "nop\r\n_start: # here") == 0x1_0004);
}

fn refusal(rt: &impl AllocGlobal, source: &[u8]) -> Option<(u32, AsmKind)> {
    match assemble(rt.alloc(), source) {
        Ok(_) => None,
        Err(e) => Some((e.line, e.kind)),
    }
}

const REFUSALS: [(&[u8], u32, AsmKind); 25] = [
    (
        b"nop\naddi x1, x2, 2048",
        2,
        AsmKind::Text(TextErr::OutOfRange(2048)),
    ),
    (b"frob # \xff", 1, AsmKind::NotAscii),
    (b"1: nop", 1, AsmKind::Text(TextErr::UnknownName)),
    (b"mv x32, x1", 1, AsmKind::Text(TextErr::BadRegister)),
    (b"a : nop", 1, AsmKind::Text(TextErr::UnknownName)),
    (b".frob", 1, AsmKind::UnknownDirective),
    (b".ascii\"x\"", 1, AsmKind::UnknownDirective),
    (b"a: nop\na: .frob", 2, AsmKind::LabelTwice),
    (b"j foo+4\n", 1, AsmKind::NoLabel),
    (b".globl never", 1, AsmKind::NoLabel),
    (b".globl 1", 1, AsmKind::Text(TextErr::UnknownName)),
    (
        b"beq x1, x2, far\n.space 4092\nfar:",
        1,
        AsmKind::TooFar(4096),
    ),
    (
        b"beq x1, x2, 0x11000",
        1,
        AsmKind::Text(TextErr::OutOfRange(4096)),
    ),
    (b".ascii", 1, AsmKind::BadString),
    (b".ascii \"a\" \"b\"", 1, AsmKind::BadString),
    (b".asciz \"\\q\"", 1, AsmKind::BadString),
    (b".data\nnop", 2, AsmKind::Misplaced),
    (b".byte 1\nnop", 2, AsmKind::Misplaced),
    (
        b".data\nj 0x10000",
        2,
        AsmKind::Text(TextErr::OutOfRange(-0x1f_0000)),
    ),
    (b".byte 0\n.space 1048576", 2, AsmKind::TooLarge(1_048_577)),
    (b".byte 256", 1, AsmKind::Text(TextErr::OutOfRange(256))),
    (b".half a", 1, AsmKind::Text(TextErr::BadNumber)),
    (
        b".word",
        1,
        AsmKind::Text(TextErr::WrongCount { got: 0, wanted: 1 }),
    ),
    (
        b".text 1",
        1,
        AsmKind::Text(TextErr::WrongCount { got: 1, wanted: 0 }),
    ),
    (
        b"nop \"#\"",
        1,
        AsmKind::Text(TextErr::WrongCount { got: 1, wanted: 0 }),
    ),
];

#[test]
fn the_first_failing_test_is_answered(rt: HostRuntime) {
    for (source, line, kind) in &REFUSALS {
        assert!(rt; refusal(&rt, source) == Some((*line, *kind)), "line {line}");
    }
}
