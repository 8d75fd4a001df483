//! What no clause says: that files are written, and that the definitions have the intended meaning. The offsets and
//! numbers are those of the Tool Interface Standard, Executable and Linking Format Specification; `readelf -a` of GNU
//! binutils reads the file as described here.

use crate::assembler::object_of;
use elf_make::write_elf;
use elf_view::{Elf, Symbols};
use std::process::Abort;

/// The file of a source.
fn written(rt: &(impl Abort + AllocGlobal), source: &[u8]) -> Vec<u8> {
    let object = object_of(rt, source).expect(rt, "a program");
    write_elf(rt.alloc(), &object).ok().expect(rt, "memory")
}

/// The entry point of the file is the start of the code, and its segments are empty.
fn assert_empty(rt: &impl Abort, file: &[u8]) {
    let elf = Elf::view(file).ok().expect(rt, "an executable");
    assert!(*rt; elf.entry() == 0x1_0000);
    for segment in elf.segments() {
        assert!(*rt; segment.bytes.is_empty());
    }
}

#[test]
fn an_empty_program_has_412_bytes(rt: HostRuntime) {
    let file = written(&rt, b"");
    assert!(rt; file.len() == 412);
    assert_empty(&rt, file.as_slice());
}

/// Where a part of a file is, and its bytes.
const PARTS: [(usize, &[u8]); 9] = [
    (
        0,
        b"\x7fELF\x01\x01\x01\0\0\0\0\0\0\0\0\0\x02\0\xf3\0\x01\0\0\0",
    ),
    (24, b"\x01\0\x20\0\x34\0\0\0\xf0\0\0\0\0\0\0\0"),
    (40, b"\x34\0\x20\0\x02\0\x28\0\x06\0\x05\0"),
    (
        84,
        b"\x01\0\0\0\x78\0\0\0\0\0\x20\0\0\0\x20\0\x01\0\0\0\x01\0\0\0\x06\0\0\0\x04\0\0\0",
    ),
    (116, b"\x13\0\0\0\x07\0\0\0"),
    (140, b"\x01\0\0\0\0\0\x01\0\0\0\0\0\0\0\x01\0"),
    (156, b"\x03\0\0\0\x01\0\x20\0\0\0\0\0\0\0\x02\0"),
    (
        172,
        b"\x0a\0\0\0\0\0\x20\0\0\0\0\0\x10\0\x02\0\0a\0_start\0b\0\0.text\0",
    ),
    (
        360,
        b"\x0d\0\0\0\x02\0\0\0\0\0\0\0\0\0\0\0\x7c\0\0\0\x40\0\0\0\x04\0\0\0\x03\0\0\0",
    ),
];

fn assert_parts(rt: &impl Abort, file: &[u8]) {
    for (at, part) in &PARTS {
        let rest = file.get(*at..).unwrap_or(b"");
        assert!(*rt; rest.starts_with(part), "{at}");
    }
}

#[test]
fn parts_stand_where_they_are_told(rt: HostRuntime) {
    let file = written(&rt, b"a: nop\n.data\n.globl b\nb: .byte 7\n_start:");
    assert!(rt; file.len() == 480);
    assert_parts(&rt, file.as_slice());
}

/// Whether the next symbol has this name and this value.
fn is_next(symbols: &mut Symbols<'_>, name: &[u8], value: u32) -> bool {
    match symbols.next() {
        Some(symbol) => symbol.name == name && symbol.value == value,
        None => false,
    }
}

fn assert_symbols(rt: &impl Abort, file: &[u8]) {
    let elf = Elf::view(file).ok().expect(rt, "an executable");
    let mut symbols = elf.symbols();
    assert!(*rt; is_next(&mut symbols, b"", 0));
    assert!(*rt; is_next(&mut symbols, b"second", 0x1_0004));
    assert!(*rt; is_next(&mut symbols, b"third", 0x20_0000));
    assert!(*rt; is_next(&mut symbols, b"first", 0x1_0000));
    assert!(*rt; symbols.next().is_none());
}

#[test]
fn labels_are_symbols(rt: HostRuntime) {
    let file = written(&rt, b".globl first\nfirst: nop\nsecond: .data\nthird:");
    assert_symbols(&rt, file.as_slice());
}
