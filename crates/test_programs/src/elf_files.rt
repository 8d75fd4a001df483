//! What no clause says: that files are accepted, and that the definitions have the intended meaning. The offsets and
//! numbers are those of the Tool Interface Standard, Executable and Linking Format Specification, with the machine and
//! the flags of the RISC-V ELF psABI Specification. `readelf -h -l -S -s` of GNU binutils reads both files as described
//! here.

use byteorder::{ByteOrder, LittleEndian};
use elf_view::{Elf, ElfErr, LazySymbols, Segments, Symbols};
use std::process::Abort;

/// A file of zeros except for these numbers at these offsets.
fn filled(numbers: &[(usize, u32)]) -> [u8; 248] {
    let mut file = [0; 248];
    for (at, number) in numbers {
        put(&mut file, *at, *number);
    }
    file
}

/// Writes a number, at least up to the end of the file.
fn put(file: &mut [u8; 248], at: usize, number: u32) {
    LittleEndian::write_u32(&mut file[at.min(244)..], number);
}

/// A program that writes a greeting, as a linker lays it out: headers and code in one segment, the greeting in another.
/// A program header has its type, the offset of the segment, its address, at 16 its sizes in the file and in memory,
/// and its flags.
const PROGRAM: [(usize, u32); 34] = [
    // The file header.
    (0, 0x464c_457f),
    (4, 0x0001_0101),
    (16, 0x00f3_0002),
    (20, 1),
    (24, 0x0001_00b4),
    (28, 52),
    (40, 0x0020_0034),
    (44, 4),
    // A header of the machine's attributes.
    (52, 0x7000_0003),
    (56, 0xde),
    (60, 0),
    (68, 0x1a),
    (72, 0),
    (76, 4),
    // The code.
    (84, 1),
    (88, 0),
    (92, 0x0001_0000),
    (100, 0xd8),
    (104, 0xd8),
    (108, 5),
    // The greeting.
    (116, 1),
    (120, 0xd8),
    (124, 0x0001_10d8),
    (132, 6),
    (136, 0x20),
    (140, 6),
    // The stack.
    (148, 0x6474_e551),
    (152, 0),
    (156, 0),
    (164, 0),
    (168, 0),
    (172, 6),
    // The greeting's letters.
    (0xd8, 0x6c6c_6568),
    (0xdc, 0x0000_0a6f),
];

/// The numbers of section headers that begin beyond the program.
const CUT_SECTIONS: [(usize, u32); 3] = [(32, 240), (44, 0x0028_0004), (48, 1)];

fn refused(file: &[u8]) -> Option<ElfErr> {
    Elf::view(file).err()
}

/// The refusal of the file with one number changed.
fn refused_with(mut file: [u8; 248], at: usize, number: u32) -> Option<ElfErr> {
    put(&mut file, at, number);
    refused(&file)
}

/// The numbers of a segment: its address, its offset, its size in memory, whether it is writable and whether it is
/// code.
type Numbers = (u32, u32, u32, bool, bool);

/// Whether the next segment has these numbers and these bytes.
fn is_next(segments: &mut Segments<'_>, numbers: Numbers, bytes: &[u8]) -> bool {
    match segments.next() {
        Some(s) => (s.vaddr, s.offset, s.memsz, s.write, s.exec) == numbers && s.bytes == bytes,
        None => false,
    }
}

#[test]
fn lends_the_segments(rt: HostRuntime) {
    let file = filled(&PROGRAM);
    let elf = Elf::view(&file).ok().expect(&rt, "a program");
    let mut segments = elf.segments();
    let code = (0x0001_0000, 0, 0xd8, false, true);
    let data = (0x0001_10d8, 0xd8, 0x20, true, false);
    assert!(rt; elf.entry() == 0x0001_00b4);
    assert!(rt; is_next(&mut segments, code, &file[..0xd8]), "the code");
    assert!(rt; is_next(&mut segments, data, b"hello\n"), "the greeting");
    assert!(rt;
        segments.next().is_none(),
        "other headers are of no segment"
    );
    assert!(rt; elf.symbols().next().is_none(), "no sections");
}

/// How many bytes of the program are left, and the answer.
const CUTS: [(usize, Option<ElfErr>); 16] = [
    (0, Some(ElfErr::TooShort(0))),
    (51, Some(ElfErr::TooShort(0))),
    (52, Some(ElfErr::TooShort(52))),
    (83, Some(ElfErr::TooShort(52))),
    (84, Some(ElfErr::TooShort(84))),
    (115, Some(ElfErr::TooShort(84))),
    (116, Some(ElfErr::TooShort(116))),
    (147, Some(ElfErr::TooShort(116))),
    (148, Some(ElfErr::TooShort(148))),
    (179, Some(ElfErr::TooShort(148))),
    (180, Some(ElfErr::OutsideFile(1))),
    (215, Some(ElfErr::OutsideFile(1))),
    (216, Some(ElfErr::OutsideFile(2))),
    (221, Some(ElfErr::OutsideFile(2))),
    (222, None),
    (248, None),
];

#[test]
fn refuses_a_file_that_is_cut(rt: HostRuntime) {
    let file = filled(&PROGRAM);
    for (length, answer) in &CUTS {
        assert!(rt; refused(&file[..(*length).min(248)]) == *answer, "{length}");
    }
}

/// The offset at which a number of the program is changed, the new number, and the answer.
const CHANGES: [(usize, u32, Option<ElfErr>); 14] = [
    (0, 0x464c_457e, Some(ElfErr::NotElf)),
    (4, 0x0001_0102, Some(ElfErr::Not32Little)),
    (16, 0x003e_0003, Some(ElfErr::NotExecutable(3))),
    (16, 0x003e_0002, Some(ElfErr::NotRiscv(62))),
    (28, u32::MAX, Some(ElfErr::TooShort(4_294_967_295))),
    (36, 1, Some(ElfErr::NeedsCompressed)),
    (36, 4, Some(ElfErr::NeedsFloat)),
    (36, 8, Some(ElfErr::NeedsRve)),
    (40, 0x0038_0034, Some(ElfErr::BadHeaderSize(56))),
    (44, 0, None),
    (44, 65_535, Some(ElfErr::TooShort(244))),
    (88, u32::MAX, Some(ElfErr::OutsideFile(1))),
    (136, 5, Some(ElfErr::FileLargerThanMemory(2))),
    (148, 3, Some(ElfErr::NeedsInterpreter)),
];

#[test]
fn refuses_what_was_changed(rt: HostRuntime) {
    let file = filled(&PROGRAM);
    for (at, number, answer) in &CHANGES {
        assert!(rt; refused_with(file, *at, *number) == *answer, "{at}");
    }
}

#[test]
fn refuses_section_headers_that_are_cut(rt: HostRuntime) {
    let mut file = filled(&PROGRAM);
    for (at, number) in &CUT_SECTIONS {
        put(&mut file, *at, *number);
    }
    assert!(rt; refused(&file) == Some(ElfErr::TooShort(240)));
}

/// No segments, and three symbols, the last two of which share the end of their names: the sections are the empty one,
/// the symbols from 64 on and the names from 52 on. A section header has at 4 its type, at 16 its offset and size and
/// the section that it links to, and at 36 the size of its entries.
const LABELS: [(usize, u32); 26] = [
    // The file header.
    (0, 0x464c_457f),
    (4, 0x0001_0101),
    (16, 0x00f3_0002),
    (20, 1),
    (24, 0x0001_00b4),
    (32, 128),
    (40, 0x0020_0034),
    (44, 0x0028_0000),
    (48, 3),
    // The names.
    (52, 0x6572_6f00),
    (56, 0x0000_7473),
    // The symbols after the empty one.
    (80, 1),
    (84, 0x0001_0000),
    (88, 8),
    (96, 3),
    (100, 0x0020_0000),
    // The section of the symbols.
    (172, 2),
    (184, 64),
    (188, 48),
    (192, 2),
    (204, 16),
    // The section of the names.
    (212, 3),
    (224, 52),
    (228, 8),
    (232, 0),
    (244, 0),
];

/// Whether the next symbol has this name, value and size.
fn is_next_symbol(symbols: &mut Symbols<'_>, name: &[u8], value: u32, size: u32) -> bool {
    match symbols.next() {
        Some(s) => s.name == name && (s.value, s.size) == (value, size),
        None => false,
    }
}

#[test]
fn lends_the_names(rt: HostRuntime) {
    let file = filled(&LABELS);
    let elf = Elf::view(&file).ok().expect(&rt, "symbols");
    let mut symbols = elf.symbols();
    assert!(rt; is_next_symbol(&mut symbols, b"", 0, 0));
    assert!(rt; is_next_symbol(&mut symbols, b"orest", 0x0001_0000, 8));
    assert!(rt; is_next_symbol(&mut symbols, b"est", 0x0020_0000, 0));
    assert!(rt; symbols.next().is_none(), "three");
    assert!(rt; elf.segments().next().is_none(), "no segments");
}

/// Whether the next symbol, whose name is looked up late, has this name, value and size.
fn is_next_late(symbols: &mut LazySymbols<'_>, name: &[u8], value: u32, size: u32) -> bool {
    match symbols.next() {
        Some(s) => {
            s.is_named() != name.is_empty()
                && (s.value, s.size) == (value, size)
                && s.symbol().name == name
        }
        None => false,
    }
}

#[test]
fn looks_for_names_late(rt: HostRuntime) {
    let file = filled(&LABELS);
    let elf = Elf::view(&file).ok().expect(&rt, "symbols");
    let mut symbols = elf.lazy_symbols();
    assert!(rt; is_next_late(&mut symbols, b"", 0, 0), "no name");
    assert!(rt; is_next_late(&mut symbols, b"orest", 0x0001_0000, 8));
}

const BAD: Option<ElfErr> = Some(ElfErr::BadSymbols(1));

/// The offset at which a number of the file of labels is changed, the new number, the answer, and what is wrong.
const UNSOUND: [(usize, u32, Option<ElfErr>, &str); 9] = [
    (96, 8, BAD, "a name that begins at their end"),
    (96, 7, None, "an empty name at the last NUL"),
    (188, 40, BAD, "half an entry"),
    (188, 192, BAD, "entries beyond the file"),
    (192, 3, BAD, "no such section"),
    (204, 20, BAD, "entries of 20 bytes"),
    (228, 0, BAD, "no names"),
    (228, 6, BAD, "no NUL at the end"),
    (228, 197, BAD, "names beyond the file"),
];

#[test]
fn refuses_symbols_that_are_not_sound(rt: HostRuntime) {
    let file = filled(&LABELS);
    for (at, number, answer, what) in &UNSOUND {
        assert!(rt; refused_with(file, *at, *number) == *answer, "{what}");
    }
}
