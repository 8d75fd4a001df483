//! What no clause says: that calls can succeed, and that the definitions have the intended meaning. The values are
//! worked out by hand; the instruction words are those of NOP and EBREAK in the RISC-V Unprivileged ISA Manual, "RV32I
//! Base Integer Instruction Set".

ghost use Rattle.std.specs.Prelude.{◌≡◌, All, [], false};
ghost use Rattle.mem_regions.specs.Loading.{LiesIn};

use crate::programs::memory_of;
use mem_regions::{LoadErr, MemErr, Part, Regions};
use std::alloc::Global;
use std::process::Abort;

const NOP: u32 = 0x0000_0013;

const EBREAK: u32 = 0x0010_0073;

/// Code, which is writable.
const CODE: Part = Part {
    base: 100,
    start: 0,
    len: 4,
    size: 8,
    write: true,
    exec: true,
};

/// Constants immediately after the code.
const CONSTANTS: Part = Part {
    base: 108,
    start: 4,
    len: 3,
    size: 4,
    write: false,
    exec: false,
};

/// Code at 100, and constants at 108.
fn memory(rt: &(impl Abort + AllocGlobal)) -> Regions {
    let file = [0x13, 0, 0, 0, 7, 8, 9];
    memory_of(rt, &file, &[CODE, CONSTANTS])
}

/// Whether the bytes are at the address, in one region.
fn stand_at(memory: &Regions, addr: u32, bytes: &[u8]) -> bool {
    bytes.len() < 100 && memory.part(addr, bytes.len() as u32) == Some(bytes)
}

#[test]
fn loads_the_bytes_and_then_zeros(rt: HostRuntime) {
    let memory = memory(&rt);
    assert!(rt; stand_at(&memory, 100, &[0x13, 0, 0, 0, 0, 0, 0, 0]));
    assert!(rt; stand_at(&memory, 108, &[7, 8, 9, 0]));
    assert!(rt; memory.brk() == 0x7f00_0000);
}

/// Whether a load of 2 or 4 bytes returns the number.
fn loads(memory: &Regions, addr: u32, width: u32, number: u32) -> bool {
    (width == 2 || width == 4) && memory.load_number(addr, width) == Ok(number)
}

/// Whether a fetch returns this word, or this error.
fn fetches(memory: &Regions, pc: u32, word: Result<u32, MemErr>) -> bool {
    memory.fetch(pc) == word
}

#[test]
fn fetches_what_was_synchronized(rt: HostRuntime) {
    let mut memory = memory(&rt);
    assert!(rt; memory.store(100, 4, EBREAK).is_ok());
    assert!(rt; loads(&memory, 100, 4, EBREAK));
    assert!(rt; loads(&memory, 102, 2, 0x0010));
    assert!(rt; fetches(&memory, 100, Ok(NOP)));
    memory.sync_code();
    assert!(rt; fetches(&memory, 100, Ok(EBREAK)));
    assert!(rt; fetches(&memory, 102, Err(MemErr::Misaligned)));
    // not executable
    assert!(rt; fetches(&memory, 108, Err(MemErr::NoAccess)));
}

#[test]
fn a_range_lies_in_one_region(rt: HostRuntime) {
    let memory = memory(&rt);
    assert!(rt; memory.permits(108, 4, false).is_ok());
    assert!(rt;
        memory.part(106, 4).is_none(),
        "over two regions that touch"
    );
    assert!(rt; memory.part(112, 0).is_some(), "empty, at the end");
    assert!(rt; memory.part(113, 0).is_none(), "empty, after the end");
}

#[test]
fn writes_through_a_loan(rt: HostRuntime) {
    let mut memory = memory(&rt);
    assert!(rt; memory.part_mut(108, 0).is_some(), "empty, at the border");
    assert!(rt; memory.part_mut(108, 1).is_none(), "read only");
    if memory.is_writable(104, 2) {
        memory.writable(104, 2).copy_from_slice(&[5, 6]);
    }
    assert!(rt; loads(&memory, 104, 4, 0x0605));
}

#[test]
fn moves_the_break(rt: HostRuntime) {
    let mut memory = memory(&rt);
    memory.set_brk(0x7f00_0010);
    assert!(rt; memory.brk() == 0x7f00_0010);
    assert!(rt; memory.same(&memory), "as itself");
}

/// A part with no bytes in the file.
fn zeros(base: u32, size: u32) -> Part
    ensures { result ≡ record { base = base; start = 0; len = 0; size = size; write = false; exec = false } }
{
    Part {
        base,
        start: 0,
        len: 0,
        size,
        write: false,
        exec: false,
    }
}

/// Whether parts with no bytes in a file get this refusal.
fn are_refused(alloc: Global, parts: &[Part], refusal: Option<LoadErr>) -> bool
    requires { All (LiesIn []) parts.now }
{
    Regions::load(alloc, &[], parts).err() == refusal
}

#[test]
fn refuses_the_first_fault(rt: HostRuntime) {
    let alloc = rt.alloc();
    assert!(rt; are_refused(alloc, &[zeros(0, 0); 17], Some(LoadErr::TooMany(17))));
    // and all together are too large
    let wraps = [
        zeros(0xffff_fff0, 16),
        zeros(0xffff_fff1, 16),
        zeros(0, u32::MAX),
    ];
    assert!(rt; are_refused(alloc, &wraps, Some(LoadErr::WrapsAround(1))));
    // and they overlap
    let large = [zeros(0, 0x0400_0000), zeros(0, 1)];
    assert!(rt; are_refused(alloc, &large, Some(LoadErr::TooLarge(67_108_865))));
    let overlap = [zeros(0, 10), zeros(20, 10), zeros(5, 20), zeros(0, 30)];
    assert!(rt; are_refused(alloc, &overlap, Some(LoadErr::Overlap(0, 2))));
    // an empty part overlaps none
    let touching = [zeros(0, 10), zeros(10, 10), zeros(5, 0)];
    assert!(rt; are_refused(alloc, &touching, None));
}
