//! Machines that are about to run the words of a program.
ghost use Rattle.std.specs.Prelude.{All};
ghost use Rattle.mem_regions.specs.Loading.{LiesIn};

use mem_regions::{Part, Regions};
use rv_machine::Machine;
use std::process::Abort;

/// Where the words of a program are.
pub(crate) const BASE: u32 = 0x1_0000;

/// A stack of 1 MiB, zeroed.
pub(crate) const STACK: Part = Part {
    base: 0x7f00_0000,
    start: 0,
    len: 0,
    size: 0x10_0000,
    write: true,
    exec: false,
};

/// A memory of these parts, which are accepted.
pub(crate) fn memory_of(rt: &(impl Abort + AllocGlobal), file: &[u8], parts: &[Part]) -> Regions
    requires { All (LiesIn file.now) parts.now }
{
    Regions::load(rt.alloc(), file, parts).expect(rt, "memory of these parts")
}

/// The words as the bytes of a program, the low byte first.
fn bytes_of(rt: &(impl Abort + AllocGlobal), words: &[u32]) -> Vec<u8> {
    let mut bytes = Vec::new(rt.alloc());
    for word in words {
        bytes
            .extend_from_slice(&word.to_le_bytes())
            .expect(rt, "memory for a program");
    }
    bytes
}

/// A machine whose words are at `BASE` in a region that may be read, written and executed, with a stack.
pub(crate) fn machine_of(rt: &(impl Abort + AllocGlobal), words: &[u32], entry: u32) -> Machine {
    let file = bytes_of(rt, words);
    assert!(rt; words.len() <= 16 && file.len() == 4 * words.len());
    let size = file.len() as u32;
    let image = Part {
        base: BASE,
        start: 0,
        len: size,
        size,
        write: true,
        exec: true,
    };
    Machine::new(memory_of(rt, file.as_slice(), &[image, STACK]), entry)
}
