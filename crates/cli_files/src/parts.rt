//! The parts of memory that a program file describes.

ghost use Rattle.std.specs.Prelude.{◌≡◌, ◌-◌, ◌^◌, ◌≤◌, length, min, take};
ghost use Rattle.elf_view.specs.Segments.{shown_segment};
ghost use Rattle.cli_files.specs.Image.{part_of as part_for, takes_room as has_room, elf_parts, flat_part as part_of_all};

use elf_view::{Elf, Segment};
use mem_regions::Part;

/// The maximum number of parts, including the stack.
pub const MOST_PARTS: u32 = 16;

/// A stack of 1 MiB, zeroed.
pub const STACK: Part = Part {
    base: 0x7f00_0000,
    start: 0,
    len: 0,
    size: 0x10_0000,
    write: true,
    exec: false,
};

/// The address of a flat image, and its entry.
pub const FLAT_BASE: u32 = 0x1_0000;

/// The part that a flat image of this size makes.
pub fn flat_part(size: u32) -> Part
    ensures { result ≡ part_of_all size }
{
    Part {
        base: FLAT_BASE,
        start: 0,
        len: size,
        size,
        write: true,
        exec: true,
    }
}

/// The part that a segment makes.
fn part_of(segment: &Segment) -> Part
    ensures { result ≡ part_for (shown_segment segment.now) }
{
    Part {
        base: segment.vaddr,
        start: segment.offset,
        len: segment.bytes.len() as u32,
        size: segment.memsz,
        write: segment.write,
        exec: segment.exec,
    }
}

/// Whether a segment takes up memory.
fn takes_room(segment: &Segment) -> bool
    ensures { result ≡ has_room (shown_segment segment.now) }
{
    segment.memsz > 0
}

/// The number of parts of an ELF file, or the largest u32 if it has more.
#[tactic(auto, unfolding(crate::specs::Image::elf_parts))]
pub fn count_parts(elf: &Elf) -> u32
    ensures { result ≡ min (length (elf_parts elf.now)) (2 ^ 32 - 1) }
{
    // The stack is a part besides those of the segments.
    let mut count = 1u32;
    for segment in elf.segments() {
        if takes_room(&segment) {
            count = count.saturating_add(1);
        }
    }
    count
}

/// The parts of an ELF file, and their number: those of its segments that take up memory, then the stack.
#[tactic(auto, unfolding(crate::specs::Image::elf_parts))]
pub fn parts_of(elf: &Elf) -> ([Part; 16], usize)
    requires { length (elf_parts elf.now) ≤ 16 }
    ensures parts { take result.1 result.0 ≡ elf_parts elf.now }
    ensures count { result.1 ≤ 16 }
{
    let mut parts = [STACK; 16];
    let mut count = 0;
    for segment in elf.segments() {
        if takes_room(&segment) {
            parts[count] = part_of(&segment);
            count += 1;
        }
    }
    parts[count] = STACK;
    (parts, count + 1)
}
