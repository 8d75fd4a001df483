//! Processors that are about to run the words of a program.
ghost use Rattle.cf_core.specs.Processors.{IsOpened};

use cf_bind::{Guess, Move};
use cf_core::{Core, Step};
use cf_io::{Empty, Nowhere};
use cf_layout::Layout;
use layout_file::read_layout;
use mem_regions::{Part, Regions};
use rv_machine::Machine;
use std::process::Abort;

/// Two stages.
pub(crate) const TINY: &[u8] =
    b"format = 1\nstages = 2\nlane = 4\n[units]\nadd = [1, 2]\nlogic = [1]\nshift = [2]\n\
        compare = [1]\nbranch = [1]\njump = [1]\n[[siding]]\nclasses = [\"memory\"]\n\
        launch = 1\nrecover = 2\ncells = 1\n";

/// `addi x10, x0, 7`, `addi x17, x0, 93` and `ecall`: the program ends with status 7.
pub(crate) const SEVEN: &[u32] = &[0x0070_0513, 0x05d0_0893, 0x0000_0073];

/// `addi x10, x0, 7` and `beq x0, x0, 0`.
pub(crate) const BRANCH_BEHIND: &[u32] = &[0x0070_0513, 0x0000_0063];

/// The layout that a text describes.
pub(crate) fn layout_of(rt: &(impl Abort + AllocGlobal), text: &[u8]) -> Layout {
    read_layout(rt.alloc(), text).ok().expect(rt, "layout")
}

/// The file of words.
fn file_of(rt: &(impl Abort + AllocGlobal), words: &[u32]) -> Vec<u8> {
    let mut bytes = Vec::new(rt.alloc());
    for word in words {
        bytes
            .extend_from_slice(&word.to_le_bytes())
            .expect(rt, "memory");
    }
    bytes
}

/// A flat image of at most eight words, and a stack.
fn memory_of(rt: &(impl Abort + AllocGlobal), words: &[u32]) -> Regions {
    assert!(rt; words.len() <= 8, "too many words");
    let bytes = file_of(rt, words);
    assert!(rt; bytes.len() == 4 * words.len(), "length");
    let size = bytes.len() as u32;
    let image = Part {
        base: 0x1_0000,
        start: 0,
        len: size,
        size,
        write: true,
        exec: true,
    };
    let stack = Part {
        base: 0x7f00_0000,
        start: 0,
        len: 0,
        size: 0x10_0000,
        write: true,
        exec: false,
    };
    Regions::load(rt.alloc(), bytes.as_slice(), &[image, stack])
        .ok()
        .expect(rt, "memory")
}

/// A processor of a layout on a flat image of at most eight words, with a stack.
pub(crate) fn core_of(rt: &(impl Abort + AllocGlobal), layout: Layout, words: &[u32]) -> Core
    ensures { IsOpened result }
{
    let machine = Machine::new(memory_of(rt, words), 0x1_0000);
    Core::new(rt.alloc(), layout, machine).expect(rt, "memory")
}

/// Makes a move that nothing bars.
pub(crate) fn make(rt: &impl Abort, core: &mut Core, mv: Move) {
    assert!(rt; core.allowed(mv).is_none(), "barred");
    assert!(rt; core.retired() <= 1000, "too many retired");
    let step = core.step(mv, &mut Empty, &mut Nowhere);
    assert!(rt; matches!(step, Step::Moved(_)), "not moved");
}

/// Issues the first instruction of a processor, which climbs to stage 2.
pub(crate) fn enter_stage_2(rt: &impl Abort, core: &mut Core) {
    make(rt, core, Move::Issue(Guess::Next));
    make(rt, core, Move::Climb(1));
}
