//! The program break: the end of the heap, which is the lower half of the stack's region.

ghost use Rattle.std.specs.Prelude.{◌≡◌, ◌≤◌};

use crate::Regions;

/// Where the heap begins, and the break of a program that has just been loaded.
pub(crate) const HEAP_START: u32 = 0x7f00_0000;

impl Regions {
    /// The program break: the first address after the heap.
    pub fn brk(&self) -> u32
        ensures { result ≡ self.now.program_break }
    {
        self.program_break
    }

    /// Moves the program break to the address, which is in the heap's range or at its end.
    pub fn set_brk(&mut self, addr: u32)
        requires from { 0x7f000000 ≤ addr }
        requires to { addr ≤ 0x7f080000 }
        ensures { self.new ≡ record self.old { program_break = addr } }
    {
        self.program_break = addr;
    }
}
