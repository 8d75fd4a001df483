//! Making the changes in a memory, and undoing them.

ghost use Rattle.std.specs.Prelude.{◌≡◌, ◌∷◌, []};
ghost use Rattle.mem_regions.specs.Writing.{memory_with};
ghost use Rattle.mem_changes.specs.Applied.{memory_after};
ghost use Rattle.mem_changes.specs.Differing.{AreChanges};
ghost use Rattle.mem_changes.specs.Steps.{all_restored, all_written};

use crate::changes::{Change, Changes};
use crate::image::Image;
use mem_regions::Regions;

/// Writes the byte, if it may be written.
#[inline(always)]
fn write(mem: &mut Regions, addr: u32, byte: u8)
    ensures { mem.new ≡ memory_with mem.old addr 1 (byte ∷ []) }
{
    mem.put_back(addr, 1, u32::from(byte));
}

/// Writes the bytes of the changes.
#[tactic(auto, using(crate::proofs::Steps::written_steps))]
fn write_all(mem: &mut Regions, changes: &[Change])
    ensures { mem.new ≡ all_written changes.now mem.old }
{
    for change in changes {
        write(mem, change.addr, change.byte);
    }
}

/// Writes the bytes that were loaded at the addresses of the changes.
#[tactic(auto, using(crate::proofs::Steps::restored_steps))]
fn restore_all(mem: &mut Regions, image: &Image, changes: &[Change])
    ensures { mem.new ≡ all_restored image.now changes.now mem.old }
{
    for change in changes {
        write(mem, change.addr, image.byte(change.addr));
    }
}

impl Changes {
    /// Makes the changes of the code. Code is set by synchronizing it with the bytes, which are restored afterwards.
    #[tactic(auto, using(crate::proofs::Made::making))]
    fn apply_code(&self, image: &Image, mem: &mut Regions)
        requires lists { AreChanges image.now self.now }
        requires loaded { mem.old ≡ image.now }
        ensures { mem.new ≡ memory_after (record { bytes = []; code = self.now.code; program_break = image.now.program_break }) image.now }
    {
        let _ = image.memory();
        if self.code.is_empty() {
            return;
        }
        write_all(mem, &self.code);
        mem.sync_code();
        restore_all(mem, image, &self.code);
    }

    /// Makes the changes in the memory as it was loaded.
    #[tactic(auto, using(crate::proofs::Made::making))]
    pub fn apply(&self, image: &Image, mem: &mut Regions)
        requires lists { AreChanges image.now self.now }
        requires loaded { mem.old ≡ image.now }
        ensures { mem.new ≡ memory_after self.now image.now }
    {
        let _ = image.memory();
        self.apply_code(image, mem);
        write_all(mem, &self.bytes);
        mem.set_brk(self.program_break);
    }

    /// Undoes the changes of the code, when the bytes are those that were loaded.
    #[tactic(auto, using(crate::proofs::Made::taking))]
    fn take_code_back(&self, image: &Image, mem: &mut Regions)
        requires { mem.old ≡ memory_after (record self.now { bytes = [] }) image.now }
        ensures { mem.new ≡ memory_after (record self.now { bytes = []; code = [] }) image.now }
    {
        let _ = image.memory();
        if !self.code.is_empty() {
            mem.sync_code();
        }
    }

    /// Undoes the changes: the memory is again as it was loaded.
    #[tactic(auto, using(crate::proofs::Made::taking))]
    pub fn take_back(&self, image: &Image, mem: &mut Regions)
        requires lists { AreChanges image.now self.now }
        requires changed { mem.old ≡ memory_after self.now image.now }
        ensures { mem.new ≡ image.now }
    {
        let _ = image.memory();
        restore_all(mem, image, &self.bytes);
        self.take_code_back(image, mem);
        mem.set_brk(image.memory().brk());
    }

    /// Turns a memory with these changes into one with others.
    pub fn turn_into(&self, other: &Changes, image: &Image, mem: &mut Regions)
        requires lists { AreChanges image.now self.now }
        requires other_lists { AreChanges image.now other.now }
        requires changed { mem.old ≡ memory_after self.now image.now }
        ensures { mem.new ≡ memory_after other.now image.now }
    {
        if self.same(other) {
            return;
        }
        self.take_back(image, mem);
        other.apply(image, mem);
    }
}
