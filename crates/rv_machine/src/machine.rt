//! A machine between two instructions: what it consists of.

ghost use Rattle.std.specs.Prelude.{◌≡◌, slice_index};
ghost use Rattle.rv_machine.specs.Machine.{start_hart};

use crate::decode_cache::DecodeCache;
use crate::flat_lines::FlatLines;
use mem_regions::Regions;
use std::marker::Model;

/// A machine between two instructions. Contracts see it as its hart.
#[derive(Drop)]
pub struct Machine {
    // At the beginning, where an instruction of the host needs no offset for them.
    pub(crate) regs: [u32; 32],
    pub(crate) pc: u32,
    pub(crate) mem: Regions,
    pub(crate) retired: u64,
    pub(crate) cache: DecodeCache,
    pub(crate) lines: FlatLines,
}

/// What a machine consists of.
#[derive(Drop)]
pub struct MachineParts {
    /// The address of the next instruction.
    pub pc: u32,

    /// The 32 registers; x0 is zero.
    pub regs: [u32; 32],

    /// The memory.
    pub mem: Regions,

    /// How many instructions have retired.
    pub retired: u64,
}

impl Model for Machine {
    ghost use Rattle.std.specs.Prelude.{◌≡◌, slice_index};
    ghost use Rattle.rv_machine.specs.Hart.{Hart};
    ghost use Rattle.rv_machine.specs.Decoded.{IsCacheOf};
    ghost use Rattle.rv_machine.specs.Lines.{AreLinesOf};

    ghost Value = { Hart };

    ghost view = { λ m. record { pc = m.pc; regs = m.regs; mem = m.mem; retired = m.retired } };

    ghost invariant = { λ m. (slice_index m.regs 0 ≡ 0) × IsCacheOf m.mem m.cache.places × AreLinesOf m.mem m.lines.lines };
}

impl Machine {
    /// A machine at its start: at the entry, with x2 below the top of the stack, all other registers 0, and nothing
    /// retired.
    #[tactic(auto, using(crate::proofs::Keeping::still, crate::proofs::Lines::still_lines))]
    pub fn new(mem: Regions, entry: u32) -> Machine
        ensures { result ≡ start_hart mem entry }
    {
        let mut regs = [0; 32];
        regs[2] = 0x7f0f_fff0;
        Machine {
            regs,
            pc: entry,
            mem,
            retired: 0,
            cache: DecodeCache::new(),
            lines: FlatLines::new(),
        }
    }

    /// The address of the next instruction.
    pub fn pc(&self) -> u32
        ensures { result ≡ self.now.pc }
    {
        self.pc
    }

    /// The 32 registers; x0 is always zero.
    pub fn regs(&self) -> &[u32; 32]
        ensures registers { result.now ≡ self.now.regs }
        ensures zero { slice_index result.now 0 ≡ 0 }
    {
        &self.regs
    }

    /// The memory.
    pub fn memory(&self) -> &Regions
        ensures { result.now ≡ self.now.mem }
    {
        &self.mem
    }

    /// How many instructions have retired.
    pub fn retired(&self) -> u64
        ensures { result ≡ self.now.retired }
    {
        self.retired
    }

    /// The parts of the machine.
    pub fn into_parts(self) -> MachineParts
        ensures parts { record { pc = result.pc; regs = result.regs; mem = result.mem; retired = result.retired } ≡ self }
        ensures zero { slice_index result.regs 0 ≡ 0 }
    {
        let regs = self.regs;
        MachineParts {
            pc: self.pc,
            regs,
            mem: self.mem,
            retired: self.retired,
        }
    }
}
