//! A run of instructions that need neither the input nor the output.

ghost use Rattle.std.specs.Prelude.{◌≡◌, ◌-◌, ◌%◌, ◌<◌, ◌≤◌, ◌^◌, IfSome, IsTrue, slice_index};
ghost use Rattle.mem_regions.specs.Access.{bounds_of};
ghost use Rattle.mem_regions.specs.Window.{IsWindowOf};
ghost use Rattle.rv_machine.specs.Lines.{IsLineOf, covers};
ghost use Rattle.rv_machine.specs.Quick.{HasSameCode, RetireAlone};

use crate::flat_acting::{Continuation, act};
use crate::flat_lines::FlatLine;
use crate::machine::Machine;
use mem_regions::{Regions, Window};

/// Where a run is: the address of the next instruction, and how many have retired.
#[derive(Clone, Copy)]
struct Progress {
    pc: u32,
    retired: u64,
}

/// The number of operations of a line.
const OPS: u64 = 256;

/// The maximum limit in a line: the sums with the operations of a line then stay in range.
const HIGHEST: u64 = u64::MAX - 2 * OPS;

/// Executes the operations of a line, until one is unknown or traps, the program leaves the line, or `end` could be
/// passed before the end of the line.
// Neither the count nor the limit changes between two jumps: what counts is how many instructions will have retired at
// the end of the line. This number and the index are separate values, so that they need not be in memory.
#[inline(always)]
fn run_line(
    line: &FlatLine,
    regs: &mut [u32; 32],
    mem: &mut Regions,
    window: Window,
    from: Progress,
    end: u64,
) -> Progress
    requires line { IsLineOf mem.old line.now }
    requires covers { IsTrue (covers line.now from.pc) }
    requires aligned { from.pc % 4 ≡ 0 }
    requires below { from.pc < 2 ^ 32 }
    requires zero { slice_index regs.old 0 ≡ 0 }
    requires window { IsWindowOf (bounds_of mem.old) window }
    requires within { from.retired ≤ end }
    ensures goes { RetireAlone (record { pc = from.pc; regs = regs.old; mem = mem.old; retired = from.retired }) (result.retired - from.retired)
        (record { pc = result.pc; regs = regs.new; mem = mem.new; retired = result.retired }) }
    ensures onward { from.retired ≤ result.retired }
    ensures within { result.retired ≤ end }
    ensures zero { slice_index regs.new 0 ≡ 0 }
    ensures code { HasSameCode mem.old mem.new }
    ensures window { IsWindowOf (bounds_of mem.new) window }
{
    let last = end.min(HIGHEST);
    let mut spot = line.spot(from.pc);
    let left = OPS - spot.at as u64;
    if last.saturating_sub(from.retired) < left {
        return from;
    }
    let mut at_end = from.retired + left;
    loop {
        match act(line.op(spot.at), spot, regs, mem, window) {
            Continuation::On => spot.at += 1,
            Continuation::To(next) => {
                let passed = at_end + spot.at as u64 + 1;
                spot.at = next as usize;
                if u64::from(next) >= OPS {
                    return Progress {
                        pc: spot.pc(),
                        retired: passed - OPS,
                    };
                }
                at_end = passed - u64::from(next);
                if at_end > last {
                    break;
                }
            }
            Continuation::Stop => break,
        }
    }
    Progress {
        pc: spot.pc(),
        retired: at_end + spot.at as u64 - OPS,
    }
}

impl Machine {
    /// Executes the operations of one line from the program counter on, and returns whether one has retired.
    #[inline(always)]
    #[tactic(auto, using(crate::proofs::Lines::carrying, crate::proofs::Steps::standing))]
    fn run_block(&mut self, window: Window, end: u64) -> bool
        requires window { IsWindowOf (bounds_of self.old.mem) window }
        requires within { self.old.retired ≤ end }
        ensures goes { RetireAlone self.old (self.new.retired - self.old.retired) self.new }
        ensures onward { self.old.retired ≤ self.new.retired }
        ensures within { self.new.retired ≤ end }
        ensures moved { IsTrue result → self.old.retired < self.new.retired }
        ensures window { IsWindowOf (bounds_of self.new.mem) window }
    {
        if self.pc % 4 != 0 {
            return false;
        }
        self.lines.prepare(&self.mem, self.pc);
        let from = Progress {
            pc: self.pc,
            retired: self.retired,
        };
        let line = self.lines.line(self.pc);
        let to = run_line(line, &mut self.regs, &mut self.mem, window, from, end);
        self.pc = to.pc;
        self.retired = to.retired;
        from.retired < to.retired
    }

    /// Executes instructions one after another, as long as they retire and need neither the input nor the output, until
    /// `end` have retired in all. It may stop at any instruction before; [`Machine::step_as`] executes each.
    pub fn run_alone(&mut self, end: u64)
        requires within { self.old.retired ≤ end }
        ensures goes { RetireAlone self.old (self.new.retired - self.old.retired) self.new }
        ensures onward { self.old.retired ≤ self.new.retired }
        ensures within { self.new.retired ≤ end }
    {
        let window = self.mem.window();
        while self.retired < end {
            if !self.run_block(window, end) {
                return;
            }
        }
    }
}
