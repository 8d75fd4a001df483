//! The effect on the machine of an instruction that needs neither the input nor the output, by its class.
#![tactic(auto, unfolding(crate::specs::Step::retire, crate::specs::Step::compute, crate::specs::Step::access_memory, crate::specs::Step::pass))]

ghost use Rattle.std.specs.Prelude.{◌≡◌, ◌+◌, ◌<◌, ◌^◌, length, true, IsTrue};
ghost use Rattle.mem_regions.specs.Access.{IsWidth, bounds_of, permits_at};
ghost use Rattle.mem_regions.specs.Ranges.{load_at};
ghost use Rattle.rv_inst.specs.Ranges.{Fits};
ghost use Rattle.rv_inst.specs.Accesses.{is_load};
ghost use Rattle.rv_inst.specs.Operands.{class_of as class_name};
ghost use Rattle.rv_mul.specs.Values.{computes};
ghost use Rattle.rv_machine.specs.Acts.{HartDoes, RetiredCounted};
ghost use Rattle.rv_machine.specs.Step.{with_register, retire as retirement, first_value, second_value, compute as computation, loads, stores, access_memory as memory_access, pass as passing, breaks as is_breaking};

use crate::machine::Machine;
use crate::outcome::{Retired, Stepped};
use mem_regions::MemErr;
use rv_inst::{Access, Class, Instr, access_of, dest, extend, next_of, sources};
use rv_mul::value;

/// EBREAK, with which the program asks for a debugger.
#[inline(always)]
fn breaks(i: Instr) -> bool
    ensures { result ≡ is_breaking i }
{
    matches!(i, Instr::Ebreak)
}

/// Writes a register; x0 stays zero.
#[inline(always)]
pub(crate) fn write_register(regs: &mut [u32; 32], r: u8, value: u32)
    requires { r < 32 }
    ensures value { regs.new ≡ with_register regs.old r value }
    ensures length { length regs.new ≡ 32 }
{
    if r != 0 {
        regs[r as usize] = value;
    }
}

impl Machine {
    /// The instruction of this word retires: the register gets the value, and the program continues at `next`.
    #[inline(always)]
    pub(crate) fn retire(&mut self, word: u32, next: u32, reg: u8, value: u32) -> Stepped
        requires register { reg < 32 }
        requires count { self.old.retired + 1 < 2 ^ 64 }
        ensures does { HartDoes (retirement self.old word next reg value) self.old self.new result }
        ensures count { RetiredCounted self.old.retired self.new.retired result }
    {
        let pc = self.pc;
        write_register(&mut self.regs, reg, value);
        self.pc = next;
        self.retired += 1;
        let value = if reg == 0 { 0 } else { value };
        Stepped::Next(Retired {
            pc,
            word,
            reg,
            value,
        })
    }

    /// A trap at this instruction, which changes nothing.
    #[inline(always)]
    pub(crate) fn trap(&self, cause: u8, detail: u32) -> Stepped
        ensures { result ≡ Stepped.Trap cause self.now.pc detail }
    {
        Stepped::Trap {
            cause,
            pc: self.pc,
            detail,
        }
    }

    /// The values of the two sources.
    #[inline(always)]
    fn source_values(&self, i: Instr) -> (u32, u32)
        requires { Fits i }
        ensures first { result.0 ≡ first_value self.now i }
        ensures second { result.1 ≡ second_value self.now i }
    {
        let (first, second) = sources(i);
        (self.regs[first as usize], self.regs[second as usize])
    }

    /// An instruction that computes. It traps if its next address is not a multiple of 4.
    #[inline(always)]
    pub(crate) fn compute(&mut self, word: u32, i: Instr) -> Stepped
        requires fits { Fits i }
        requires computing { IsTrue (computes (class_name i)) }
        requires count { self.old.retired + 1 < 2 ^ 64 }
        ensures does { HartDoes (computation self.old word i) self.old self.new result }
        ensures count { RetiredCounted self.old.retired self.new.retired result }
    {
        let (a, b) = self.source_values(i);
        let next = next_of(i, self.pc, a, b);
        if next % 4 != 0 {
            return self.trap(0, next);
        }
        self.retire(word, next, dest(i), value(i, self.pc, a, b))
    }

    /// A load from where `access` says.
    #[inline(always)]
    fn load(&mut self, word: u32, i: Instr, access: Access) -> Stepped
        requires fits { Fits i }
        requires load { IsTrue (is_load i) }
        requires width { IsWidth access.width }
        requires count { self.old.retired + 1 < 2 ^ 64 }
        ensures does { HartDoes
            (loads self.old word i access.addr (load_at self.old.mem access.addr access.width))
            self.old self.new result }
        ensures count { RetiredCounted self.old.retired self.new.retired result }
    {
        match self.mem.load_number(access.addr, access.width) {
            Ok(raw) => self.retire(word, self.pc.wrapping_add(4), dest(i), extend(i, raw)),
            Err(MemErr::Misaligned) => self.trap(4, access.addr),
            Err(MemErr::NoAccess) => self.trap(5, access.addr),
        }
    }

    /// A store to where `access` says.
    #[inline(always)]
    #[tactic(auto, using(crate::proofs::Keeping::still, crate::proofs::Lines::still_lines), unfolding(crate::specs::Step::retire))]
    fn store(&mut self, word: u32, access: Access) -> Stepped
        requires width { IsWidth access.width }
        requires count { self.old.retired + 1 < 2 ^ 64 }
        ensures does { HartDoes
            (stores self.old word access
            (permits_at (bounds_of self.old.mem) access.addr access.width true))
            self.old self.new result }
        ensures count { RetiredCounted self.old.retired self.new.retired result }
    {
        match self.mem.store(access.addr, access.width, access.value) {
            Ok(()) => self.retire(word, self.pc.wrapping_add(4), 0, 0),
            Err(MemErr::Misaligned) => self.trap(6, access.addr),
            Err(MemErr::NoAccess) => self.trap(7, access.addr),
        }
    }

    /// A load or a store.
    #[inline(always)]
    pub(crate) fn access_memory(&mut self, word: u32, i: Instr) -> Stepped
        requires fits { Fits i }
        requires memory { class_name i ≡ Class.Memory }
        requires count { self.old.retired + 1 < 2 ^ 64 }
        ensures does { HartDoes (memory_access self.old word i) self.old self.new result }
        ensures count { RetiredCounted self.old.retired self.new.retired result }
    {
        let (a, b) = self.source_values(i);
        let access = access_of(i, a, b);
        if access.write {
            self.store(word, access)
        } else {
            self.load(word, i, access)
        }
    }

    /// FENCE, which has nothing to do, or EBREAK, which traps.
    #[inline(always)]
    pub(crate) fn pass(&mut self, word: u32, i: Instr) -> Stepped
        requires count { self.old.retired + 1 < 2 ^ 64 }
        ensures does { HartDoes (passing self.old word i) self.old self.new result }
        ensures count { RetiredCounted self.old.retired self.new.retired result }
    {
        if breaks(i) {
            self.trap(3, self.pc)
        } else {
            self.retire(word, self.pc.wrapping_add(4), 0, 0)
        }
    }
}
