//! One step: the instruction at the program counter is found, and executed if the instruction set has it.

ghost use Rattle.std.specs.Prelude.{◌≡◌, ◌+◌, ◌<◌, ◌^◌, Some, IfSome, IfNone, false};
ghost use Rattle.cf_io.specs.Causes.{HasCause};
ghost use Rattle.rv_inst.specs.Ranges.{Fits};
ghost use Rattle.rv_inst.specs.Decoding.{decoded_as, decoded_m};
ghost use Rattle.rv_inst.specs.Operands.{class_of as class_name};
ghost use Rattle.rv_machine.specs.Decoded.{found_at, is_instruction, trap_of};
ghost use Rattle.rv_machine.specs.Streams.{streams_of};
ghost use Rattle.rv_machine.specs.Acts.{Acts, Steps, RetiredCounted, CallsHere};
ghost use Rattle.rv_machine.specs.Call.{asks_input, asks_output};
ghost use Rattle.rv_machine.specs.Faults.{input_stepped, output_stepped};
ghost use Rattle.rv_machine.specs.Step.{execute as execution, interpret as interpretation};

use crate::decode_cache::{Decoded, Found, look_up};
use crate::instruction_sets::read_in;
use crate::machine::Machine;
use crate::outcome::Stepped;
use cf_io::{Sink, Source};
use rv_inst::{Instr, Isa};

impl Machine {
    /// The instruction at the program counter, if there is one.
    #[inline(always)]
    fn find(&mut self) -> Option<Decoded>
        ensures some { IfSome result (λ d. found_at self.old.mem self.old.pc ≡ Found.Instruction d.word d.instr) }
        ensures none { IfNone result (is_instruction (found_at self.old.mem self.old.pc) ≡ false) }
        ensures unchanged { self.new ≡ self.old }
    {
        self.cache.find(&self.mem, self.pc)
    }

    /// The trap if there is no instruction.
    #[inline(always)]
    fn stop(&self) -> Stepped
        ensures { result ≡ trap_of self.now.pc (found_at self.now.mem self.now.pc) }
    {
        match look_up(&self.mem, self.pc) {
            Found::Instruction { word, .. } => self.trap(2, word),
            Found::Unknown(word) => self.trap(2, word),
            Found::Nothing => self.trap(1, self.pc),
            Found::Misaligned => self.trap(0, self.pc),
        }
    }

    /// Executes an instruction of either set.
    #[inline(always)]
    #[tactic(auto, using(crate::proofs::Classes::computing))]
    fn execute<S: Source, K: Sink>(
        &mut self,
        word: u32,
        i: Instr,
        input: &mut S,
        output: &mut K,
    ) -> Stepped
        requires fits { Fits i }
        requires count { self.old.retired + 1 < 2 ^ 64 }
        ensures acts { Acts (i ≡ Instr.Ecall)
            (λ rest. execution (class_name i) self.old rest word i) self.old self.new
            (streams_of (S.left input.old) (K.written output.old))
            (streams_of (S.left input.new) (K.written output.new)) result }
        ensures count { RetiredCounted self.old.retired self.new.retired result }
        ensures input { HasCause (S.faults input.old) (S.faults input.new) (input_stepped result) }
        ensures output { HasCause (K.faults output.old) (K.faults output.new) (output_stepped result) }
        ensures input_asked { (i ≡ Instr.Ecall → asks_input self.old.regs self.old.mem ≡ false) → input.new ≡ input.old }
        ensures output_asked { (i ≡ Instr.Ecall → asks_output self.old.regs self.old.mem ≡ false) → output.new ≡ output.old }
    {
        // One arm for each instruction, so that what is inlined there is specialised for it.
        match i {
            Instr::Lui { .. } => self.compute(word, i),
            Instr::Auipc { .. } => self.compute(word, i),
            Instr::Jal { .. } => self.compute(word, i),
            Instr::Jalr { .. } => self.compute(word, i),
            Instr::Branch { .. } => self.compute(word, i),
            Instr::Load { .. } => self.access_memory(word, i),
            Instr::Store { .. } => self.access_memory(word, i),
            Instr::OpImm { .. } => self.compute(word, i),
            Instr::Op { .. } => self.compute(word, i),
            Instr::Mul { .. } => self.compute(word, i),
            Instr::Fence { .. } => self.pass(word, i),
            Instr::Ebreak => self.pass(word, i),
            Instr::Ecall => self.serial(word, i, input, output),
            Instr::FenceI { .. } => self.serial(word, i, input, output),
        }
    }

    /// Executes the instruction of a word, or traps if the set does not have it.
    #[inline(always)]
    fn interpret<S: Source, K: Sink>(
        &mut self,
        isa: Isa,
        word: u32,
        i: Instr,
        input: &mut S,
        output: &mut K,
    ) -> Stepped
        requires decoded { decoded_m word ≡ Some i }
        requires count { self.old.retired + 1 < 2 ^ 64 }
        ensures acts { Acts (decoded_as isa word ≡ Some Instr.Ecall)
            (λ rest. interpretation self.old rest word (decoded_as isa word)) self.old self.new
            (streams_of (S.left input.old) (K.written output.old))
            (streams_of (S.left input.new) (K.written output.new)) result }
        ensures count { RetiredCounted self.old.retired self.new.retired result }
        ensures input { HasCause (S.faults input.old) (S.faults input.new) (input_stepped result) }
        ensures output { HasCause (K.faults output.old) (K.faults output.new) (output_stepped result) }
        ensures input_asked { (decoded_as isa word ≡ Some Instr.Ecall → asks_input self.old.regs self.old.mem ≡ false) → input.new ≡ input.old }
        ensures output_asked { (decoded_as isa word ≡ Some Instr.Ecall → asks_output self.old.regs self.old.mem ≡ false) → output.new ≡ output.old }
    {
        match read_in(isa, word, i) {
            Some(i) => self.execute(word, i, input, output),
            None => self.trap(2, word),
        }
    }

    /// Makes one step of a machine with this instruction set; the rest is as in [`Machine::step`].
    ///
    /// A caller with one loop for all instruction sets uses this function, so that the whole step is compiled into that
    /// loop.
    #[inline(always)]
    pub fn step_as<S: Source, K: Sink>(
        &mut self,
        isa: Isa,
        input: &mut S,
        output: &mut K,
    ) -> Stepped
        requires { self.old.retired + 1 < 2 ^ 64 }
        ensures steps { Steps isa self.old self.new
            (streams_of (S.left input.old) (K.written output.old))
            (streams_of (S.left input.new) (K.written output.new)) result }
        ensures count { RetiredCounted self.old.retired self.new.retired result }
        ensures input { HasCause (S.faults input.old) (S.faults input.new) (input_stepped result) }
        ensures output { HasCause (K.faults output.old) (K.faults output.new) (output_stepped result) }
        ensures input_asked { (CallsHere isa self.old → asks_input self.old.regs self.old.mem ≡ false) → input.new ≡ input.old }
        ensures output_asked { (CallsHere isa self.old → asks_output self.old.regs self.old.mem ≡ false) → output.new ≡ output.old }
    {
        match self.find() {
            Some(decoded) => self.interpret(isa, decoded.word, decoded.instr, input, output),
            None => self.stop(),
        }
    }

    /// Makes one step of an RV32I machine: the instruction at the program counter retires, traps or ends the program.
    ///
    /// After `Next` the machine has executed the instruction; after a trap, an exit or a fault its program counter,
    /// registers and count are unchanged. A fault comes only from an environment call, as [`serve`] says. Unless the
    /// instruction is an environment call that uses the input, what the input exposes is unchanged; the output
    /// likewise.
    #[inline(always)]
    pub fn step<S: Source, K: Sink>(&mut self, input: &mut S, output: &mut K) -> Stepped
        requires { self.old.retired + 1 < 2 ^ 64 }
        ensures steps { Steps Isa.Rv32i self.old self.new
            (streams_of (S.left input.old) (K.written output.old))
            (streams_of (S.left input.new) (K.written output.new)) result }
        ensures count { RetiredCounted self.old.retired self.new.retired result }
        ensures input { HasCause (S.faults input.old) (S.faults input.new) (input_stepped result) }
        ensures output { HasCause (K.faults output.old) (K.faults output.new) (output_stepped result) }
        ensures input_asked { (CallsHere Isa.Rv32i self.old → asks_input self.old.regs self.old.mem ≡ false) → input.new ≡ input.old }
        ensures output_asked { (CallsHere Isa.Rv32i self.old → asks_output self.old.regs self.old.mem ≡ false) → output.new ≡ output.old }
    {
        self.step_as(Isa::Rv32i, input, output)
    }

    /// Makes one step of an RV32IM machine, which also multiplies and divides; the rest is as in [`Machine::step`].
    #[inline(always)]
    pub fn step_m<S: Source, K: Sink>(&mut self, input: &mut S, output: &mut K) -> Stepped
        requires { self.old.retired + 1 < 2 ^ 64 }
        ensures steps { Steps Isa.Rv32im self.old self.new
            (streams_of (S.left input.old) (K.written output.old))
            (streams_of (S.left input.new) (K.written output.new)) result }
        ensures count { RetiredCounted self.old.retired self.new.retired result }
        ensures input { HasCause (S.faults input.old) (S.faults input.new) (input_stepped result) }
        ensures output { HasCause (K.faults output.old) (K.faults output.new) (output_stepped result) }
        ensures input_asked { (CallsHere Isa.Rv32im self.old → asks_input self.old.regs self.old.mem ≡ false) → input.new ≡ input.old }
        ensures output_asked { (CallsHere Isa.Rv32im self.old → asks_output self.old.regs self.old.mem ≡ false) → output.new ≡ output.old }
    {
        self.step_as(Isa::Rv32im, input, output)
    }
}
