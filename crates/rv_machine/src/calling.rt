//! The instructions that need the whole machine: a call of the environment, and FENCE.I.

ghost use Rattle.std.specs.Prelude.{◌≡◌, ◌+◌, ◌<◌, ◌^◌, false};
ghost use Rattle.cf_io.specs.Causes.{HasCause};
ghost use Rattle.rv_inst.specs.Operands.{class_of as class_name};
ghost use Rattle.rv_machine.specs.Streams.{streams_of};
ghost use Rattle.rv_machine.specs.Acts.{Acts, HartDoes, RetiredCounted};
ghost use Rattle.rv_machine.specs.Call.{call, asks_input, asks_output};
ghost use Rattle.rv_machine.specs.Faults.{input_stepped, output_stepped};
ghost use Rattle.rv_machine.specs.Step.{synchronize as synchronization, environment, serial as serial_step, synchronizes as is_synchronizing};

use crate::machine::Machine;
use crate::outcome::{Served, Stepped};
use crate::serving::serve;
use cf_io::{Sink, Source};
use rv_inst::{Class, Instr};

/// FENCE.I.
#[inline(always)]
fn synchronizes(i: Instr) -> bool
    ensures { result ≡ is_synchronizing i }
{
    matches!(i, Instr::FenceI { .. })
}

impl Machine {
    /// FENCE.I: from now on code is fetched from memory as it is, and no instruction is known.
    #[inline(always)]
    #[tactic(auto, using(crate::proofs::Keeping::still, crate::proofs::Lines::still_lines), unfolding(crate::specs::Step::retire, crate::specs::Step::synchronize))]
    fn synchronize(&mut self, word: u32) -> Stepped
        requires count { self.old.retired + 1 < 2 ^ 64 }
        ensures does { HartDoes (synchronization self.old word) self.old self.new result }
        ensures count { RetiredCounted self.old.retired self.new.retired result }
    {
        self.mem.sync_code();
        self.cache.clear();
        self.lines.clear();
        self.retire(word, self.pc.wrapping_add(4), 0, 0)
    }

    /// ECALL: the environment answers in x10, or the program ends.
    #[tactic(auto, using(crate::proofs::Leaving::leaving), unfolding(crate::specs::Step::retire))]
    fn call_environment<S: Source, K: Sink>(
        &mut self,
        word: u32,
        input: &mut S,
        output: &mut K,
    ) -> Stepped
        requires count { self.old.retired + 1 < 2 ^ 64 }
        ensures acts { Acts (Unit {0})
            (λ rest. environment self.old word (call self.old.regs self.old.mem rest))
            self.old self.new
            (streams_of (S.left input.old) (K.written output.old))
            (streams_of (S.left input.new) (K.written output.new)) result }
        ensures count { RetiredCounted self.old.retired self.new.retired result }
        ensures input { HasCause (S.faults input.old) (S.faults input.new) (input_stepped result) }
        ensures output { HasCause (K.faults output.old) (K.faults output.new) (output_stepped result) }
        ensures input_asked { asks_input self.old.regs self.old.mem ≡ false → input.new ≡ input.old }
        ensures output_asked { asks_output self.old.regs self.old.mem ≡ false → output.new ≡ output.old }
    {
        match serve(&self.regs, &mut self.mem, input, output) {
            Served::Value(value) => self.retire(word, self.pc.wrapping_add(4), 10, value),
            Served::Exit(status) => Stepped::Exit(status),
            Served::ReadFault => Stepped::ReadFault,
            Served::WriteFault => Stepped::WriteFault,
        }
    }

    /// FENCE.I or ECALL.
    #[inline(always)]
    pub(crate) fn serial<S: Source, K: Sink>(
        &mut self,
        word: u32,
        i: Instr,
        input: &mut S,
        output: &mut K,
    ) -> Stepped
        requires serial { class_name i ≡ Class.Serial }
        requires count { self.old.retired + 1 < 2 ^ 64 }
        ensures acts { Acts (i ≡ Instr.Ecall) (λ rest. serial_step self.old rest word i) self.old self.new
            (streams_of (S.left input.old) (K.written output.old))
            (streams_of (S.left input.new) (K.written output.new)) result }
        ensures count { RetiredCounted self.old.retired self.new.retired result }
        ensures input { HasCause (S.faults input.old) (S.faults input.new) (input_stepped result) }
        ensures output { HasCause (K.faults output.old) (K.faults output.new) (output_stepped result) }
        ensures input_asked { (i ≡ Instr.Ecall → asks_input self.old.regs self.old.mem ≡ false) → input.new ≡ input.old }
        ensures output_asked { (i ≡ Instr.Ecall → asks_output self.old.regs self.old.mem ≡ false) → output.new ≡ output.old }
    {
        if synchronizes(i) {
            self.synchronize(word)
        } else {
            self.call_environment(word, input, output)
        }
    }
}
