//! Serve: the environment answers the instruction in the highest stage, and its input is at its end.

ghost use Rattle.std.specs.Prelude.{◌≡◌, []};
ghost use Rattle.rv_machine.specs.Call.{call as call_of, is_output as is_the_output};
ghost use Rattle.rv_machine.specs.Step.{synchronizes as is_synchronizing};
ghost use Rattle.cf_bind.specs.declared.moves.Move.TheVariants as mv;
ghost use Rattle.cf_semantics.specs.moves.Instructions.{serve_of};
ghost use Rattle.cf_semantics.specs.moves.Moves.{next};
ghost use Rattle.cf_semantics.specs.state.Passengers.{instruction as instruction_of};
ghost use Rattle.order_model.specs.ServeEffects.{memory_served, output_added, passenger_served, told};
ghost use Rattle.order_model.specs.Situations.{lone_moment, in_memory};

use crate::situation::Situation;
use cf_bind::Passenger;
use cf_io::{Empty, Nowhere};
use cf_layout::LooseLayout;
use cf_passengers::{answered, instruction, quits};
use mem_regions::Regions;
use rv_inst::Instr;
use rv_machine::{Served, serve};

/// FENCE.I, which needs no environment.
pub(crate) fn synchronizes(i: Instr) -> bool
    ensures { result ≡ is_synchronizing i }
{
    matches!(i, Instr::FenceI { .. })
}

/// The answer of the environment; the bytes that it writes are not kept.
#[tactic(auto, using(crate::proofs::Alone::calling))]
fn call(regs: &[u32; 32], mem: &mut Regions) -> Served
    ensures memory { mem.new ≡ memory_served (call_of regs.now mem.old []) mem.old }
    ensures answer { result ≡ told (call_of regs.now mem.old []) }
{
    let mut input = Empty;
    let mut output = Nowhere;
    serve(regs, mem, &mut input, &mut output)
}

/// The answer of the environment to the instruction, whether it calls the environment or is FENCE.I, and what that does
/// to memory. Nothing is left of the input, and the bytes that a call writes are not kept.
#[tactic(auto, unfolding(cf_semantics::specs::moves::Instructions::serve_of))]
pub fn answer_to(i: Instr, regs: &[u32; 32], mem: &mut Regions) -> Served
    ensures memory { mem.new ≡ memory_served (serve_of i regs.now mem.old []) mem.old }
    ensures answer { result ≡ told (serve_of i regs.now mem.old []) }
{
    if synchronizes(i) {
        mem.sync_code();
        Served::Value(0)
    } else {
        call(regs, mem)
    }
}

/// The instruction after it is answered.
#[tactic(auto, using(crate::proofs::Alone::answering))]
fn served(regs: &[u32; 32], mem: &mut Regions, p: Passenger) -> Passenger
    ensures memory { mem.new ≡ memory_served (serve_of (instruction_of p) regs.now mem.old []) mem.old }
    ensures passenger { result ≡ passenger_served (serve_of (instruction_of p) regs.now mem.old []) p }
{
    match answer_to(instruction(&p), regs, mem) {
        Served::Value(value) => answered(p, value),
        Served::Exit(status) => quits(p, status),
        Served::ReadFault => unreachable!(),
        Served::WriteFault => unreachable!(),
    }
}

/// Whether the file is the output.
fn is_output(fd: u32) -> bool
    ensures { result ≡ is_the_output fd }
{
    fd == 1 || fd == 2
}

/// The bytes that the call writes to the output.
#[tactic(auto, using(crate::proofs::Written::writing))]
fn written<'a>(regs: &[u32; 32], mem: &'a Regions) -> &'a [u8]
    ensures { result.now ≡ output_added (call_of regs.now mem.now []) }
{
    if regs[17] != 64 || !is_output(regs[10]) {
        return &[];
    }
    match mem.part(regs[11], regs[12]) {
        Some(bytes) => bytes,
        None => &[],
    }
}

/// The bytes that the environment writes to the output when it answers the instruction, and nothing is left of the
/// input.
#[tactic(auto, using(crate::proofs::Written::answering))]
pub fn output_of<'a>(i: Instr, regs: &[u32; 32], mem: &'a Regions) -> &'a [u8]
    ensures { result.now ≡ output_added (serve_of i regs.now mem.now []) }
{
    if synchronizes(i) {
        return &[];
    }
    written(regs, mem)
}

impl Situation {
    /// The environment answers the instruction in the highest stage, or the program ends when the instruction leaves.
    #[tactic(auto, using(crate::proofs::Alone::serving), unfolding(cf_semantics::specs::moves::Moves::next))]
    pub(crate) fn serve(&mut self, layout: &LooseLayout, mem: &mut Regions)
        ensures { in_memory self.new mem.new ≡ (next layout.now (lone_moment (in_memory self.old mem.old)) mv.Serve).state }
    {
        let top = layout.stages() as usize;
        let Some(cell) = self.cell(top) else {
            return;
        };
        let Some(passenger) = cell.passenger else {
            return;
        };
        let after = served(&self.regs, mem, passenger);
        self.set_passenger(top, cell, after);
    }

    /// The bytes that Serve writes to the output in this memory.
    #[tactic(auto, using(crate::proofs::Written::adding), unfolding(cf_semantics::specs::moves::Moves::next))]
    pub fn output<'a>(&self, layout: &LooseLayout, mem: &'a Regions) -> &'a [u8]
        ensures { result.now ≡ (next layout.now (lone_moment (in_memory self.now mem.now)) mv.Serve).output }
    {
        let Some(cell) = self.cell(layout.stages() as usize) else {
            return &[];
        };
        let Some(passenger) = cell.passenger else {
            return &[];
        };
        output_of(instruction(&passenger), self.regs(), mem)
    }
}
