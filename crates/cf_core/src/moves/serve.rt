//! Serve: the environment answers the instruction in the highest stage, which needs the whole machine.

ghost use Rattle.std.specs.Prelude.{◌≡◌, None, Some};
ghost use Rattle.rv_machine.specs.Streams.{streams_of};
ghost use Rattle.cf_bind.specs.declared.moves.Move.TheVariants as mv;
ghost use Rattle.cf_semantics.specs.moves.Bars.{row_bar};
ghost use Rattle.cf_semantics.specs.moves.Instructions.{is_serial as needs_machine};
ghost use Rattle.cf_stages.specs.Changes.{passenger_at};
ghost use Rattle.cf_core.specs.Asking.{CallsInput, CallsOutput, LeavesStream};
ghost use Rattle.cf_core.specs.Marks.{row_allows};
ghost use Rattle.cf_core.specs.Masks.{is_allowed};
ghost use Rattle.cf_core.specs.Processors.{IsProcessor, in_state};
ghost use Rattle.cf_core.specs.Stepping.{ServesOrFails, input_at_serve, output_at_serve, synchronized, taken, told_of};

use crate::counterflow::Core;
use crate::fault::Fault;
use crate::processor::Processor;
use crate::riding::is_undone;
use crate::rows::first_of;
use cf_bind::{Bar, Passenger};
use cf_io::{Sink, Source};
use cf_passengers::{answered, instruction, kind, quits};
use rv_inst::{Class, Instr};
use rv_machine::{Served, serve};

/// Whether the class is the one that needs the whole machine.
#[inline(always)]
pub(crate) fn is_serial(class: Class) -> bool
    ensures { result ≡ needs_machine class }
{
    matches!(class, Class::Serial)
}

impl Processor {
    /// The first bar of Serve.
    #[inline(never)]
    pub(crate) fn serve_bar(&self) -> Option<Bar>
        requires { IsProcessor self.now.plan self.now.state }
        ensures { result ≡ row_bar self.now.plan self.now.state mv.Serve }
    {
        let stage = self.stages.count();
        let Some(passenger) = self.stages.cell(stage).passenger else {
            return Some(Bar::NoPassenger);
        };
        first_of(&[
            (passenger.dead, Bar::Dead),
            (passenger.done, Bar::AlreadyDone),
            (!is_serial(kind(&passenger)), Bar::NoUnit),
            (self.stages.is_full(stage), Bar::NotMet),
        ])
    }

    /// Whether no test in the row of Serve holds; it does not say which one does.
    #[inline(always)]
    #[tactic(auto, using(crate::proofs::moves::Allows::serve_free))]
    fn serves(&self) -> bool
        requires { IsProcessor self.now.plan self.now.state }
        ensures { result ≡ row_allows self.now.plan self.now.state mv.Serve }
    {
        let top = self.stages.count();
        match self.stages.passenger(top) {
            Some(passenger) => {
                is_undone(passenger) && is_serial(kind(passenger)) && !self.stages.is_full(top)
            }
            None => false,
        }
    }

    /// The environment answers the instruction in the highest stage, ends the program by it, or fails.
    #[inline(never)]
    #[tactic(auto, using(crate::proofs::moves::Served::serving))]
    pub(crate) fn serve<S: Source, K: Sink>(
        &mut self,
        input: &mut S,
        output: &mut K,
    ) -> Result<(), Fault>
        requires facts { IsProcessor self.old.plan self.old.state }
        requires allowed { row_bar self.old.plan self.old.state mv.Serve ≡ None }
        ensures serves { ServesOrFails self.old self.new
            (streams_of (S.left input.old) (K.written output.old))
            (streams_of (S.left input.new) (K.written output.new)) result }
        ensures input { LeavesStream S.faults (CallsInput self.old) input.old input.new (input_at_serve result) }
        ensures output { LeavesStream K.faults (CallsOutput self.old) output.old output.new (output_at_serve result) }
    {
        let stage = self.stages.count();
        let Some(passenger) = self.stages.cell(stage).passenger else {
            unreachable!()
        };
        match instruction(&passenger) {
            Instr::FenceI { .. } => {
                self.synchronize(stage, passenger);
                Ok(())
            }
            _ => {
                let served = serve(self.ends.regs(), &mut self.memory, input, output);
                self.take(stage, passenger, served)
            }
        }
    }

    /// FENCE.I in the highest stage brings the code up to date with memory, and what was decoded is forgotten.
    #[inline(always)]
    #[tactic(auto, using(crate::proofs::moves::KeptTemplates::forgetting))]
    fn synchronize(&mut self, stage: u32, passenger: Passenger)
        requires stage { stage ≡ self.old.plan.stages }
        requires here { passenger_at self.old.state.cells self.old.plan.stages ≡ Some passenger }
        ensures { self.new ≡ synchronized self.old passenger }
    {
        self.memory.sync_code();
        self.templates.clear();
        *self.stages.passenger_mut(stage) = answered(passenger, 0);
    }

    /// The instruction in the highest stage takes what the environment answered.
    #[inline(always)]
    fn take(&mut self, stage: u32, passenger: Passenger, served: Served) -> Result<(), Fault>
        requires stage { stage ≡ self.old.plan.stages }
        requires here { passenger_at self.old.state.cells self.old.plan.stages ≡ Some passenger }
        ensures state { self.new ≡ in_state self.old (taken self.old passenger served) }
        ensures told { result ≡ told_of served }
    {
        match served {
            Served::Value(value) => {
                *self.stages.passenger_mut(stage) = answered(passenger, value);
                Ok(())
            }
            Served::Exit(status) => {
                *self.stages.passenger_mut(stage) = quits(passenger, status);
                Ok(())
            }
            Served::ReadFault => {
                self.failed = true;
                Err(Fault::Read)
            }
            Served::WriteFault => {
                self.failed = true;
                Err(Fault::Write)
            }
        }
    }
}

impl Core {
    /// Whether Serve is allowed.
    #[inline(always)]
    #[tactic(auto, using(crate::proofs::moves::Allows::allowing))]
    pub fn may_serve(&self) -> bool
        ensures { result ≡ is_allowed self.now.plan self.now.state mv.Serve }
    {
        let processor = &self.processor;
        processor.goes_on() && processor.serves()
    }
}
