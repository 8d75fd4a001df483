//! The processor, and what can be seen of it.

ghost use Rattle.std.specs.Prelude.{◌≡◌, ◌≢◌, ◌+◌, ◌<◌, ◌≤◌, ◌^◌, IfOk, IfSome, None, Some, length, slice_get, slice_index};
ghost use Rattle.cf_io.specs.Causes.{HasCause};
ghost use Rattle.rv_machine.specs.Streams.{streams_of};
ghost use Rattle.cf_bind.specs.declared.moves.Move.TheVariants as mv;
ghost use Rattle.cf_semantics.specs.moves.Bars.{bar as first_bar};
ghost use Rattle.cf_semantics.specs.moves.Events.{IsEvent};
ghost use Rattle.mem_regions.specs.Access.{bounds_of};
ghost use Rattle.cf_layout.specs.Layout.{cells_of};
ghost use Rattle.cf_semantics.specs.state.State.{cell_at, siding_at};
ghost use Rattle.cf_semantics.specs.state.Layouts.{isa_of as set_of};
ghost use Rattle.cf_semantics.specs.state.Passengers.{cached as kept_value};
ghost use Rattle.cf_core.specs.Asking.{AsksInput, AsksOutput};
ghost use Rattle.cf_core.specs.Processors.{after_move, opened_processor, IsOp, IsProcessor, IsCellOfSet};
ghost use Rattle.cf_core.specs.Stepping.{MakesOrFails, StepsOrBarred, input_made, input_at_step, output_made, output_at_step};

use crate::fault::Fault;
use crate::marks::Marks;
use crate::processor::Processor;
use crate::stations::stations_of;
use crate::step::Step;
use cf_bind::{Bar, Cell, End, Fetch, Move, Op};
use cf_ends::Ends;
use cf_io::{Sink, Source};
use cf_layout::Layout;
use cf_passengers::{Templates, isa_of};
use cf_semantics::Event;
use cf_sidings::Sidings;
use cf_stages::Stages;
use mem_regions::Regions;
use rv_inst::Isa;
use rv_machine::Machine;
use std::alloc::{AllocError, Global};
use std::marker::Model;

/// A counterflow pipeline processor (Sproull, Sutherland and Molnar, "Counterflow Pipeline Processor Architecture", 1994),
/// seen as its layout and its state. It changes only by `make`, `make_inside`, `step` and `back`: one local move is made, or
/// taken back. No call but `new` takes memory.
///
/// It holds of every processor that each instruction in the pipes is one of its instruction set, or ends the program if
/// none could be read; that each operation in a siding is of a class of the siding; and that memory permits each load
/// and store there.
#[derive(Drop)]
pub struct Core {
    pub(crate) processor: Processor,
    pub(crate) marks: Marks,
}

impl Model for Core {
    ghost use Rattle.std.specs.Prelude.{◌≡◌};
    ghost use Rattle.cf_core.specs.Marks.{marks_of};
    ghost use Rattle.cf_core.specs.Processors.{Processor as Whole, IsProcessor};

    ghost Value = { Whole };

    ghost view = { λ c. c.processor };

    ghost invariant = { λ c. IsProcessor c.processor.plan c.processor.state × (c.marks ≡ marks_of c.processor.plan c.processor.state) };
}

impl Core {
    /// An empty processor of this layout: it fetches at the program counter of the machine and has its registers,
    /// memory and retired count. If there is no memory for its parts, the machine is dropped.
    #[tactic(auto, using(crate::proofs::Opened::opening, crate::proofs::moves::KeptTemplates::forgetting), unfolding(crate::specs::Processors::opened_processor, cf_semantics::specs::runs::Runs::opened, cf_sidings::specs::Sidings::empty_sidings))]
    pub fn new(alloc: Global, layout: Layout, machine: Machine) -> Result<Core, AllocError>
        ensures { IfOk result (λ core. core ≡ opened_processor layout machine) }
    {
        let stations = stations_of(&layout);
        let isa = isa_of(&layout);
        let stages = Stages::new(alloc, layout.stages())?;
        let sidings = Sidings::new(alloc, &layout)?;
        let templates = Templates::new(alloc)?;
        let parts = machine.into_parts();
        let ends = Ends::new(alloc, parts.regs, parts.pc, layout.lane())?;
        Ok(Core {
            processor: Processor {
                layout,
                stations,
                isa,
                stages,
                sidings,
                ends,
                memory: parts.mem,
                templates,
                retired: parts.retired,
                ending: None,
                failed: false,
            },
            marks: Marks::none(),
        })
    }

    /// The layout.
    #[inline(always)]
    pub fn layout(&self) -> &Layout
        ensures layout { result.now ≡ self.now.plan }
        ensures facts { IsProcessor self.now.plan self.now.state }
    {
        &self.processor.layout
    }

    /// The instruction set of the layout.
    #[inline(always)]
    pub fn isa(&self) -> Isa
        ensures { result ≡ set_of self.now.plan }
    {
        self.processor.isa
    }

    /// What is in the stage of this number, counted from 1 at the bottom.
    #[inline(always)]
    #[tactic(auto, using(crate::proofs::Cells::reading))]
    pub fn stage(&self, i: u32) -> Cell
        requires above { 0 < i }
        requires within { i ≤ self.now.plan.stages }
        ensures cell { Some result ≡ cell_at self.now.state.cells i }
        ensures facts { IsCellOfSet (set_of self.now.plan) result }
    {
        self.processor.stages.cell(i)
    }

    /// What is in a cell of a siding; sidings and cells are counted from 0.
    #[inline(always)]
    #[tactic(auto, using(crate::proofs::Berths::berths, crate::proofs::Berths::reading))]
    pub fn siding_cell(&self, k: u32, c: u32) -> Option<Op>
        requires siding { k < length self.now.plan.sidings }
        requires cell { c < cells_of self.now.plan k }
        ensures cell { Some result ≡ slice_get (siding_at self.now.state k) c }
        ensures facts { IfSome result (IsOp self.now.plan (bounds_of self.now.state.mem) k) }
    {
        self.processor.sidings.cell(k, c)
    }

    /// The cells of a siding, beginning with the one at which operations enter; sidings are counted from 0.
    #[inline(always)]
    #[tactic(auto, using(crate::proofs::Berths::berths, crate::proofs::Berths::reading))]
    pub fn siding(&self, k: u32) -> &[Option<Op>]
        requires { k < length self.now.plan.sidings }
        ensures cells { result.now ≡ siding_at self.now.state k }
        ensures count { length result.now ≡ cells_of self.now.plan k }
    {
        self.processor.sidings.siding(k)
    }

    /// What fetch does.
    #[inline(always)]
    pub fn fetch(&self) -> Fetch
        ensures { result ≡ self.now.state.fetch }
    {
        self.processor.ends.fetch()
    }

    /// How many requests wait for the register file.
    #[inline(always)]
    pub fn lane_len(&self) -> u32
        ensures count { result ≡ length self.now.state.lane }
        ensures most { result ≤ 64 }
    {
        self.processor.ends.lane_len()
    }

    /// The register of a request; index 0 is the one to be answered next.
    #[inline(always)]
    pub fn lane_at(&self, j: u32) -> u8
        requires { j < length self.now.state.lane }
        ensures request { result ≡ slice_index self.now.state.lane j }
        ensures register { result < 32 }
    {
        self.processor.ends.lane_at(j)
    }

    /// The value of a register.
    #[inline(always)]
    pub fn reg(&self, r: u8) -> u32
        requires { r < 32 }
        ensures { result ≡ slice_index self.now.state.regs r }
    {
        self.processor.ends.reg(r)
    }

    /// The 32 registers, of which x0 is always zero.
    #[inline(always)]
    pub fn regs(&self) -> &[u32; 32]
        ensures registers { result.now ≡ self.now.state.regs }
        ensures zero { slice_index result.now 0 ≡ 0 }
    {
        self.processor.ends.regs()
    }

    /// The cached value of a register, if there is one.
    #[inline(always)]
    pub fn cached(&self, r: u8) -> Option<u32>
        requires { r < 32 }
        ensures { result ≡ kept_value self.now.state.cache r }
    {
        self.processor.ends.cached(r)
    }

    /// The memory.
    #[inline(always)]
    pub fn memory(&self) -> &Regions
        ensures { result.now ≡ self.now.state.mem }
    {
        &self.processor.memory
    }

    /// How many instructions have retired.
    #[inline(always)]
    pub fn retired(&self) -> u64
        ensures { result ≡ self.now.state.retired }
    {
        self.processor.retired
    }

    /// How the program ended, if it has.
    #[inline(always)]
    pub fn ending(&self) -> Option<End>
        ensures { result ≡ self.now.state.ending }
    {
        self.processor.ending
    }

    /// Whether the input or the output has failed a call of the environment, so that no move can be made any more.
    #[inline(always)]
    pub fn failed(&self) -> bool
        ensures { result ≡ self.now.state.failed }
    {
        self.processor.failed
    }

    /// Makes an allowed move, without testing its bars again, and returns what is seen of it from outside.
    ///
    /// An error comes only from Serve with ECALL in the highest stage, where the input or the output failed the call of the
    /// environment: the processor bars every move from then on, the guest's buffer is as [`rv_machine::serve`] leaves it, and
    /// all else is as before.
    ///
    /// Only Serve asks the input, and only if the instruction in the highest stage is an ECALL whose call asks the
    /// input. The same holds of the output. Every other move leaves both unchanged, whatever they expose.
    #[inline(always)]
    #[tactic(auto, using(crate::proofs::moves::KeptServe::making))]
    pub fn make<S: Source, K: Sink>(
        &mut self,
        m: Move,
        input: &mut S,
        output: &mut K,
    ) -> Result<Event, Fault>
        requires allowed { first_bar self.old.plan self.old.state m ≡ None }
        requires count { m ≡ mv.Leave → self.old.state.retired + 1 < 2 ^ 64 }
        ensures makes { MakesOrFails self.old self.new m
            (streams_of (S.left input.old) (K.written output.old))
            (streams_of (S.left input.new) (K.written output.new)) result }
        ensures input { HasCause (S.faults input.old) (S.faults input.new) (input_made result) }
        ensures output { HasCause (K.faults output.old) (K.faults output.new) (output_made result) }
        ensures input_asked { (AsksInput self.old m → ⊥) → input.new ≡ input.old }
        ensures output_asked { (AsksOutput self.old m → ⊥) → output.new ≡ output.old }
    {
        self.processor.make(&mut self.marks, m, input, output)
    }

    /// Makes an allowed move other than Serve, without testing its bars again, and answers what is seen of it from outside.
    /// Neither the input nor the output has a part in it.
    #[inline(always)]
    pub fn make_inside(&mut self, m: Move) -> Event
        requires allowed { first_bar self.old.plan self.old.state m ≡ None }
        requires count { m ≡ mv.Leave → self.old.state.retired + 1 < 2 ^ 64 }
        requires other { m ≢ mv.Serve }
        ensures processor { self.new ≡ after_move self.old m }
        ensures event { IsEvent self.old.plan self.old.state m result }
    {
        self.processor.make_marked(&mut self.marks, m)
    }

    /// Makes a move, if nothing bars it.
    ///
    /// `Barred` has the first bar of the move's row in the table of moves; nothing has changed then. `Moved` has what is
    /// seen of the move from outside. `ReadFault` and `WriteFault` come only from Serve with ECALL in the highest stage, where
    /// the input or the output failed the call of the environment: the processor bars every move from then on, the guest's
    /// buffer is as [`rv_machine::serve`] leaves it, and all else is as before.
    ///
    /// Only Serve asks the input, and only if nothing bars it and the instruction in the highest stage is an ECALL
    /// whose call asks the input. The same holds of the output. Every other move leaves both unchanged, whatever they
    /// expose.
    #[inline(always)]
    #[tactic(auto, unfolding(crate::specs::Stepping::StepsOrBarred, crate::specs::Stepping::MakesOrFails))]
    pub fn step<S: Source, K: Sink>(&mut self, m: Move, input: &mut S, output: &mut K) -> Step
        requires { self.old.state.retired + 1 < 2 ^ 64 }
        ensures steps { StepsOrBarred self.old self.new m
            (streams_of (S.left input.old) (K.written output.old))
            (streams_of (S.left input.new) (K.written output.new)) result }
        ensures input { HasCause (S.faults input.old) (S.faults input.new) (input_at_step result) }
        ensures output { HasCause (K.faults output.old) (K.faults output.new) (output_at_step result) }
        ensures input_asked { (AsksInput self.old m → ⊥) → input.new ≡ input.old }
        ensures output_asked { (AsksOutput self.old m → ⊥) → output.new ≡ output.old }
    {
        if let Some(bar) = self.allowed(m) {
            return Step::Barred(bar);
        }
        match self.make(m, input, output) {
            Ok(event) => Step::Moved(event),
            Err(Fault::Read) => Step::ReadFault,
            Err(Fault::Write) => Step::WriteFault,
        }
    }

    /// The first bar of the move's row in the table of moves; `None` if it can be made.
    #[inline(always)]
    pub fn allowed(&self, m: Move) -> Option<Bar>
        ensures { result ≡ first_bar self.now.plan self.now.state m }
    {
        self.processor.bar(m)
    }
}
