//! The state in which a processor starts, copies of a state, and what a state shows.

ghost use Rattle.std.specs.Prelude.{◌≡◌, [], IfOk, map};
ghost use Rattle.cf_semantics.specs.runs.Runs.{empty_siding, opened};
ghost use Rattle.order_model.specs.Situations.{in_memory};

use crate::siding_ops::SidingOps;
use crate::situation::Situation;
use arrayvec::ArrayVec;
use cf_bind::{Cell, Fetch};
use cf_layout::LooseLayout;
use rv_machine::Machine;
use std::alloc::{AllocError, Global};

/// An empty stage.
const EMPTY: Cell = Cell {
    passenger: None,
    packet: None,
    met: false,
};

/// The sidings of the layout, without operations.
#[tactic(auto, using(crate::proofs::EmptySidings::emptying))]
fn empty_sidings(alloc: Global, layout: &LooseLayout) -> Result<Vec<SidingOps>, AllocError>
    ensures { IfOk result (λ sidings. sidings.items ≡ map empty_siding layout.now.sidings) }
{
    let mut list = Vec::new(alloc);
    for k in 0..layout.siding_count() {
        list.push(SidingOps::new(alloc, layout.cells_of(k))?)?;
    }
    Ok(list)
}

/// A copy of the sidings.
fn copy_sidings(alloc: Global, sidings: &[SidingOps]) -> Result<Vec<SidingOps>, AllocError>
    ensures { IfOk result (λ copy. copy.items ≡ sidings.now) }
{
    let mut list = Vec::new(alloc);
    for siding in sidings {
        list.push(siding.copy()?)?;
    }
    Ok(list)
}

impl Situation {
    /// The state in which a processor of this layout starts on the machine, in the machine's memory; or an error if
    /// there is not enough memory for the state.
    #[tactic(auto, unfolding(cf_semantics::specs::runs::Runs::opened))]
    pub fn start(
        alloc: Global,
        layout: &LooseLayout,
        machine: &Machine,
    ) -> Result<Situation, AllocError>
        ensures { IfOk result (λ s. in_memory s machine.now.mem ≡ opened layout.now (record { hart = machine.now; rest = []; output = [] })) }
    {
        let mut cells = Vec::new(alloc);
        cells.resize(layout.stages() as usize, EMPTY)?;
        Ok(Situation {
            cells,
            sidings: empty_sidings(alloc, layout)?,
            lane: ArrayVec::new(),
            fetch: Fetch::Running(machine.pc()),
            cache: [None; 32],
            regs: *machine.regs(),
            retired: machine.retired(),
            ending: None,
        })
    }

    /// A copy of the state; or an error if there is not enough memory for it.
    pub fn copy(&self, alloc: Global) -> Result<Situation, AllocError>
        ensures { IfOk result (λ s. s ≡ self.now) }
    {
        Ok(Situation {
            cells: self.cells.clone()?,
            sidings: copy_sidings(alloc, &self.sidings)?,
            lane: self.lane.clone()?,
            fetch: self.fetch,
            cache: self.cache,
            regs: self.regs,
            retired: self.retired,
            ending: self.ending,
        })
    }
}
