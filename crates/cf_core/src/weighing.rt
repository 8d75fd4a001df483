//! The weight of what is in the processor, which each move but Issue lowers.

ghost use Rattle.std.specs.Prelude.{◌≡◌, ◌+◌, ◌*◌, ◌<◌, ◌≤◌, length};
ghost use Rattle.cf_semantics.specs.claims.Weight.{counts as counts_where, most_cells, passenger_weight as weight_of_passenger, cell_weight as weight_of_cell, cells_weight as weight_of_cells, op_weight as weight_of_op, siding_weight as weight_of_siding, sidings_weight as weight_of_sidings, weight};
ghost use Rattle.cf_core.specs.Processors.{IsProcessor};

use crate::counterflow::Core;
use crate::processor::Processor;
use cf_bind::{Cell, Op, Passenger};
use cf_stages::Stages;
use rv_inst::{Class, class_of};

/// The number if the test holds, otherwise 0.
#[inline(always)]
fn counts(test: bool, number: u64) -> u64
    ensures number { result ≡ counts_where test number }
    ensures most { result ≤ number }
{
    if test { number } else { 0 }
}

/// What the weight of a stage depends on besides its content: its number, how many stages there are, and the most cells
/// of a siding.
#[derive(Clone, Copy)]
struct Place {
    stage: u64,
    stages: u64,
    cells: u64,
}

/// The weight of an instruction in a stage.
#[inline(always)]
fn passenger_weight(passenger: &Passenger, place: Place) -> u64
    requires within { place.stage ≤ place.stages }
    requires stages { place.stages ≤ 32 }
    requires cells { place.cells ≤ 8 }
    ensures weight { result ≡ weight_of_passenger place.stages place.cells place.stage passenger.now }
    ensures most { result ≤ 256 }
{
    let undone = !passenger.dead && !passenger.done;
    2 * (place.stages - place.stage)
        + 1
        + counts(undone, 2 * place.stages)
        + counts(undone && !passenger.launched, place.cells + 3)
        + counts(passenger.owes.is_some(), 2 * place.stages)
}

/// The weight of what is in a stage.
#[inline(always)]
#[tactic(auto, unfolding(cf_semantics::specs::claims::Weight::cell_weight))]
fn cell_weight(cell: &Cell, place: Place) -> u64
    requires above { 0 < place.stage }
    requires within { place.stage ≤ place.stages }
    requires stages { place.stages ≤ 32 }
    requires cells { place.cells ≤ 8 }
    ensures weight { result ≡ weight_of_cell place.stages place.cells place.stage cell.now }
    ensures most { result ≤ 512 }
{
    let climbing = match &cell.passenger {
        Some(passenger) => passenger_weight(passenger, place),
        None => 0,
    };
    let full = cell.passenger.is_some() && cell.packet.is_some() && !cell.met;
    climbing + counts(cell.packet.is_some(), 2 * place.stage - 1) + counts(full, 1)
}

/// The weight of what is in the stages.
#[inline(always)]
#[tactic(auto, using(crate::proofs::Weights::stages))]
fn cells_weight(stages: &Stages, cells: u64) -> u64
    requires { cells ≤ 8 }
    ensures weight { result ≡ weight_of_cells (length stages.now) cells 1 stages.now }
    ensures most { result ≤ 16384 }
{
    let count = stages.count();
    let mut weight = 0;
    for index in 0..count {
        let stage = index + 1;
        weight += cell_weight(
            &stages.cell(stage),
            Place {
                stage: u64::from(stage),
                stages: u64::from(count),
                cells,
            },
        );
    }
    weight
}

/// The weight of what is in the cell of this index in a siding of this many cells.
#[inline(always)]
#[tactic(auto, unfolding(cf_semantics::specs::claims::Weight::op_weight, cf_semantics::specs::moves::Instructions::kind_of))]
fn op_weight(op: &Option<Op>, index: u64, count: u64) -> u64
    requires within { index ≤ count }
    requires cells { count ≤ 8 }
    ensures weight { result ≡ weight_of_op count index op.now }
    ensures most { result ≤ 9 }
{
    match op {
        Some(op) => {
            let waits = matches!(class_of(op.instr), Class::Memory) && op.answer.is_none();
            count - index + counts(waits, 1)
        }
        None => 0,
    }
}

/// The weight of what is in a siding.
#[inline(always)]
fn siding_weight(cells: &[Option<Op>]) -> u64
    requires { length cells.now ≤ 8 }
    ensures weight { result ≡ weight_of_siding (length cells.now) 0 cells.now }
    ensures most { result ≤ 72 }
{
    let mut weight = 0;
    for (index, op) in cells.iter().enumerate() {
        weight += op_weight(op, index as u64, cells.len() as u64);
    }
    weight
}

impl Processor {
    /// The most cells of a siding.
    #[inline(always)]
    #[tactic(auto, using(crate::proofs::Weights::greatest, crate::proofs::Weights::weights))]
    fn most_cells(&self) -> u64
        requires { IsProcessor self.now.plan self.now.state }
        ensures most { result ≡ most_cells self.now.plan.sidings }
        ensures few { result ≤ 8 }
    {
        let mut most = 0;
        for k in 0..self.layout.siding_count() {
            most = self.layout.cells_of(k).max(most);
        }
        u64::from(most)
    }

    /// The weight of what is in the sidings.
    #[inline(always)]
    #[tactic(auto, using(crate::proofs::Weights::weights))]
    fn sidings_weight(&self) -> u64
        requires { IsProcessor self.now.plan self.now.state }
        ensures weight { result ≡ weight_of_sidings self.now.state.sidings }
        ensures most { result ≤ 576 }
    {
        let mut weight = 0;
        for k in 0..self.layout.siding_count() {
            weight += siding_weight(self.sidings.siding(k));
        }
        weight
    }
}

impl Core {
    /// The weight of what is in the processor. Each move but Issue lowers it, so at most this many moves can be made
    /// before the next Issue.
    #[tactic(auto, unfolding(cf_semantics::specs::claims::Weight::weight))]
    pub fn bound(&self) -> u64
        ensures { result ≡ weight self.now.plan self.now.state }
    {
        let processor = &self.processor;
        let stages = cells_weight(&processor.stages, processor.most_cells());
        let requests = (2 * u64::from(processor.layout.stages()) + 1)
            * u64::from(processor.ends.lane_len());
        stages + processor.sidings_weight() + requests
    }
}
