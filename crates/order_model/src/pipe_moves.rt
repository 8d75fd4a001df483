//! The moves within the two pipes: Emit, Climb, Fall, Meet, Execute and Send.
#![tactic(auto, unfolding(crate::specs::RuleMoves::moved_without, cf_semantics::specs::moves::Moves::moved))]

ghost use Rattle.std.specs.Prelude.{◌≡◌, None};
ghost use Rattle.cf_bind.specs.declared.moves.Move.TheVariants as mv;
ghost use Rattle.cf_semantics.specs.moves.Moves.{moved, with_passenger};
ghost use Rattle.cf_semantics.specs.state.State.{with_cell};
ghost use Rattle.order_model.specs.RuleBars.{row_bar_without};
ghost use Rattle.order_model.specs.RuleMoves.{moved_without};
ghost use Rattle.order_model.specs.Situations.{in_memory};

use crate::Rule;
use crate::meeting::meet;
use crate::situation::Situation;
use cf_bind::{Cell, Packet, Passenger};
use cf_layout::LooseLayout;
use cf_passengers::finish;
use mem_regions::Regions;

impl Situation {
    /// Takes the first request from the lane, and puts its register's value into the highest stage.
    #[inline(always)]
    #[tactic(auto, using(crate::proofs::Emitted::emitting), unfolding(cf_semantics::specs::moves::Moves::moved))]
    pub(crate) fn emit(&mut self, layout: &LooseLayout, mem: &Regions)
        ensures { in_memory self.new mem.now ≡ moved layout.now (in_memory self.old mem.now) mv.Emit }
    {
        let top = layout.stages() as usize;
        let Some(cell) = self.cell(top) else {
            return;
        };
        if self.lane.is_empty() {
            return;
        }
        let reg = self.lane.remove(0);
        let value = self.reg(reg);
        self.put(
            top,
            Cell {
                packet: Some(Packet::Value { reg, value }),
                met: false,
                ..cell
            },
        );
    }

    /// Moves the instruction of the stage to the stage above.
    #[inline(always)]
    pub(crate) fn climb(&mut self, layout: &LooseLayout, mem: &Regions, i: u32)
        ensures { in_memory self.new mem.now ≡ moved layout.now (in_memory self.old mem.now) (mv.Climb i) }
    {
        let here = i as usize;
        let Some(cell) = self.cell(here) else {
            return;
        };
        let Some(above) = self.cell(here + 1) else {
            return;
        };
        self.put(
            here,
            Cell {
                passenger: None,
                met: false,
                ..cell
            },
        );
        self.put(
            here + 1,
            Cell {
                passenger: cell.passenger,
                met: false,
                ..above
            },
        );
    }

    /// Moves the result of the stage to the stage below.
    #[inline(always)]
    pub(crate) fn fall(&mut self, layout: &LooseLayout, mem: &Regions, i: u32)
        ensures { in_memory self.new mem.now ≡ moved layout.now (in_memory self.old mem.now) (mv.Fall i) }
    {
        let here = i as usize;
        let Some(cell) = self.cell(here) else {
            return;
        };
        let Some(below) = self.cell(here.saturating_sub(1)) else {
            return;
        };
        self.put(
            here,
            Cell {
                packet: None,
                met: false,
                ..cell
            },
        );
        self.put(
            here.saturating_sub(1),
            Cell {
                packet: cell.packet,
                met: false,
                ..below
            },
        );
    }

    /// The instruction and the result of the stage meet.
    #[inline(always)]
    pub(crate) fn meet_at(
        &mut self,
        away: Option<Rule>,
        layout: &LooseLayout,
        mem: &Regions,
        i: u32,
    )
        ensures { in_memory self.new mem.now ≡ moved_without away layout.now (in_memory self.old mem.now) (mv.Meet i) }
    {
        let Some(cell) = self.cell(i as usize) else {
            return;
        };
        let Some(passenger) = cell.passenger else {
            return;
        };
        let Some(packet) = cell.packet else {
            return;
        };
        let left = meet(away, passenger, packet);
        self.put(
            i as usize,
            Cell {
                passenger: Some(left.passenger),
                packet: left.packet,
                met: left.packet.is_some(),
            },
        );
    }

    /// Replaces the instruction of the stage.
    #[inline(always)]
    pub(crate) fn set_passenger(&mut self, i: usize, cell: Cell, passenger: Passenger)
        ensures { self.new ≡ with_cell self.old i (with_passenger cell passenger) }
    {
        self.put(
            i,
            Cell {
                passenger: Some(passenger),
                ..cell
            },
        );
    }

    /// A unit of the stage executes its instruction.
    #[inline(always)]
    #[tactic(auto, using(crate::proofs::Allowed::allowing), unfolding(cf_semantics::specs::moves::Moves::moved))]
    pub(crate) fn execute(
        &mut self,
        away: Option<Rule>,
        layout: &LooseLayout,
        mem: &Regions,
        i: u32,
    )
        requires { row_bar_without away layout.now (in_memory self.old mem.now) (mv.Execute i) ≡ None }
        ensures { in_memory self.new mem.now ≡ moved layout.now (in_memory self.old mem.now) (mv.Execute i) }
    {
        let _ = layout.stages();
        let Some(cell) = self.cell(i as usize) else {
            return;
        };
        let Some(mut passenger) = cell.passenger else {
            return;
        };
        finish(&mut passenger, None);
        self.set_passenger(i as usize, cell, passenger);
    }

    /// Puts the result that the instruction owes beside it, as met.
    #[inline(always)]
    pub(crate) fn send(&mut self, layout: &LooseLayout, mem: &Regions, i: u32)
        ensures { in_memory self.new mem.now ≡ moved layout.now (in_memory self.old mem.now) (mv.Send i) }
    {
        let Some(cell) = self.cell(i as usize) else {
            return;
        };
        let Some(passenger) = cell.passenger else {
            return;
        };
        self.put(
            i as usize,
            Cell {
                passenger: Some(Passenger {
                    owes: None,
                    ..passenger
                }),
                packet: passenger.owes,
                met: true,
            },
        );
    }
}
