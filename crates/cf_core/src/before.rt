//! Keeping what a move is about to write.

ghost use Rattle.std.specs.Prelude.{◌≡◌, ◌≢◌, ◌<◌, ◌≤◌, [], ◌∷◌, None, length, map};
ghost use Rattle.rv_inst.specs.Operands.{class_of};
ghost use Rattle.rv_inst.specs.Accesses.{access_made};
ghost use Rattle.rv_inst.specs.declared.classes.Class.{Class as Classes};
ghost use Rattle.cf_bind.specs.declared.moves.Move.TheVariants as mv;
ghost use Rattle.cf_semantics.specs.moves.Bars.{bar as first_bar, row_bar};
ghost use Rattle.cf_semantics.specs.moves.Kept.{kept, kept_bytes, kept_cell, kept_cells, kept_lane, kept_op, kept_ops, kept_range, kept_register, siding_there};
ghost use Rattle.cf_semantics.specs.state.State.{siding_at};
ghost use Rattle.cf_core.specs.Processors.{IsProcessor};
ghost use Rattle.cf_core.specs.Undo.{CanStand, cell_kept, kept_by, lane_kept, list_of_few, number_kept, op_kept, register_kept};

use crate::counterflow::Core;
use crate::old_number::OldNumber;
use crate::processor::Processor;
use crate::undo::{Few, OldCell, OldLane, OldOp, OldRegister, Undo};
use cf_bind::{Fetch, Guess, Move, Op};
use cf_passengers::{kind, requests};
use rv_inst::access_of;

impl Processor {
    /// What is in the stage.
    fn old_cell(&self, i: u32) -> OldCell
        requires above { 0 < i }
        requires within { i ≤ length self.now.state.cells }
        ensures { cell_kept result ∷ [] ≡ kept_cell self.now.state i }
    {
        OldCell {
            stage: i,
            cell: self.stages.cell(i),
        }
    }

    /// What is in the stages that the move writes.
    fn old_cells(&self, m: Move) -> Few<OldCell>
        requires facts { IsProcessor self.now.plan self.now.state }
        requires allowed { row_bar self.now.plan self.now.state m ≡ None }
        ensures { map cell_kept (list_of_few result) ≡ kept_cells self.now.plan self.now.state m }
    {
        match m {
            Move::Issue(_) | Move::Exit => Few::One(self.old_cell(1)),
            Move::Emit | Move::Leave => Few::One(self.old_cell(self.stages.count())),
            Move::Climb(i) => Few::Two(self.old_cell(i), self.old_cell(i + 1)),
            Move::Fall(i) => Few::Two(self.old_cell(i), self.old_cell(i - 1)),
            Move::Meet(i) | Move::Execute(i) | Move::Send(i) => Few::One(self.old_cell(i)),
            Move::Launch(i) | Move::Recover(i) => Few::One(self.old_cell(i)),
            Move::Slide(_, _) | Move::Access | Move::Serve => Few::Nothing,
        }
    }

    /// What is in the cell of a siding.
    fn old_op(&self, k: u32, c: u32) -> OldOp
        requires facts { IsProcessor self.now.plan self.now.state }
        requires siding { k < length self.now.plan.sidings }
        requires cell { c < length (siding_at self.now.state k) }
        ensures { op_kept result ∷ [] ≡ kept_op self.now.state k c }
    {
        OldOp {
            siding: k,
            place: c,
            op: self.sidings.cell(k, c),
        }
    }

    /// The siding of the instruction in the stage.
    fn siding_there(&self, i: u32) -> Option<u32>
        requires above { 0 < i }
        requires within { i ≤ length self.now.state.cells }
        ensures { result ≡ siding_there self.now.plan self.now.state i }
    {
        match self.stages.passenger(i) {
            Some(passenger) => self.layout.siding_of(kind(passenger)),
            None => None,
        }
    }

    /// What is in the cells of sidings that the move writes.
    fn old_ops(&self, m: Move) -> Few<OldOp>
        requires facts { IsProcessor self.now.plan self.now.state }
        requires allowed { row_bar self.now.plan self.now.state m ≡ None }
        ensures { map op_kept (list_of_few result) ≡ kept_ops self.now.plan self.now.state m }
    {
        match m {
            Move::Launch(i) => match self.siding_there(i) {
                Some(k) => Few::One(self.old_op(k, 0)),
                None => Few::Nothing,
            },
            Move::Slide(k, c) => Few::Two(self.old_op(k, c), self.old_op(k, c + 1)),
            Move::Access => Few::One(self.old_op(self.port(), self.cells_in(self.port()) - 1)),
            Move::Recover(i) => match self.siding_there(i) {
                Some(k) => Few::One(self.old_op(k, self.cells_in(k) - 1)),
                None => Few::Nothing,
            },
            Move::Issue(_) | Move::Emit | Move::Climb(_) | Move::Fall(_) => Few::Nothing,
            Move::Meet(_) | Move::Execute(_) | Move::Send(_) => Few::Nothing,
            Move::Leave | Move::Exit | Move::Serve => Few::Nothing,
        }
    }

    /// How many requests are added by the instruction that is issued with the guess.
    fn added(&self, guess: Guess) -> OldLane
        ensures { lane_kept result ≡ kept_lane self.now.plan self.now.state (mv.Issue guess) }
    {
        match self.ends.fetch() {
            Fetch::Running(pc) => OldLane::Added(requests(&self.issued_at(pc, guess)).count()),
            Fetch::Waiting => OldLane::Same,
        }
    }

    /// What the move does to the lane.
    fn old_lane(&self, m: Move) -> OldLane
        requires { row_bar self.now.plan self.now.state m ≡ None }
        ensures { lane_kept result ≡ kept_lane self.now.plan self.now.state m }
    {
        match m {
            Move::Issue(guess) => self.added(guess),
            Move::Emit => OldLane::Taken(self.ends.lane_at(0)),
            Move::Climb(_) | Move::Fall(_) | Move::Meet(_) => OldLane::Same,
            Move::Execute(_) | Move::Send(_) | Move::Launch(_) => OldLane::Same,
            Move::Slide(_, _) | Move::Access | Move::Recover(_) => OldLane::Same,
            Move::Leave | Move::Exit | Move::Serve => OldLane::Same,
        }
    }

    /// What is in the register that the instruction in the highest stage writes, if it writes one.
    fn written(&self) -> Option<OldRegister>
        requires { IsProcessor self.now.plan self.now.state }
        ensures { register_kept result ≡ kept_register self.now.plan self.now.state mv.Leave }
    {
        let destination = self.top().passenger?.dst?;
        Some(OldRegister {
            reg: destination.reg,
            value: self.ends.reg(destination.reg),
        })
    }

    /// What is in the register that the move writes.
    fn old_register(&self, m: Move) -> Option<OldRegister>
        requires { IsProcessor self.now.plan self.now.state }
        ensures { register_kept result ≡ kept_register self.now.plan self.now.state m }
    {
        match m {
            Move::Leave => self.written(),
            Move::Issue(_) | Move::Emit | Move::Climb(_) | Move::Fall(_) | Move::Meet(_) => None,
            Move::Execute(_) | Move::Send(_) | Move::Launch(_) | Move::Slide(_, _) => None,
            Move::Access | Move::Recover(_) | Move::Exit | Move::Serve => None,
        }
    }

    /// What is in memory where the operation, a load or a store, writes.
    #[tactic(auto, using(crate::proofs::Widths::widths))]
    fn under(&self, op: Op) -> Option<OldNumber>
        requires { class_of op.instr ≡ Classes.Memory }
        ensures { number_kept result ≡ kept_range self.now.state.mem (access_made op.instr op.a op.b) }
    {
        let access = access_of(op.instr, op.a, op.b);
        if !access.write {
            return None;
        }
        let number = self.memory.number_under(access.addr, access.width)?;
        Some(OldNumber {
            addr: access.addr,
            width: access.width,
            number,
        })
    }

    /// What is in memory where the move writes.
    fn old_number(&self, m: Move) -> Option<OldNumber>
        requires facts { IsProcessor self.now.plan self.now.state }
        requires allowed { row_bar self.now.plan self.now.state m ≡ None }
        ensures { number_kept result ≡ kept_bytes self.now.plan self.now.state m }
    {
        match m {
            Move::Access => self.under((*self.last_op(self.port()))?),
            Move::Issue(_) | Move::Emit | Move::Climb(_) | Move::Fall(_) | Move::Meet(_) => None,
            Move::Execute(_) | Move::Send(_) | Move::Launch(_) | Move::Slide(_, _) => None,
            Move::Recover(_) | Move::Leave | Move::Exit | Move::Serve => None,
        }
    }

    /// The move with the old contents of what it writes.
    #[tactic(auto, unfolding(crate::specs::Undo::kept_by, cf_semantics::specs::moves::Kept::kept))]
    fn undo_of(&self, m: Move) -> Undo
        requires facts { IsProcessor self.now.plan self.now.state }
        requires allowed { row_bar self.now.plan self.now.state m ≡ None }
        ensures kept { kept_by result ≡ kept self.now.plan self.now.state m }
        ensures stands { CanStand self.now.plan self.now.state }
    {
        let _room = self.ends.lane_len();
        Undo {
            made: m,
            cells: self.old_cells(m),
            ops: self.old_ops(m),
            lane: self.old_lane(m),
            fetch: self.ends.fetch(),
            cache: self.ends.cache(),
            register: self.old_register(m),
            number: self.old_number(m),
            retired: self.retired,
            ending: self.ending,
        }
    }
}

impl Core {
    /// The move with the old contents of what it writes, so that [`Core::back`] can take it back once it was made.
    /// Serve cannot be taken back, since its output is gone.
    pub fn before(&self, m: Move) -> Undo
        requires allowed { first_bar self.now.plan self.now.state m ≡ None }
        requires other { m ≢ mv.Serve }
        ensures kept { kept_by result ≡ kept self.now.plan self.now.state m }
        ensures stands { CanStand self.now.plan self.now.state }
    {
        self.processor.undo_of(m)
    }
}
