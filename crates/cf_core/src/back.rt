//! Taking a move back: the old contents of what it wrote are put back.

ghost use Rattle.std.specs.Prelude.{◌≡◌, ◌-◌, [], ◌∷◌, IfSome, length, map, take};
ghost use Rattle.cf_passengers.specs.Facts.{IsWritable};
ghost use Rattle.cf_semantics.specs.moves.Kept.{bytes_back, cells_back, lane_back, ops_back, register_back, restored};
ghost use Rattle.cf_core.specs.Processors.{in_state};
ghost use Rattle.cf_core.specs.Places.{Each, FitsLane, IsOldCell, IsOldOp, CanReturn, with_cells, with_lane, with_memory, with_registers, with_sidings};
ghost use Rattle.cf_core.specs.Undo.{HasJustMade, cell_kept, kept_by, lane_kept, list_of_few, number_kept, op_kept, register_kept};

use crate::counterflow::Core;
use crate::old_number::OldNumber;
use crate::processor::Processor;
use crate::undo::{Few, OldCell, OldLane, OldOp, OldRegister, Undo};
use cf_ends::Ends;

/// Takes the last requests out: this many, or all if there are fewer.
fn cut_lane(ends: &mut Ends, count: u32)
    ensures { ends.new ≡ record ends.old { lane = take (length ends.old.lane - count) ends.old.lane } }
{
    for taken in 0..count.min(ends.lane_len()) {
        let _ = ends.unrequest();
    }
}

impl Processor {
    /// The old contents of the stages.
    fn put_cells(&mut self, cells: Few<OldCell>)
        requires { Each (IsOldCell (length self.old.state.cells)) cells }
        ensures { self.new ≡ with_cells self.old (cells_back (map cell_kept (list_of_few cells)) self.old.state.cells) }
    {
        match cells {
            Few::Nothing => {}
            Few::One(old) => self.stages.put_back(old.stage, old.cell),
            Few::Two(old, other) => {
                self.stages.put_back(old.stage, old.cell);
                self.stages.put_back(other.stage, other.cell);
            }
        }
    }

    /// The old contents of the cell of a siding.
    fn put_op(&mut self, old: OldOp)
        requires { IsOldOp (map length self.old.state.sidings) old }
        ensures sidings { self.new ≡ with_sidings self.old (ops_back (op_kept old ∷ []) self.old.state.sidings) }
        ensures sizes { map length self.new.state.sidings ≡ map length self.old.state.sidings }
    {
        self.sidings.put_back(old.siding, old.place, old.op);
    }

    /// The old contents of the cells of sidings.
    fn put_ops(&mut self, ops: Few<OldOp>)
        requires { Each (IsOldOp (map length self.old.state.sidings)) ops }
        ensures { self.new ≡ with_sidings self.old (ops_back (map op_kept (list_of_few ops)) self.old.state.sidings) }
    {
        match ops {
            Few::Nothing => {}
            Few::One(old) => self.put_op(old),
            Few::Two(old, other) => {
                self.put_op(old);
                self.put_op(other);
            }
        }
    }

    /// The old lane.
    fn put_lane(&mut self, lane: OldLane)
        requires { FitsLane self.old lane }
        ensures { self.new ≡ with_lane self.old (lane_back (lane_kept lane) self.old.state.lane) }
    {
        match lane {
            OldLane::Same => {}
            OldLane::Taken(r) => self.ends.reask(r),
            OldLane::Added(count) => cut_lane(&mut self.ends, count),
        }
    }

    /// The old value of the register.
    fn put_register(&mut self, register: Option<OldRegister>)
        requires { IfSome register (λ r. IsWritable r.reg) }
        ensures { self.new ≡ with_registers self.old (register_back (register_kept register) self.old.state.regs) }
    {
        if let Some(old) = register {
            self.ends.write(old.reg, old.value);
        }
    }

    /// The old bytes of memory.
    #[tactic(auto, using(crate::proofs::Widths::widths, crate::proofs::moves::KeptTemplates::putting_back))]
    fn put_number(&mut self, number: Option<OldNumber>)
        ensures { self.new ≡ with_memory self.old (bytes_back (number_kept number) self.old.state.mem) }
    {
        if let Some(old) = number {
            self.memory.put_back(old.addr, old.width, old.number);
        }
    }

    /// All that is kept.
    #[tactic(auto, unfolding(crate::specs::Undo::kept_by, cf_semantics::specs::moves::Kept::restored))]
    fn put_back(&mut self, undo: &Undo)
        requires { CanReturn self.old undo.now }
        ensures { self.new ≡ in_state self.old (restored self.old.state (kept_by undo.now)) }
    {
        self.put_cells(undo.cells);
        self.put_ops(undo.ops);
        self.put_lane(undo.lane);
        self.ends.set_fetch(undo.fetch);
        self.ends.set_cache(undo.cache);
        self.put_register(undo.register);
        self.put_number(undo.number);
        self.retired = undo.retired;
        self.ending = undo.ending;
    }
}

impl Core {
    /// Takes back the move that was made last, of which [`Core::before`] kept this.
    pub fn back(&mut self, undo: Undo)
        requires { HasJustMade self.old (kept_by undo) }
        ensures { self.new ≡ in_state self.old (restored self.old.state (kept_by undo)) }
    {
        self.processor.put_back(&undo);
        let touched = self.processor.touched(undo.moved());
        self.processor.remark(&mut self.marks, touched);
    }
}
