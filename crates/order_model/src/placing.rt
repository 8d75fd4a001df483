//! New contents of one stage, or of one cell of a siding.

ghost use Rattle.std.specs.Prelude.{◌≡◌, slice_index, slice_set};
ghost use Rattle.cf_semantics.specs.moves.Moves.{set_last as with_last};
ghost use Rattle.cf_semantics.specs.state.State.{siding_at, with_cell, with_siding};

use crate::situation::Situation;
use cf_bind::{Cell, Op};

impl Situation {
    /// The value of the register.
    #[inline(always)]
    pub(crate) fn reg(&self, reg: u8) -> u32
        ensures { result ≡ slice_index self.now.regs reg }
    {
        match self.regs.get(reg as usize) {
            Some(value) => *value,
            None => 0,
        }
    }

    /// Writes the register.
    #[inline(always)]
    #[tactic(auto, using(crate::proofs::Beyond::beyond))]
    pub(crate) fn write(&mut self, reg: u8, value: u32)
        ensures { self.new ≡ record self.old { regs = slice_set self.old.regs reg value } }
    {
        if (reg as usize) < 32 {
            self.regs[reg as usize] = value;
        }
    }

    /// Replaces the cached value of the register.
    #[inline(always)]
    #[tactic(auto, using(crate::proofs::Beyond::beyond))]
    pub(crate) fn keep(&mut self, reg: u8, value: Option<u32>)
        ensures { self.new ≡ record self.old { cache = slice_set self.old.cache reg value } }
    {
        if (reg as usize) < 32 {
            self.cache[reg as usize] = value;
        }
    }

    /// Replaces the contents of the stage, if there is one with this number.
    #[inline(always)]
    #[tactic(auto, using(crate::proofs::Beyond::beyond))]
    pub(crate) fn put(&mut self, i: usize, cell: Cell)
        ensures { self.new ≡ with_cell self.old i cell }
    {
        if i > 0 && i <= self.cells.len() {
            self.cells[i - 1] = cell;
        }
    }

    /// Replaces the contents of a cell of a siding, if there is one with these numbers.
    #[inline(always)]
    #[tactic(auto, using(crate::proofs::Beyond::beyond))]
    pub(crate) fn set_op(&mut self, k: usize, c: usize, op: Option<Op>)
        ensures { self.new ≡ with_siding self.old k (slice_set (siding_at self.old k) c op) }
    {
        if c < self.siding(k).len() {
            self.sidings[k].set(c, op);
        }
    }

    /// Replaces the contents of the last cell of a siding, if there is one.
    #[inline(always)]
    #[tactic(auto, using(crate::proofs::LastCell::last_cell, crate::proofs::Beyond::beyond))]
    pub(crate) fn set_last_op(&mut self, k: usize, op: Option<Op>)
        ensures { self.new ≡ with_siding self.old k (with_last (siding_at self.old k) op) }
    {
        let count = self.siding(k).len();
        if count > 0 {
            self.set_op(k, count - 1, op);
        }
    }
}
