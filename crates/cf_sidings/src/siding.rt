//! One siding.

ghost use Rattle.std.specs.Prelude.{◌≡◌, ◌<◌, IfOk, None, Some, length, replicate, slice_get, slice_set};
ghost use Rattle.cf_semantics.specs.moves.Bars.{last_op};

use cf_bind::Op;
use std::alloc::{AllocError, Global};
use std::marker::Model;

/// A siding. Contracts see it as the list of its cells, from the one at which operations enter.
#[derive(Drop)]
pub(crate) struct SidingCells {
    cells: Vec<Option<Op>>,
}

impl Model for SidingCells {
    ghost use Rattle.std.specs.Prelude.{List, Option};
    ghost use Rattle.cf_bind.specs.declared.cell.Op.{Op};

    ghost Value = { List (Option Op) };

    ghost view = { λ s. s.cells.items };
}

impl SidingCells {
    /// A siding of this many empty cells.
    pub(crate) fn new(alloc: Global, count: u32) -> Result<SidingCells, AllocError>
        ensures { IfOk result (λ siding. siding ≡ replicate count None) }
    {
        let mut cells = Vec::new(alloc);
        cells.resize(count as usize, None)?;
        Ok(SidingCells { cells })
    }

    /// The cells, from the one at which operations enter.
    #[inline(always)]
    pub(crate) fn cells(&self) -> &[Option<Op>]
        ensures { result.now ≡ self.now }
    {
        &self.cells
    }

    /// The contents of the cell.
    #[inline(always)]
    pub(crate) fn cell(&self, c: usize) -> Option<Op>
        requires { c < length self.now }
        ensures { Some result ≡ slice_get self.now c }
    {
        self.cells[c]
    }

    /// The operation in the last cell.
    #[inline(always)]
    #[tactic(auto, using(crate::proofs::Last::last_cell))]
    pub(crate) fn last(&self) -> Option<Op>
        requires { 0 < length self.now }
        ensures { result ≡ last_op self.now }
    {
        self.cells[self.cells.len() - 1]
    }

    /// Replaces the contents of the cell.
    #[inline(always)]
    pub(crate) fn set(&mut self, c: usize, op: Option<Op>)
        requires { c < length self.old }
        ensures cells { self.new ≡ slice_set self.old c op }
        ensures count { length self.new ≡ length self.old }
    {
        self.cells[c] = op;
    }
}
