//! The cells of a siding.

ghost use Rattle.std.specs.Prelude.{◌≡◌, ◌<◌, IfOk, None, length, replicate, slice_set};
ghost use Rattle.std.specs.List.{list_any};
ghost use Rattle.cf_semantics.specs.moves.Bars.{last_op as op_at_end};
ghost use Rattle.cf_semantics.specs.state.Options.{is_some};

use cf_bind::Op;
use std::alloc::{AllocError, Global};
use std::marker::Model;

/// The cells of a siding, from the one at which operations enter.
#[derive(Drop)]
pub struct SidingOps {
    cells: Vec<Option<Op>>,
}

impl Model for SidingOps {
    ghost use Rattle.std.specs.Prelude.{List, Option};
    ghost use Rattle.cf_bind.specs.declared.cell.Op.{Op};

    ghost Value = { List (Option Op) };

    ghost view = { λ s. s.cells.items };
}

impl SidingOps {
    /// A siding of this many empty cells.
    pub(crate) fn new(alloc: Global, count: u32) -> Result<SidingOps, AllocError>
        ensures { IfOk result (λ siding. siding ≡ replicate count None) }
    {
        let mut cells = Vec::new(alloc);
        cells.resize(count as usize, None)?;
        Ok(SidingOps { cells })
    }

    /// A siding with these cells.
    pub fn of(cells: Vec<Option<Op>>) -> SidingOps
        ensures { result ≡ cells.items }
    {
        SidingOps { cells }
    }

    /// The cells.
    #[inline(always)]
    pub fn cells(&self) -> &[Option<Op>]
        ensures { result.now ≡ self.now }
    {
        &self.cells
    }

    /// Whether it holds an operation.
    pub(crate) fn holds_some(&self) -> bool
        ensures { result ≡ list_any is_some self.now }
    {
        self.cells.iter().any(|op| op.is_some())
    }

    /// Replaces the contents of a cell.
    #[inline(always)]
    pub(crate) fn set(&mut self, c: usize, op: Option<Op>)
        requires { c < length self.old }
        ensures { self.new ≡ slice_set self.old c op }
    {
        self.cells[c] = op;
    }

    /// A siding with the same contents.
    pub(crate) fn copy(&self) -> Result<SidingOps, AllocError>
        ensures { IfOk result (λ siding. siding ≡ self.now) }
    {
        Ok(SidingOps {
            cells: self.cells.clone()?,
        })
    }
}

/// The operation in the last cell.
#[inline(always)]
#[tactic(auto, using(crate::proofs::LastCell::last_cell))]
pub(crate) fn last_op(cells: &[Option<Op>]) -> Option<Op>
    ensures { result ≡ op_at_end cells.now }
{
    if cells.is_empty() {
        None
    } else {
        cells[cells.len() - 1]
    }
}
