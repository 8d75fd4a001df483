//! The two ends of the pipes: the lowest stage and the highest.

ghost use Rattle.std.specs.Prelude.{◌≡◌, Some};
ghost use Rattle.cf_semantics.specs.state.State.{cell_at};
ghost use Rattle.cf_core.specs.Processors.{IsProcessor};

use crate::processor::Processor;
use cf_bind::Cell;

impl Processor {
    /// What is in the lowest stage.
    #[inline(always)]
    pub(crate) fn bottom(&self) -> Cell
        requires { IsProcessor self.now.plan self.now.state }
        ensures { Some result ≡ cell_at self.now.state.cells 1 }
    {
        self.stages.cell(1)
    }

    /// What is in the highest stage.
    #[inline(always)]
    pub(crate) fn top(&self) -> Cell
        requires { IsProcessor self.now.plan self.now.state }
        ensures { Some result ≡ cell_at self.now.state.cells self.now.plan.stages }
    {
        self.stages.cell(self.stages.count())
    }
}
